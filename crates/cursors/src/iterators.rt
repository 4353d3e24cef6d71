// Cursors over the members of a typeinfo and over the parameters of a function: iterators.rs of the
// source. (Those over tables are in `table_cursors`.)
//
// A cursor goes in by value and comes back. One step replies as one `next` of the source: the record,
// its number from 0 and the next cursor, or a refusal and the same cursor. NothingThere is the end.
// The lent bytes stand beside it and beside a record: C keeps both as numbers from one call to the next, and lends the bytes anew.
ghost use Rattle.std.specs.Prelude.{◌≡◌, ◌+◌, ◌^◌, ◌<◌};
ghost use Rattle.std.specs.Option.{IfSome};
ghost use Rattle.records.specs.Answer.{value};
ghost use Rattle.records.specs.Told.{told};
ghost use Rattle.cursors.specs.Cursors.{record_at, func_step, var_step, block_with, func_cursor, funcs_of, skip, var_cursor, vars_of, fixed_at, param_cursor, params_of, over_params, param_at, param_step};
ghost use Rattle.cursors.specs.Numbers.{number_of};
ghost use Rattle.typelib.specs.Tables.{lent};
ghost use Rattle.cursors.specs.Told.{told_func_step, told_var_step, told_param_step};

use member_records::func::FuncRecord;
use member_records::param::ParameterInfo;
use member_records::var::VarRecord;
use records::answer::{Place, Refusal};
use records::field::{LIMIT, Record};
use records::typeinfo::TypeInfoEntry;
use typelib::tables;
use typelib::typeinfos::Counts;
use util::{LittleEndian, NEGATIVE};

// One step of a cursor: the record, its number from 0 and the next cursor; or why there is none, and the cursor to go on with.
// (No `Result`: the cursor comes back either way.)
#[derive(Clone, Copy)]
pub enum Step<R, C, E = Refusal> {
    Record(R, u64, C),
    Refused(E, C),
}

// (Three types with the same fields, as records are told apart by their types: C builds each from its numbers, and contracts name the fields.)
#[derive(Clone, Copy, Default)]
pub struct FuncCursor {
    pub pos: usize,
    pub end: usize,
    pub remaining: usize,
    pub yielded: u64,
}

#[derive(Clone, Copy, Default)]
pub struct VarCursor {
    pub pos: usize,
    pub end: usize,
    pub remaining: usize,
    pub yielded: u64,
}

#[derive(Clone, Copy, Default)]
pub struct ParamCursor {
    pub pos: usize,
    pub end: usize,
    pub remaining: usize,
    pub yielded: u64,
}

// The function records of a typeinfo.
// (`vars` and `params` are readings of their own by the source; what they share is below.)
pub fn funcs(s: &[u8], ti: TypeInfoEntry) -> Result<FuncCursor, Refusal>
    ensures { told result ≡ funcs_of s.now ti }
{
    let memoffset = ti.field(s, 0x04)?;
    let c = typelib::typeinfos::declared_counts(s, ti)?;
    Ok(func_cursor(s, memoffset, c.funcs))
}

// The variable records of a typeinfo, behind its function records.
pub fn vars(s: &[u8], ti: TypeInfoEntry) -> Result<VarCursor, Refusal>
    ensures { told result ≡ vars_of s.now ti }
{
    let memoffset = ti.field(s, 0x04)?;
    let c = typelib::typeinfos::declared_counts(s, ti)?;
    Ok(var_cursor(s, memoffset, c))
}

// The parameters of a function, at the end of its record.
pub fn params(s: &[u8], func: FuncRecord) -> Result<ParamCursor, Refusal>
    ensures { told result ≡ params_of s.now func }
{
    let place = func.as_bytes(s)?;
    let count = func.argument_count(s)?;
    Ok(param_cursor(place, count))
}

// The steps of the three cursors differ in the types that they make, which C and the contracts name: a trait over those types
// has more lines than the steps, whose tests are `record_at` and `fixed_at`. (`step` and `size_hint` are readings of each by the source.)
// (A refusal goes out with its cursor, so that `?` cannot hand it on. A record is made of a place field by field: a conversion for each of the
// types of records has more lines than it saves.)
impl FuncCursor {
    pub fn step(self, s: &[u8]) -> Step<FuncRecord, FuncCursor>
        ensures { told_func_step result ≡ func_step s.now self }
    {
        match record_at(s, self.pos, self.end, self.remaining, FuncRecord::BASE_SIZE) {
            Ok(len) => Step::Record(
                FuncRecord { at: self.pos, len },
                self.yielded,
                FuncCursor {
                    pos: self.pos + len,
                    remaining: self.remaining - 1,
                    yielded: number_behind(self.yielded),
                    ..self
                },
            ),
            Err(refusal) => Step::Refused(refusal, self),
        }
    }

    // The most records that are left.
    pub fn size_hint(self) -> usize
        ensures { result ≡ self.remaining }
    {
        self.remaining
    }
}

impl VarCursor {
    pub fn step(self, s: &[u8]) -> Step<VarRecord, VarCursor>
        ensures { told_var_step result ≡ var_step s.now self }
    {
        match record_at(s, self.pos, self.end, self.remaining, VarRecord::BASE_SIZE) {
            Ok(len) => Step::Record(
                VarRecord { at: self.pos, len },
                self.yielded,
                VarCursor {
                    pos: self.pos + len,
                    remaining: self.remaining - 1,
                    yielded: number_behind(self.yielded),
                    ..self
                },
            ),
            Err(refusal) => Step::Refused(refusal, self),
        }
    }

    // The most records that are left.
    pub fn size_hint(self) -> usize
        ensures { result ≡ self.remaining }
    {
        self.remaining
    }
}

impl ParamCursor {
    pub fn step(self, s: &[u8]) -> Step<ParameterInfo, ParamCursor>
        ensures { told_param_step result ≡ param_step s.now self }
    {
        match param_at(s, self) {
            Ok(place) => Step::Record(
                ParameterInfo {
                    at: place.at,
                    len: place.len,
                },
                self.yielded,
                ParamCursor {
                    pos: self.pos + ParameterInfo::SIZE,
                    remaining: self.remaining - 1,
                    yielded: number_behind(self.yielded),
                    ..self
                },
            ),
            Err(refusal) => Step::Refused(refusal, self),
        }
    }

    // How many parameters are left.
    pub fn size_hint(self) -> usize
        ensures { result ≡ self.remaining }
    {
        self.remaining
    }
}

// How many records a cursor has yielded, once it has yielded one more than `yielded`: it stops at the largest number. It serves
// every cursor but the one over typeinfos, whose index is its number. (One call of the library, under the name that contracts have for it.)
#[tactic(auto, unfolding(crate::specs::Numbers::number_of))]
pub fn number_behind(yielded: u64) -> u64
    ensures { result ≡ number_of (yielded + 1) }
{
    yielded.saturating_add(1)
}

// Whether the bytes are few enough to be read.
#[tactic(auto, unfolding(typelib::specs::Tables::lent))]
pub fn is_lent(s: &[u8]) -> Result<(), Refusal>
    ensures { told result ≡ lent s.now (value tt) }
{
    if LIMIT < s.len() {
        return Err(Refusal::OverLong);
    }
    Ok(())
}

// The length of the record at `pos`: the one test of the records of a block.
#[tactic(auto, unfolding(typelib::specs::Tables::lent, crate::specs::Cursors::record_at))]
fn record_at(
    s: &[u8],
    pos: usize,
    end: usize,
    remaining: usize,
    least: usize,
) -> Result<usize, Refusal>
    ensures { told result ≡ lent s.now (record_at s.now pos end remaining least) }
{
    is_lent(s)?;
    if remaining == 0 {
        return Err(Refusal::NothingThere);
    }
    if end <= pos {
        return Err(Refusal::NothingThere);
    }
    let info = u32::read_le(s, pos).ok_or(Refusal::NothingThere)?;
    let size = util::bits(info, 0, 16) as usize;
    if size < least {
        return Err(Refusal::NothingThere);
    }
    let room = s.len() - pos;
    if room < size {
        return Err(Refusal::NothingThere);
    }
    Ok(size)
}

// The record of `size` bytes at `pos`, in a table or a function's record that ends at `end`: the one test of the records of one size.
// It serves the cursors over tables, too. (`size` is how many bytes are asked for, and not the length of the lent ones.)
#[tactic(auto, unfolding(typelib::specs::Tables::lent, crate::specs::Cursors::fixed_at))]
pub fn fixed_at(s: &[u8], pos: usize, end: usize, size: usize) -> Result<Place, Refusal>
    ensures { told result ≡ lent s.now (fixed_at s.now pos end size) }
{
    is_lent(s)?;
    if tables::in_table(s, Place { at: 0, len: end }, pos, size) {
        return Ok(Place { at: pos, len: size });
    }
    Err(Refusal::NothingThere)
}

// (The first test stands in the sheet's traversals, too: there it replies a place of the output, and no refusal.)
#[tactic(auto, unfolding(typelib::specs::Tables::lent, crate::specs::Cursors::param_at))]
fn param_at(s: &[u8], cursor: ParamCursor) -> Result<Place, Refusal>
    ensures { told result ≡ lent s.now (param_at s.now (over_params.stands cursor)) }
{
    is_lent(s)?;
    if cursor.remaining == 0 {
        return Err(Refusal::NothingThere);
    }
    fixed_at(s, cursor.pos, cursor.end, ParameterInfo::SIZE)
}

// The block at a memoffset, where it has one and `count` records are declared.
// (Whether an offset is negative is one comparison; what follows is nothing here, and a refusal elsewhere.)
#[tactic(auto, unfolding(crate::specs::Cursors::block_with))]
fn block_with(s: &[u8], memoffset: u32, count: u16) -> Option<Place>
    ensures { (result ≡ block_with s.now memoffset count) × IfSome result (λ block. block.at + block.len < 2 ^ 33) }
{
    if NEGATIVE <= memoffset {
        return None;
    }
    if count == 0 {
        return None;
    }
    let size = u32::read_le(s, memoffset as usize)?;
    Some(Place {
        at: memoffset as usize + 4,
        len: size as usize,
    })
}

// (Three functions, as the cursors are three types, each of which starts at a place of its own.)
fn func_cursor(s: &[u8], memoffset: u32, count: u16) -> FuncCursor
    ensures { result ≡ func_cursor count (block_with s.now memoffset count) }
{
    let Some(block) = block_with(s, memoffset, count) else {
        return FuncCursor::default();
    };
    FuncCursor {
        pos: block.at,
        end: block.at + block.len,
        remaining: count as usize,
        yielded: 0,
    }
}

fn var_cursor(s: &[u8], memoffset: u32, c: Counts) -> VarCursor
    ensures { result ≡ var_cursor s.now c (block_with s.now memoffset c.vars) }
{
    let Some(block) = block_with(s, memoffset, c.vars) else {
        return VarCursor::default();
    };
    let Some(pos) = skip_functions(s, block.at, c.funcs as usize) else {
        return VarCursor::default();
    };
    VarCursor {
        pos,
        end: block.at + block.len,
        remaining: c.vars as usize,
        yielded: 0,
    }
}

// Past `count` function records from `start` on, by their sizes alone.
fn skip_functions(s: &[u8], start: usize, count: usize) -> Option<usize>
    ensures { result ≡ skip count s.now start }
{
    let mut pos = start;
    for _ in 0..count {
        let size = util::bits(u32::read_le(s, pos)?, 0, 16) as usize;
        if size == 0 {
            return Some(pos);
        }
        pos += size;
    }
    Some(pos)
}

#[tactic(auto, unfolding(crate::specs::Cursors::param_cursor))]
fn param_cursor(place: Place, count: u16) -> ParamCursor
    requires { place.at + place.len < 2 ^ 63 }
    ensures { result ≡ param_cursor place count }
{
    let size = 12 * (count as usize);
    let len = place.len;
    if len < size {
        return ParamCursor::default();
    }
    ParamCursor {
        pos: place.at + (len - size),
        end: place.at + len,
        remaining: count as usize,
        yielded: 0,
    }
}
