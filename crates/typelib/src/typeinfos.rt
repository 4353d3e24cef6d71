// Typeinfos, and the arrays of member identifiers and name offsets behind their members' records. What stands outside `impl TypeLib`
// serves this crate and those above it. (Contracts tell a record by its place: the name says of which type it is.)
ghost use Rattle.std.specs.Prelude.{◌≡◌, ◌+◌, ◌*◌, ◌<◌};
ghost use Rattle.records.specs.Record.{signed32};
ghost use Rattle.records.specs.Told.{told};
ghost use Rattle.typelib.specs.Header.{library};
ghost use Rattle.typelib.specs.Told.{told_offset, told_type_info};
ghost use Rattle.typelib.specs.TypeInfos.{typeinfo_offset, typeinfo_in, typeinfo_of, counts_of, aux_in, aux_at, func_memid, var_memid, func_name_offset, var_name_offset, func_name, var_name};

use crate::{Numbers, TypeInfoIndex, TypeInfoOffset, TypeLib, tables};
use records::answer::{Place, Refusal};
use records::field::{LIMIT, Record};
use records::typeinfo::TypeInfoEntry;
use util::{LittleEndian, NEGATIVE};

// (A table is the number of its segment: see `tables::segment`.)
const TYPEINFO_TABLE: usize = 0;

impl TypeLib {
    // The word of the offset table for a typeinfo: its byte offset in segment 0.
    #[tactic(auto, unfolding(crate::specs::Tables::lent))]
    pub fn typeinfo_offset(self, s: &[u8], index: TypeInfoIndex) -> Result<TypeInfoOffset, Refusal>
        ensures { told_offset result ≡ typeinfo_offset s.now self index.0 }
    {
        if LIMIT < s.len() {
            return Err(Refusal::OverLong);
        }
        tables::offset_word(&self.numbers, s, index)
    }

    pub fn typeinfo(self, s: &[u8], index: TypeInfoIndex) -> Result<TypeInfoEntry, Refusal>
        ensures { told_type_info result ≡ typeinfo_of s.now self index.0 }
    {
        typeinfo_at(&self.numbers, s, index)
    }

    // The member identifier of function `index`.
    // (Four readings of the source, of one row of words each: they differ in where it starts.)
    pub fn func_memid(self, s: &[u8], ti: TypeInfoEntry, index: usize) -> Result<i32, Refusal>
        ensures { told result ≡ signed32 (func_memid s.now ti index) }
    {
        func_memid(s, ti, index)
    }

    // The member identifier of variable `index`.
    pub fn var_memid(self, s: &[u8], ti: TypeInfoEntry, index: usize) -> Result<i32, Refusal>
        ensures { told result ≡ signed32 (var_memid s.now ti index) }
    {
        var_memid(s, ti, index)
    }

    // The name offset of function `index`; -1 where it has no name of its own.
    pub fn func_name_offset(self, s: &[u8], ti: TypeInfoEntry, index: usize) -> Result<i32, Refusal>
        ensures { told result ≡ signed32 (func_name_offset s.now ti index) }
    {
        func_name_offset(s, ti, index)
    }

    // The name offset of variable `index`.
    pub fn var_name_offset(self, s: &[u8], ti: TypeInfoEntry, index: usize) -> Result<i32, Refusal>
        ensures { told result ≡ signed32 (var_name_offset s.now ti index) }
    {
        var_name_offset(s, ti, index)
    }

    // The name of function `index`, where it is UTF-8.
    // (This and the next are readings of the source, each of which asks for the word of its own kind of member.)
    pub fn func_name(self, s: &[u8], ti: TypeInfoEntry, index: usize) -> Result<Place, Refusal>
        ensures { told result ≡ func_name s.now self ti index }
    {
        if LIMIT < s.len() {
            return Err(Refusal::OverLong);
        }
        let Ok(offset) = func_name_offset(s, ti, index) else {
            return Err(Refusal::NothingThere);
        };
        self.name(s, offset)
    }

    // The name of variable `index`, where it is UTF-8.
    pub fn var_name(self, s: &[u8], ti: TypeInfoEntry, index: usize) -> Result<Place, Refusal>
        ensures { told result ≡ var_name s.now self ti index }
    {
        if LIMIT < s.len() {
            return Err(Refusal::OverLong);
        }
        let Ok(offset) = var_name_offset(s, ti, index) else {
            return Err(Refusal::NothingThere);
        };
        self.name(s, offset)
    }
}

// The typeinfo at an index; 6, 7 or 8 where there is none.
#[tactic(auto, unfolding(crate::specs::Tables::lent))]
pub fn typeinfo_at(lib: &Numbers, s: &[u8], index: TypeInfoIndex) -> Result<TypeInfoEntry, Refusal>
    ensures { told_type_info result ≡ typeinfo_of s.now (library lib.now) index.0 }
{
    if LIMIT < s.len() {
        return Err(Refusal::OverLong);
    }
    let Ok(offset) = tables::offset_word(lib, s, index) else {
        return Err(Refusal::NoSuchTypeInfo);
    };
    typeinfo_in(lib, s, offset)
}

#[tactic(auto, unfolding(crate::specs::TypeInfos::typeinfo_in))]
fn typeinfo_in(lib: &Numbers, s: &[u8], offset: TypeInfoOffset) -> Result<TypeInfoEntry, Refusal>
    ensures { told_type_info result ≡ typeinfo_in s.now (library lib.now) offset.0 }
{
    if NEGATIVE <= offset.0 {
        return Err(Refusal::NoSuchTypeInfo);
    }
    let Ok(table) = tables::segment(lib, TYPEINFO_TABLE) else {
        return Err(Refusal::NoTypeInfoTable);
    };
    let Ok(place) = tables::place_in(s, table, offset.0, 0x64) else {
        return Err(Refusal::ShortTypeInfo);
    };
    // (field by field: a conversion for each of the types of records has more lines than it saves)
    Ok(TypeInfoEntry {
        at: place.at,
        len: place.len,
    })
}

// The words of a typeinfo's members need no library: the readings above are these. (They differ in where their row starts, and share `member_word`.)
pub fn func_memid(s: &[u8], ti: TypeInfoEntry, index: usize) -> Result<i32, Refusal>
    ensures { told result ≡ signed32 (func_memid s.now ti index) }
{
    declared_counts(s, ti)?;
    member_word(s, ti, 0, index)
}

pub fn var_memid(s: &[u8], ti: TypeInfoEntry, index: usize) -> Result<i32, Refusal>
    ensures { told result ≡ signed32 (var_memid s.now ti index) }
{
    let counts = declared_counts(s, ti)?;
    member_word(s, ti, counts.funcs as u32, index)
}

pub fn func_name_offset(s: &[u8], ti: TypeInfoEntry, index: usize) -> Result<i32, Refusal>
    ensures { told result ≡ signed32 (func_name_offset s.now ti index) }
{
    let counts = declared_counts(s, ti)?;
    member_word(s, ti, counts.funcs as u32 + counts.vars as u32, index)
}

pub fn var_name_offset(s: &[u8], ti: TypeInfoEntry, index: usize) -> Result<i32, Refusal>
    ensures { told result ≡ signed32 (var_name_offset s.now ti index) }
{
    let counts = declared_counts(s, ti)?;
    member_word(s, ti, 2 * (counts.funcs as u32) + counts.vars as u32, index)
}

// The declared counts of a typeinfo.
#[derive(Clone, Copy)]
pub struct Counts {
    pub funcs: u16,
    pub vars: u16,
}

pub fn declared_counts(s: &[u8], ti: TypeInfoEntry) -> Result<Counts, Refusal>
    ensures { told result ≡ counts_of s.now ti }
{
    let funcs = ti.func_count(s)?;
    let vars = ti.var_count(s)?;
    Ok(Counts { funcs, vars })
}

// Word `first + index` behind the block of a typeinfo's records.
fn member_word(s: &[u8], ti: TypeInfoEntry, first: u32, index: usize) -> Result<i32, Refusal>
    ensures { told result ≡ signed32 (aux_at s.now ti (first + index)) }
{
    let memoffset = ti.field(s, 0x04)?;
    Ok(aux_in(s, memoffset, first, index)?.cast_signed())
}

// The same by the block's offset, as it is stored.
#[tactic(auto, unfolding(crate::specs::TypeInfos::aux_in, crate::specs::TypeInfos::block_at, crate::specs::TypeInfos::aux_word))]
fn aux_in(s: &[u8], memoffset: u32, first: u32, index: usize) -> Result<u32, Refusal>
    ensures { told result ≡ aux_in s.now memoffset (first + index) }
{
    if NEGATIVE <= memoffset {
        return Err(Refusal::NothingThere);
    }
    let size = u32::read_le(s, memoffset as usize).ok_or(Refusal::NothingThere)?;
    // A word past the end; the sum below then fits.
    if s.len() / 4 < index {
        return Err(Refusal::NothingThere);
    }
    let at = memoffset as usize + 4 + size as usize + 4 * (first as usize + index);
    u32::read_le(s, at).ok_or(Refusal::NothingThere)
}
