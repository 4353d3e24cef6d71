// The words of a type's members: their identifiers and the offsets of their names. They stand in rows behind the block of the
// type's records; where the rows start is looked up once for a type, not once for a member.
// (What a function takes stands apart: a struct of more than two numbers is handed on by way of memory, which made sheets slower.)
ghost use Rattle.std.specs.Prelude.{◌≡◌, ◌+◌, ◌*◌};
ghost use Rattle.util.specs.Read.{read};
ghost use Rattle.records.specs.Answer.{or_nine, map};
ghost use Rattle.records.specs.Record.{signed32};
ghost use Rattle.records.specs.Told.{told};
ghost use Rattle.typelib.specs.TypeInfos.{block_at};
ghost use Rattle.sheet_members.specs.Words.{block_end, words_at, row_at, FuncRows};

use records::answer::Refusal;
use records::field::Record;
use records::typeinfo::TypeInfoEntry;
use typelib::typeinfos;
use util::{LittleEndian, NEGATIVE};

// Where the rows of a type's functions start: the identifiers, and the offsets of the names. (A row that is not there starts at the
// end of the library, where no word is: with an Option the look-up of each word would have one more test.)
#[derive(Clone, Copy)]
pub struct Rows {
    pub memids: usize,
    pub names: usize,
}

pub fn func_rows(s: &[u8], ti: TypeInfoEntry) -> Rows
    ensures { FuncRows s.now ti result.memids result.names }
{
    let Ok(c) = typeinfos::declared_counts(s, ti) else {
        return Rows {
            memids: s.len(),
            names: s.len(),
        };
    };
    let start = words_at(s, ti);
    Rows {
        memids: row(s, start, 0),
        names: row(s, start, c.funcs as u32 + c.vars as u32),
    }
}

fn words_at(s: &[u8], ti: TypeInfoEntry) -> Result<usize, Refusal>
    ensures { told result ≡ words_at s.now ti }
{
    let memoffset = ti.field::<u32>(s, 0x04)?;
    words_behind(s, memoffset)
}

// Where the block at `memoffset` ends.
fn words_behind(s: &[u8], memoffset: u32) -> Result<usize, Refusal>
    ensures { told result ≡ map block_end (block_at s.now memoffset) }
{
    if NEGATIVE <= memoffset {
        return Err(Refusal::NothingThere);
    }
    let size = u32::read_le(s, memoffset as usize).ok_or(Refusal::NothingThere)?;
    Ok(memoffset as usize + 4 + size as usize)
}

// The row that starts with word `first` of those from `start` on, or at the end of the library if that comes before.
fn row(s: &[u8], start: Result<usize, Refusal>, first: u32) -> usize
    ensures { result ≡ row_at s.now (map (λ at. at + 4 * first) (told start)) }
{
    let Ok(at) = start else {
        return s.len();
    };
    at.saturating_add(4 * (first as usize)).min(s.len())
}

// Word `index` of the row at `at`.
pub fn word(s: &[u8], at: usize, index: usize) -> Result<i32, Refusal>
    ensures { told result ≡ signed32 (or_nine (read 4 s.now (at + 4 * index))) }
{
    if s.len() < at {
        return Err(Refusal::NothingThere);
    }
    if (s.len() - at) / 4 <= index {
        return Err(Refusal::NothingThere);
    }
    let from = at + 4 * index;
    let bytes = &s[from..from + 4];
    Ok(util::or_zero::<u32>(bytes, 0).cast_signed())
}
