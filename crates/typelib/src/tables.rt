// Where a library's tables lie. This module is no reading of the source: it serves the readings of this crate and of the crates
// above it, which lend the library's numbers and test the length of the bytes (refusal 1) where a function here does not. (That test is one
// comparison, where it is made: no function of it is plainer.) (The numbers are a plain
// array, as `Numbers` says. A `size` is how many bytes are asked for, and not the length of the lent ones.)
ghost use Rattle.std.specs.Prelude.{◌≡◌, ◌+◌, ◌^◌, ◌<◌};
ghost use Rattle.records.specs.Told.{told};
ghost use Rattle.typelib.specs.Header.{library, type_count, table_start};
ghost use Rattle.typelib.specs.Tables.{segment_of, in_table, place_in, table_place, table_of};
ghost use Rattle.typelib.specs.Told.{told_offset};
ghost use Rattle.typelib.specs.TypeInfos.{offset_word};

use crate::{Numbers, TypeInfoIndex, TypeInfoOffset};
use records::answer::{Place, Refusal};
use records::field::LIMIT;
use util::{LittleEndian, NEGATIVE};

// How many typeinfos the library has.
pub fn count(lib: &Numbers) -> u32
    ensures { result ≡ type_count (library lib.now) }
{
    lib[30]
}

// Where their offsets start.
pub fn table_start(lib: &Numbers) -> u32
    ensures { result ≡ table_start (library lib.now) }
{
    lib[31]
}

// Where segment `index` lies; 9 where it is missing.
// (A table is the number of its segment, of which a caller may give any, as in the source.)
#[tactic(auto, unfolding(crate::specs::Tables::segment_of, crate::specs::Tables::segment_place))]
pub fn segment(lib: &Numbers, index: usize) -> Result<Place, Refusal>
    ensures { told result ≡ segment_of (library lib.now) index }
{
    if 15 <= index {
        return Err(Refusal::NothingThere);
    }
    let offset = lib[2 * index];
    let length = lib[2 * index + 1];
    if NEGATIVE <= offset {
        return Err(Refusal::NothingThere);
    }
    if length == 0 {
        return Err(Refusal::NothingThere);
    }
    if NEGATIVE <= length {
        return Err(Refusal::NothingThere);
    }
    Ok(Place {
        at: offset as usize,
        len: length as usize,
    })
}

// A segment's place, or an empty one at the start of the file where it is missing.
pub fn table(lib: &Numbers, index: usize) -> Place
    ensures { (result ≡ table_of (segment_of (library lib.now) index)) × (result.at + result.len < 2 ^ 32) }
{
    segment(lib, index).unwrap_or(Place { at: 0, len: 0 })
}

// The way to the bytes of a table: where the `size` bytes at `offset` of segment `index` lie.
#[tactic(auto, unfolding(crate::specs::Tables::lent))]
pub fn table_place(
    lib: &Numbers,
    s: &[u8],
    index: usize,
    offset: u32,
    size: usize,
) -> Result<Place, Refusal>
    ensures { told result ≡ table_place s.now (library lib.now) index offset size }
{
    if LIMIT < s.len() {
        return Err(Refusal::OverLong);
    }
    let table = segment(lib, index)?;
    place_in(s, table, offset, size)
}

// Where the `size` bytes at `offset` of a table lie.
#[tactic(auto, unfolding(crate::specs::Tables::place_in))]
pub fn place_in(s: &[u8], table: Place, offset: u32, size: usize) -> Result<Place, Refusal>
    ensures { told result ≡ place_in s.now table offset size }
{
    if NEGATIVE <= offset {
        return Err(Refusal::NothingThere);
    }
    let from = offset as usize;
    if in_table(s, table, from, size) {
        return Ok(Place {
            at: table.at + from,
            len: size,
        });
    }
    Err(Refusal::NothingThere)
}

// Whether the `size` bytes at `from` of a table end with the table and with the file. No sum is made that could wrap: what ends with the
// table is not behind it. (So `get` does not serve: its range would be such a sum.)
pub fn in_table(s: &[u8], table: Place, from: usize, size: usize) -> bool
    ensures { result ≡ in_table s.now table (from + size) }
{
    if table.len < from {
        return false;
    }
    if table.len - from < size {
        return false;
    }
    if s.len() < table.at {
        return false;
    }
    if s.len() - table.at < from + size {
        return false;
    }
    true
}

// The word of the offset table for a typeinfo; 9 where there is no such typeinfo, or its word is not inside the bytes.
#[tactic(auto, unfolding(crate::specs::TypeInfos::offset_word))]
pub fn offset_word(lib: &Numbers, s: &[u8], index: TypeInfoIndex) -> Result<TypeInfoOffset, Refusal>
    ensures { told_offset result ≡ offset_word s.now (library lib.now) index.0 }
{
    let k = index.0;
    if count(lib) as usize <= k {
        return Err(Refusal::NothingThere);
    }
    let word = u32::read_le(s, table_start(lib) as usize + 4 * k).ok_or(Refusal::NothingThere)?;
    Ok(TypeInfoOffset(word))
}
