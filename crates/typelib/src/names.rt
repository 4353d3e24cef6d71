// Names, strings and GUIDs, by their offset in a table.
//
// A public reading takes the offset as the signed number that a record holds; the `_at` functions
// take its 32-bit pattern, and the library's numbers lent: they serve this crate and those above it. (So a public reading is one call.)
ghost use Rattle.std.specs.Prelude.{◌≡◌, ◌<◌};
ghost use Rattle.std.specs.Int.{w32};
ghost use Rattle.std.proofs.Common.{of_z};
ghost use Rattle.records.specs.Told.{told, told_guid};
ghost use Rattle.typelib.specs.Header.{library};
ghost use Rattle.typelib.specs.Names.{place_behind, name_bytes, name_text, string_bytes, string_text, guid_place, segment_bytes, lib_name, lib_guid, lib_helpstring};

use crate::{Numbers, TypeLib, tables};
use records::answer;
use records::answer::{Place, Refusal};
use records::field::LIMIT;
use records::guid::Guid;

// (A table is the number of its segment: see `tables::segment`.)
pub const NAME_TABLE: usize = 7;

const STRING_TABLE: usize = 8;

const GUID_TABLE: usize = 5;

impl TypeLib {
    // A name's bytes, in the code page the library was built in.
    pub fn name_bytes(self, s: &[u8], offset: i32) -> Result<Place, Refusal>
        ensures { told result ≡ name_bytes s.now self (of_z w32 offset) }
    {
        name_at(&self.numbers, s, offset.cast_unsigned())
    }

    // A name, where it is UTF-8.
    pub fn name(self, s: &[u8], offset: i32) -> Result<Place, Refusal>
        ensures { told result ≡ name_text s.now self (of_z w32 offset) }
    {
        answer::text(s, name_at(&self.numbers, s, offset.cast_unsigned()))
    }

    // A string of the string table, where it is UTF-8.
    pub fn string(self, s: &[u8], offset: i32) -> Result<Place, Refusal>
        ensures { told result ≡ string_text s.now self (of_z w32 offset) }
    {
        answer::text(s, string_at(&self.numbers, s, offset.cast_unsigned()))
    }

    // The GUID at an offset of its table.
    pub fn guid(self, s: &[u8], offset: i32) -> Result<Guid, Refusal>
        ensures { told_guid result ≡ guid_place s.now self (of_z w32 offset) }
    {
        let place = guid_at(&self.numbers, s, offset.cast_unsigned())?;
        // (field by field: a conversion for each of the types of records has more lines than it saves)
        Ok(Guid {
            at: place.at,
            len: place.len,
        })
    }

    // The bytes of a segment; 9 where it is missing or passes the file's end.
    #[tactic(auto, unfolding(crate::specs::Tables::lent))]
    pub fn segment_data(self, s: &[u8], index: usize) -> Result<Place, Refusal>
        ensures { told result ≡ segment_bytes s.now self index }
    {
        if LIMIT < s.len() {
            return Err(Refusal::OverLong);
        }
        let place = self.segment(index)?;
        records::field::record_place(s, place, 0)
    }

    // (Two readings of the source, each one call.)
    pub fn guid_hash_data(self, s: &[u8]) -> Result<Place, Refusal>
        ensures { told result ≡ segment_bytes s.now self 4 }
    {
        self.segment_data(s, 4)
    }

    pub fn name_hash_data(self, s: &[u8]) -> Result<Place, Refusal>
        ensures { told result ≡ segment_bytes s.now self 6 }
    {
        self.segment_data(s, 6)
    }

    // The library's own name, where it is UTF-8.
    // (Three readings of the source; each is one call behind its field.)
    pub fn lib_name(self, s: &[u8]) -> Result<Place, Refusal>
        ensures { told result ≡ lib_name s.now self }
    {
        self.name(s, self.name_offset(s)?)
    }

    // The library's own GUID.
    pub fn lib_guid(self, s: &[u8]) -> Result<Guid, Refusal>
        ensures { told_guid result ≡ lib_guid s.now self }
    {
        self.guid(s, self.lib_guid_offset(s)?)
    }

    // The library's help string, where it is UTF-8.
    pub fn lib_helpstring(self, s: &[u8]) -> Result<Place, Refusal>
        ensures { told result ≡ lib_helpstring s.now self }
    {
        self.string(s, self.helpstring_offset(s)?)
    }
}

// (Three tables whose entries begin in three ways: what `name_at`, `string_at` and `guid_at` share is `table_place`.)
pub fn name_at(lib: &Numbers, s: &[u8], offset: u32) -> Result<Place, Refusal>
    ensures { told result ≡ name_bytes s.now (library lib.now) offset }
{
    let intro = tables::table_place(lib, s, NAME_TABLE, offset, 12)?;
    let len = util::or_zero::<u8>(s, intro.at + 8) as usize;
    place_behind(lib, s, NAME_TABLE, offset, 12, len)
}

fn string_at(lib: &Numbers, s: &[u8], offset: u32) -> Result<Place, Refusal>
    ensures { told result ≡ string_bytes s.now (library lib.now) offset }
{
    let place = tables::table_place(lib, s, STRING_TABLE, offset, 2)?;
    let len = util::or_zero::<u16>(s, place.at) as usize;
    place_behind(lib, s, STRING_TABLE, offset, 2, len)
}

// Where the `len` bytes behind the first `head` at an offset of a table lie. (`len` is how many are asked for, and not the length of `s`.)
fn place_behind(
    lib: &Numbers,
    s: &[u8],
    table: usize,
    offset: u32,
    head: usize,
    len: usize,
) -> Result<Place, Refusal>
    requires { (head < 65536) × (len < 65536) }
    ensures { told result ≡ place_behind s.now (library lib.now) table offset head len }
{
    let entry = tables::table_place(lib, s, table, offset, head + len)?;
    Ok(Place {
        at: entry.at + head,
        len,
    })
}

pub fn guid_at(lib: &Numbers, s: &[u8], offset: u32) -> Result<Place, Refusal>
    ensures { told result ≡ guid_place s.now (library lib.now) offset }
{
    tables::table_place(lib, s, GUID_TABLE, offset, 16)
}
