// Names, for a traversal that reads many of them: where their table lies is looked up once.
ghost use Rattle.std.specs.Prelude.{◌≡◌};
ghost use Rattle.records.specs.Told.{told};
ghost use Rattle.sheet_trees.specs.Names.{Near, name_in};
ghost use Rattle.sheet_trees.specs.Emitted.{NearName};
ghost use Rattle.typelib.specs.Header.{library};

use records::answer::{Place, Refusal};
use records::field::LIMIT;
use typelib::names::NAME_TABLE;
use typelib::{Numbers, tables};

// The bytes of the longest name and its intro.
const LONGEST: usize = 12 + 255;

// Where the table of names starts, and how many of its offsets are near: a name there is wholly inside the table, whatever its
// length. In a table that passes the file's end no offset is near.
// (No invariant of the type says so: which offsets are near is a matter of the bytes and of the library, which stand beside it. None is near
// where `near` is 0, as a count of them: an `Option` would be a second test.)
#[derive(Clone, Copy)]
pub struct Names {
    pub at: u32,
    pub near: u32,
}

pub fn names_of(s: &[u8], lib: &Numbers) -> Names
    ensures { Near s.now (library lib.now) result }
{
    let table = tables::table(lib, NAME_TABLE);
    if s.len() <= LIMIT && LONGEST <= table.len && table.at + table.len <= s.len() {
        return Names {
            at: table.at as u32,
            near: (table.len - LONGEST + 1) as u32,
        };
    }
    Names { at: 0, near: 0 }
}

// The name at an offset: the library's, if `names` are its own. Nothing else is asked of one that is near.
pub fn name_at(s: &[u8], lib: &Numbers, names: Names, offset: u32) -> Result<Place, Refusal>
    ensures result_value { told result ≡ name_in s.now (library lib.now) names offset }
    ensures near_name { NearName s.now (library lib.now) names offset (told result) }
{
    if offset < names.near {
        let at = names.at as usize + offset as usize;
        let len = util::or_zero::<u8>(&*s, at + 8) as usize;
        return Ok(Place { at: at + 12, len });
    }
    typelib::names::name_at(lib, &*s, offset)
}
