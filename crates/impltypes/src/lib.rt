// Implemented types: the chain of reference records of a coclass, its cursor and the full walk
// (`impl_types` of typelib.rs and `ImplTypeIter` of iterators.rs; the walk is added by document 01).

#![tactic(auto)]

ghost use Rattle.std.specs.Prelude.{◌≡◌, ◌+◌, ◌≤◌, length};
ghost use Rattle.records.specs.Told.{told};
ghost use Rattle.typelib.specs.Header.{library};
ghost use Rattle.impltypes.specs.Chain.{impl_types_of, reference_at, onext, impl_type_step, walk_of};
ghost use Rattle.impltypes.specs.Chain.{told_impl_type_step};

use cursors::iterators;
use cursors::iterators::Step;
use records::answer::{Place, Refusal};
use records::field::Record;
use records::refrecord::RefRecord;
use records::typeinfo::TypeInfoEntry;
use typelib::{Numbers, TypeLib, tables};

// (A table is the number of its segment, of which a caller of `tables::segment` may give any.)
const REFERENCE_TABLE: usize = 3;

// The reference table, the offset of the next record in it, the 32-bit pattern of a signed number, and how many records were yielded.
#[derive(Clone, Copy)]
pub struct ImplTypeCursor {
    pub table: Place,
    pub next: u32,
    pub yielded: u64,
}

// The cursor over the types that `ti` implements, at the first.
pub fn impl_types(lib: TypeLib, s: &[u8], ti: TypeInfoEntry) -> Result<ImplTypeCursor, Refusal>
    ensures { told result ≡ impl_types_of s.now lib ti }
{
    impl_types_at(&lib.numbers, s, ti)
}

// The same, the library's numbers lent: it serves the sheet.
// (They and the bytes go in apart: a struct of them goes by way of memory, which made sheets slower.)
pub fn impl_types_at(lib: &Numbers, s: &[u8], ti: TypeInfoEntry) -> Result<ImplTypeCursor, Refusal>
    ensures { told result ≡ impl_types_of s.now (library lib.now) ti }
{
    let next = ti.field(s, 0x54)?;
    Ok(ImplTypeCursor {
        table: tables::table(lib, REFERENCE_TABLE),
        next,
        yielded: 0,
    })
}

impl ImplTypeCursor {
    // The record at the cursor, and the cursor at the offset that the record names. (A refusal goes out with its cursor, so that `?` cannot
    // hand it on. A record is made of a place field by field: a conversion for each of the types of records has more lines than it saves.)
    #[tactic(auto, unfolding(typelib::specs::Tables::lent, crate::specs::Chain::impl_type_next))]
    pub fn step(self, s: &[u8]) -> Step<RefRecord, ImplTypeCursor>
        ensures { told_impl_type_step result ≡ impl_type_step s.now self }
    {
        if let Err(refusal) = iterators::is_lent(s) {
            return Step::Refused(refusal, self);
        }
        match reference_at(s, self.table, self.next) {
            Ok(place) => Step::Record(
                RefRecord {
                    at: place.at,
                    len: place.len,
                },
                self.yielded,
                ImplTypeCursor {
                    next: next_offset(s, place.at),
                    yielded: iterators::number_behind(self.yielded),
                    ..self
                },
            ),
            Err(refusal) => Step::Refused(refusal, self),
        }
    }

    // How many records the chain has; Circle where it returns to an offset already passed. There is room
    // for no more than length - 15 records at different offsets, so one more has come round.
    #[tactic(auto, unfolding(typelib::specs::Tables::lent, crate::specs::Chain::walk_from))]
    pub fn walk(self, s: &[u8]) -> Result<usize, Refusal>
        ensures { told result ≡ walk_of s.now self }
    {
        iterators::is_lent(s)?;
        let mut offset = self.next;
        for n in 0..=s.len().saturating_sub(15) {
            let Ok(place) = reference_at(s, self.table, offset) else {
                return Ok(n);
            };
            offset = next_offset(s, place.at);
        }
        Err(Refusal::Circle)
    }
}

// Where the record at an offset of the table lies. (The table is a place, which does not hold the bytes: C keeps it in the cursor as numbers.)
fn reference_at(s: &[u8], table: Place, offset: u32) -> Result<Place, Refusal>
    ensures { told result ≡ reference_at s.now table offset }
{
    tables::place_in(s, table, offset, RefRecord::SIZE)
}

// The offset that the record at `at` names. (What it asks for is a fact between the bytes and a number, which no type of either holds.)
fn next_offset(s: &[u8], at: usize) -> u32
    requires { at + 16 ≤ length s.now }
    ensures { result ≡ onext s.now at }
{
    util::or_zero::<u32>(s, at + 0x0C)
}
