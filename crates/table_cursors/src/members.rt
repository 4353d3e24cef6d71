// The names of a typeinfo's members, looked up in the name table.
// (A step is no `Result`, since its cursor comes back either way: so its refusal is handed on by an arm, and not by `?`.)
ghost use Rattle.std.specs.Prelude.{◌≡◌, length};
ghost use Rattle.records.specs.Told.{told};
ghost use Rattle.table_cursors.specs.Members.{matching, behind, member_name};
ghost use Rattle.table_cursors.specs.Told.{told_name_step};

use crate::iterators;
use crate::iterators::NameCursor;
use cursors::iterators::Step;
use records::answer::{Place, Refusal};
use records::name::NameEntry;
use typelib::{TypeInfoIndex, TypeInfoOffset, TypeLib, tables};

// Name `k`, from 0, of the entries of a typeinfo, its own name left out. (The source builds the
// list of them.)
pub fn member_name(lib: TypeLib, s: &[u8], index: TypeInfoIndex, k: usize) -> Result<Place, Refusal>
    ensures { told result ≡ member_name s.now lib index.0 k }
{
    cursors::iterators::is_lent(s)?;
    let own = tables::offset_word(&lib.numbers, s, index)?;
    match next_match(s, own, iterators::names_in(&lib.numbers)) {
        Step::Record(_, _, c) => match_behind(s, own, k, next_match(s, own, c)),
        Step::Refused(refusal, _) => Err(refusal),
    }
}

// The first entry from the cursor on whose hreftype is that offset.
fn next_match(s: &[u8], own: TypeInfoOffset, from: NameCursor) -> Step<NameEntry, NameCursor>
    ensures { told_name_step result ≡ matching (length s.now) s.now own.0 from }
{
    let mut c = from;
    for _ in 0..s.len() {
        match c.step(s) {
            Step::Record(entry, number, next) => {
                if entry.hreftype.cast_unsigned() == own.0 {
                    return Step::Record(entry, number, next);
                }
                c = next;
            }
            Step::Refused(refusal, same) => return Step::Refused(refusal, same),
        }
    }
    Step::Refused(Refusal::NothingThere, c)
}

// The text of match `k` behind the one that was found.
fn match_behind(
    s: &[u8],
    own: TypeInfoOffset,
    k: usize,
    first: Step<NameEntry, NameCursor>,
) -> Result<Place, Refusal>
    ensures { told result ≡ behind k s.now own.0 (told_name_step first) }
{
    let mut found = first;
    for _ in 0..k {
        match found {
            Step::Record(_, _, c) => found = next_match(s, own, c),
            Step::Refused(refusal, _) => return Err(refusal),
        }
    }
    match found {
        Step::Record(entry, _, _) => Ok(entry.text),
        Step::Refused(refusal, _) => Err(refusal),
    }
}
