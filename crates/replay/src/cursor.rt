// Cursors from their start to their end and one step further, and the walk along a chain. (The answers are lent to be changed, the library
// and the item to be read, so they stand apart.)
use crate::answers::Answers;
use crate::asked::Cursor as Reading;
use crate::entry::Item;
use crate::steps::{Cursor, State, step};
use cursors::iterators;
use member_records::func::FuncRecord;
use records::answer::{Place, Refusal};
use records::typeinfo::TypeInfoEntry;
use table_cursors::iterators as over_tables;
use typelib::TypeLib;

// A question's first numbers are the place and the length of the record that the cursor is made from, if it is made
// from one. The third says how far below 0 the cursor's count is set before its first step, if that is not 0.
// (An arm for each: each cursor is a type of its own, and is set up in another way.)
pub(crate) fn replay(answers: &mut Answers, lib: TypeLib, reading: Reading, item: &Item) {
    let lent = answers.lent;
    let at = item.first as usize;
    let len = item.second as usize;
    let below = item.third;
    let record = TypeInfoEntry { at, len };
    match reading {
        Reading::Typeinfos => run(answers, lib, below, over_tables::typeinfos(lent)),
        Reading::Funcs => run(answers, lib, below, iterators::funcs(lent, record)),
        Reading::Vars => run(answers, lib, below, iterators::vars(lent, record)),
        Reading::Params => {
            let start = iterators::params(lent, FuncRecord { at, len });
            run(answers, lib, below, start);
        }
        Reading::Guids => run(answers, lib, below, over_tables::guids(lib, lent)),
        Reading::Names => run(answers, lib, below, over_tables::names(lib, lent)),
        Reading::Imports => run(answers, lib, below, over_tables::imports(lib, lent)),
        Reading::ImpFiles => run(answers, lib, below, over_tables::imp_files(lib, lent)),
        Reading::ImplTypes => run(
            answers,
            lib,
            below,
            impltypes::impl_types(lib, lent, record),
        ),
        Reading::Walk => answers.same(walk(lent, lib, record, below)),
    }
}

fn walk(lent: &[u8], lib: TypeLib, record: TypeInfoEntry, below: u32) -> Result<usize, Refusal> {
    let mut cursor = impltypes::impl_types(lib, lent, record)?;
    cursor.yielded = count_below(cursor.yielded, below);
    cursor.walk(lent)
}

// The count of a cursor that was made with this one, if it is set so far below 0, in 64 bits; by 0 it is not set.
fn count_below(made: u64, below: u32) -> u64 {
    if below == 0 {
        made
    } else {
        u64::from(below).wrapping_neg()
    }
}

fn run<C: Cursor>(answers: &mut Answers, lib: TypeLib, below: u32, start: Result<C, Refusal>) {
    match start {
        Ok(cursor) => {
            let mut state = cursor.state();
            state.count = count_below(state.count, below);
            run_from::<C>(answers, lib, state);
        }
        Err(refusal) => answers.same::<Place>(Err(refusal)),
    }
}

// Steps a cursor as long as answers are recorded. (Each has at least a byte, so there are no more
// steps than recorded bytes.)
fn run_from<C: Cursor>(answers: &mut Answers, lib: TypeLib, from: State) {
    let mut state = from;
    for _ in 0..answers.recorded.len() {
        if answers.recorded.is_empty() {
            return;
        }
        state = step::<C>(answers, lib, state);
    }
}
