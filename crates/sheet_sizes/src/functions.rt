// Functions.
ghost use Rattle.std.specs.Prelude.{◌≡◌};
ghost use Rattle.records.specs.Told.{told};
ghost use Rattle.sheet_trees.specs.Names.{Near};
ghost use Rattle.sheet_sizes.specs.Counted.{functions_counted, functions_from};
ghost use Rattle.sheet_sizes.specs.Counts.{Counting};
ghost use Rattle.sheet_sizes.specs.Functions.{FunctionCounted};
ghost use Rattle.typelib.specs.Header.{library};

use crate::{Count, Ends, names, parameters, trees};
use cursors::iterators;
use cursors::iterators::{FuncCursor, Step};
use member_records::func::FuncRecord;
use records::answer::Refusal;
use records::typeinfo::TypeInfoEntry;
use sheet_members::words;
use sheet_trees::names::Names;
use typelib::Numbers;

// The functions of a type: their count, and each. (Not one with `variables`: a trait for the two cursors would take the whole of a step
// and what is looked up once for all, which differ, and be no plainer.)
pub(crate) fn after_functions(s: &[u8], lib: &Numbers, ti: TypeInfoEntry, from: Count) -> Count
    ensures { Counting (functions_counted s.now (library lib.now) ti) from result }
{
    let begun = crate::moved(from, crate::ahead(from.to, 2));
    match iterators::funcs(&*s, ti) {
        Ok(cursor) => {
            // (where there are none, nothing need be looked up for them)
            if cursor.remaining == 0 {
                return begun;
            }
            after_each(&*s, lib, ti, cursor, begun)
        }
        Err(_) => begun,
    }
}

// Each function that the cursor yields. (A refusal ends it at once: it stays.)
fn after_each(s: &[u8], lib: &Numbers, ti: TypeInfoEntry, cursor: FuncCursor, from: Count) -> Count
    requires { cursor.yielded ≡ 0 }
    ensures { Counting (functions_from s.now (library lib.now) ti cursor) from result }
{
    let rows = words::func_rows(&*s, ti);
    let names = sheet_trees::names::names_of(&*s, lib);
    let mut t = from;
    let mut c = cursor;
    while t.to <= emit::PAST {
        let Step::Record(func, number, next) = c.step(&*s) else {
            break;
        };
        let i = number as usize;
        let memid = words::word(&*s, rows.memids, i);
        let name_offset = words::word(&*s, rows.names, i);
        t = after_function(&*s, lib, names, memid, name_offset, func, t);
        c = next;
    }
    t
}

// A function, with its identifier and the offset of its name: of any type, at any index, that have these two.
fn after_function(
    s: &[u8],
    lib: &Numbers,
    names: Names,
    memid: Result<i32, Refusal>,
    name_offset: Result<i32, Refusal>,
    func: FuncRecord,
    from: Count,
) -> Count
    requires { Near s.now (library lib.now) names }
    ensures { FunctionCounted s.now (library lib.now) (told memid) (told name_offset) func from result }
{
    let t = names::after_memid(memid, from.to);
    let t = names::after_name_by(&*s, lib, names, name_offset, t);
    let field = emit::word_at(s, func.at, 0x04);
    let result = trees::after_tree(
        &*s,
        lib,
        field,
        Ends {
            to: t,
            references: from.references,
        },
    );
    // the words of the record from 0x08 on
    let c = Count {
        to: crate::ahead(result.to, 14),
        functions: crate::ahead(from.functions, 1),
        references: result.references,
        ..from
    };
    parameters::after_parameters(&*s, lib, names, func, c)
}
