// Variables.
ghost use Rattle.std.specs.Prelude.{◌≡◌};
ghost use Rattle.sheet_trees.specs.Names.{Near};
ghost use Rattle.sheet_members.specs.Emitted.{value_emitted};
ghost use Rattle.sheet_sizes.specs.Counted.{variable_counted, variables_counted, variables_from};
ghost use Rattle.sheet_sizes.specs.Counts.{Counting, Measured};
ghost use Rattle.typelib.specs.Header.{library};

use crate::{Count, Ends, names, trees};
use cursors::iterators;
use cursors::iterators::{Step, VarCursor};
use member_records::var::VarRecord;
use records::typeinfo::TypeInfoEntry;
use sheet_trees::names::Names;
use typelib::{Numbers, typeinfos};

// The variables of a type: their count, and each.
pub(crate) fn after_variables(s: &[u8], lib: &Numbers, ti: TypeInfoEntry, from: Count) -> Count
    ensures { Counting (variables_counted s.now (library lib.now) ti) from result }
{
    let begun = crate::moved(from, crate::ahead(from.to, 2));
    match iterators::vars(&*s, ti) {
        Ok(cursor) => {
            // (where there are none, nothing need be looked up for them)
            if cursor.remaining == 0 {
                return begun;
            }
            after_each(&*s, lib, ti, cursor, begun)
        }
        Err(_) => begun,
    }
}

// Each variable that the cursor yields. (A refusal ends it at once: it stays.)
fn after_each(s: &[u8], lib: &Numbers, ti: TypeInfoEntry, cursor: VarCursor, from: Count) -> Count
    requires { cursor.yielded ≡ 0 }
    ensures { Counting (variables_from s.now (library lib.now) ti cursor) from result }
{
    let names = sheet_trees::names::names_of(&*s, lib);
    let mut t = from;
    let mut c = cursor;
    while t.to <= emit::PAST {
        let Step::Record(var, number, next) = c.step(&*s) else {
            break;
        };
        t = after_variable(&*s, lib, names, ti, number as usize, var, t);
        c = next;
    }
    t
}

// Variable `index` of `ti`.
fn after_variable(
    s: &[u8],
    lib: &Numbers,
    names: Names,
    ti: TypeInfoEntry,
    index: usize,
    var: VarRecord,
    from: Count,
) -> Count
    requires { Near s.now (library lib.now) names }
    ensures { Counting (variable_counted s.now (library lib.now) ti index var) from result }
{
    let varkind = emit::half_at(s, var.at, 0x0C);
    let word = emit::word_at(s, var.at, 0x10);
    let t = names::after_memid(typeinfos::var_memid(&*s, ti, index), from.to);
    let offset = typeinfos::var_name_offset(&*s, ti, index);
    let t = names::after_name_by(&*s, lib, names, offset, t);
    let field = emit::word_at(s, var.at, 0x04);
    let tree = trees::after_tree(
        &*s,
        lib,
        field,
        Ends {
            to: t,
            references: from.references,
        },
    );
    // the word at 0x08 and the kind
    let t = crate::ahead(tree.to, 6);
    Count {
        to: after_value(&*s, lib, varkind, word, t),
        variables: crate::ahead(from.variables, 1),
        references: tree.references,
        ..from
    }
}

// The word at 0x10: a constant where 0x0C holds 2. (It is measured by its emitter, over an output with no room.)
fn after_value(s: &[u8], lib: &Numbers, varkind: u16, word: u32, to: usize) -> usize
    ensures { Measured (value_emitted s.now (library lib.now) varkind word) to result }
{
    if varkind == 2 {
        let mut none = [0u8; 0];
        sheet_constants::put_opt_constant(&*s, lib, word, &mut none, to)
    } else {
        crate::ahead(to, 4)
    }
}
