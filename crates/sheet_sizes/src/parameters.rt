// Parameters.
ghost use Rattle.records.specs.Told.{told};
ghost use Rattle.sheet_members.specs.Emitted.{constant_by_emitted};
ghost use Rattle.sheet_members.specs.Room.{Room};
ghost use Rattle.sheet_trees.specs.Names.{Near};
ghost use Rattle.sheet_sizes.specs.Counted.{parameter_counted, parameters_counted, parameters_from};
ghost use Rattle.sheet_sizes.specs.Counts.{Counting, Ending, Measured};
ghost use Rattle.typelib.specs.Header.{library};

use crate::{Count, Ends, names, trees};
use cursors::iterators;
use cursors::iterators::ParamCursor;
use member_records::func::FuncRecord;
use records::answer::Refusal;
use sheet_trees::names::Names;
use typelib::Numbers;

// The parameters of a function: their count, and each. (The cursor yields as many as it has remaining.)
pub(crate) fn after_parameters(
    s: &[u8],
    lib: &Numbers,
    names: Names,
    func: FuncRecord,
    from: Count,
) -> Count
    requires { Near s.now (library lib.now) names }
    ensures { Counting (parameters_counted s.now (library lib.now) func) from result }
{
    let t = crate::ahead(from.to, 2);
    match iterators::params(&*s, func) {
        Ok(cursor) => {
            let each = after_each(
                &*s,
                lib,
                names,
                func,
                cursor,
                Ends {
                    to: t,
                    references: from.references,
                },
            );
            Count {
                to: each.to,
                functions: from.functions,
                parameters: crate::ahead(from.parameters, cursor.remaining),
                variables: from.variables,
                references: each.references,
            }
        }
        Err(_) => crate::moved(from, t),
    }
}

// Each parameter that the cursor yields, but for how many they are. They lie in the function's record, so it is not asked for each of
// them.
fn after_each(
    s: &[u8],
    lib: &Numbers,
    names: Names,
    func: FuncRecord,
    cursor: ParamCursor,
    from: Ends,
) -> Ends
    requires near { Near s.now (library lib.now) names }
    requires room { Room s.now cursor }
    ensures { Ending (parameters_from s.now (library lib.now) func cursor) from result }
{
    let mut t = from;
    for i in 0..cursor.remaining {
        t = after_parameter(&*s, lib, names, func, i, cursor.pos + 12 * i, t);
    }
    t
}

// Parameter `index` of `func`, at `at`. It has a default value where its flags have 0x20.
// (The flag is tested as its definition `flag_set` tests it, and as the emitter does.)
fn after_parameter(
    s: &[u8],
    lib: &Numbers,
    names: Names,
    func: FuncRecord,
    index: usize,
    at: usize,
    from: Ends,
) -> Ends
    requires { Near s.now (library lib.now) names }
    ensures { Ending (parameter_counted s.now (library lib.now) func index at) from result }
{
    let flags = emit::word_at(s, at, 0x08);
    let field = emit::word_at(s, at, 0x00);
    let tree = trees::after_tree(&*s, lib, field, from);
    let t = names::after_name(&*s, lib, names, emit::word_at(s, at, 0x04), tree.to);
    let to = if flags / 0x20 % 2 == 1 {
        let offset = func.default_value_offset(&*s, index);
        after_default(&*s, lib, offset, crate::ahead(t, 4))
    } else {
        // the flags, and one byte for a missing default
        crate::ahead(t, 5)
    };
    Ends {
        to,
        references: tree.references,
    }
}

// A default value, by the emitter over an output with no room: few parameters have one.
fn after_default(s: &[u8], lib: &Numbers, offset: Result<i32, Refusal>, to: usize) -> usize
    ensures { Measured (constant_by_emitted s.now (library lib.now) (told offset)) to result }
{
    let mut none = [0u8; 0];
    sheet_members::parameters::put_constant_by(&*s, lib, offset, &mut none, to)
}
