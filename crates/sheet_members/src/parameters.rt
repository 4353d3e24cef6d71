// Parameters.
// (What an emitter takes stands apart: a struct of more than two numbers is handed on by way of memory, which made sheets slower.)
// (`Near` is asked of each: it is a fact between the bytes, the library and the names, which stand apart.)
ghost use Rattle.records.specs.Told.{told_as};
ghost use Rattle.sheet_trees.specs.Names.{Near};
ghost use Rattle.sheet_members.specs.Room.{Room};
ghost use Rattle.emit.specs.Emit.{Emits};
ghost use Rattle.sheet_members.specs.Emitted.{constant_by_emitted, parameter_emitted, parameters_emitted, parameters_from};
ghost use Rattle.typelib.specs.Header.{library};

use cursors::iterators;
use cursors::iterators::ParamCursor;
use member_records::func::FuncRecord;
use records::answer::Refuses;
use sheet_trees::names::Names;
use sheet_trees::{trees, values};
use typelib::Numbers;

// The parameters of a function: how many are yielded, and each.
pub(crate) fn put_parameters(
    s: &[u8],
    lib: &Numbers,
    names: Names,
    func: FuncRecord,
    out: &mut [u8],
    to: usize,
) -> usize
    requires { Near s.now (library lib.now) names }
    ensures { Emits (parameters_emitted s.now (library lib.now) func) to out.old result out.new }
{
    match iterators::params(&*s, func) {
        Ok(cursor) => {
            let t = emit::put_le(out, to, cursor.remaining as u64, 2);
            put_each(&*s, lib, names, func, cursor, out, t)
        }
        Err(_) => emit::put_u16(out, to, 0),
    }
}

// Each parameter that the cursor yields. They lie in the function's record, so it is not asked for each of them.
fn put_each(
    s: &[u8],
    lib: &Numbers,
    names: Names,
    func: FuncRecord,
    cursor: ParamCursor,
    out: &mut [u8],
    to: usize,
) -> usize
    requires near { Near s.now (library lib.now) names }
    requires room { Room s.now cursor }
    ensures { Emits (parameters_from s.now (library lib.now) func cursor) to out.old result out.new }
{
    let mut t = to;
    for i in 0..cursor.remaining {
        t = put_parameter(&*s, lib, names, func, i, cursor.pos + 12 * i, out, t);
    }
    t
}

// Parameter `index` of `func`, at `at`. It has a default value where its flags have 0x20.
// (The flag is tested as its definition `flag_set` tests it: `util::bits(flags, 5, 1) == 1` is no plainer.)
fn put_parameter(
    s: &[u8],
    lib: &Numbers,
    names: Names,
    func: FuncRecord,
    index: usize,
    at: usize,
    out: &mut [u8],
    to: usize,
) -> usize
    requires { Near s.now (library lib.now) names }
    ensures { Emits (parameter_emitted s.now (library lib.now) func index at) to out.old result out.new }
{
    let flags = emit::word_at(&*s, at, 0x08);
    let field = emit::word_at(&*s, at, 0x00);
    let t = trees::put_tree(&*s, lib, field, out, to);
    let t = values::put_name_in(&*s, lib, names, emit::word_at(&*s, at, 0x04), out, t);
    if flags / 0x20 % 2 == 1 {
        let t = emit::put_u32(out, t, flags);
        put_constant_by(&*s, lib, func.default_value_offset(&*s, index), out, t)
    } else {
        // the flags and the byte 0 of a missing default are one number
        emit::put_le(out, t, flags as u64, 5)
    }
}

// The constant that an offset names: missing where the offset is. (Not one with the emitters of names: they share the test for a missing
// offset alone, and would take the rest as a closure with its contract.)
pub fn put_constant_by<E: Refuses>(
    s: &[u8],
    lib: &Numbers,
    offset: Result<i32, E>,
    out: &mut [u8],
    to: usize,
) -> usize
    ensures { Emits (constant_by_emitted s.now (library lib.now) (told_as E.number offset)) to out.old result out.new }
{
    let Ok(x) = offset else {
        return emit::put_u8(out, to, 0);
    };
    sheet_constants::put_opt_constant(&*s, lib, x.cast_unsigned(), out, to)
}
