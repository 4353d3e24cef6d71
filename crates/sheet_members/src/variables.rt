// Variables.
// (What an emitter takes stands apart: a struct of more than two numbers is handed on by way of memory, which made sheets slower.)
ghost use Rattle.std.specs.Prelude.{◌≡◌};
ghost use Rattle.records.specs.Told.{told};
ghost use Rattle.emit.specs.Emit.{Emits};
ghost use Rattle.sheet_members.specs.Emitted.{VariablesPut, value_emitted, variable_emitted, variables_emitted};
ghost use Rattle.sheet_trees.specs.Emitted.{name_by_emitted};
ghost use Rattle.typelib.specs.Header.{library};

use crate::Listed;
use cursors::iterators;
use cursors::iterators::{Step, VarCursor};
use member_records::var::VarRecord;
use records::answer::Refusal;
use records::typeinfo::TypeInfoEntry;
use sheet_trees::{trees, values};
use typelib::{Numbers, typeinfos};

// The variables of a type: how many are yielded, and each.
pub fn put_variables(s: &[u8], lib: &Numbers, ti: TypeInfoEntry, out: &mut [u8], to: usize) -> usize
    ensures { Emits (variables_emitted s.now (library lib.now) ti) to out.old result out.new }
{
    match iterators::vars(&*s, ti) {
        Ok(cursor) => {
            // the count is known once they are emitted
            let t = emit::put_u16(out, to, 0);
            let listed = put_each(&*s, lib, ti, cursor, out, t);
            emit::overwrite(out, to, listed.count as u64, 2);
            listed.to
        }
        Err(_) => emit::put_u16(out, to, 0),
    }
}

// Each variable that the cursor yields. (A refusal ends it at once: nothing is emitted behind one, and
// the count is not theirs. The loop over functions is not this one made general: what is shared is short,
// and would take the step and the emitter as closures, each with its contract.)
// (No `for` over the records: it would go on behind a refusal.)
// (That it has yielded none is asked here and is no fact of its type: a cursor that has stepped has yielded some.)
fn put_each(
    s: &[u8],
    lib: &Numbers,
    ti: TypeInfoEntry,
    cursor: VarCursor,
    out: &mut [u8],
    to: usize,
) -> Listed
    requires { cursor.yielded ≡ 0 }
    ensures { VariablesPut s.now (library lib.now) ti cursor to out.old result out.new }
{
    let mut t = to;
    let mut c = cursor;
    while t <= emit::PAST {
        let Step::Record(var, number, next) = c.step(&*s) else {
            break;
        };
        t = put_variable(&*s, lib, ti, number as usize, var, out, t);
        c = next;
    }
    Listed {
        to: t,
        count: c.yielded as usize,
    }
}

// Variable `index` of `ti`.
fn put_variable(
    s: &[u8],
    lib: &Numbers,
    ti: TypeInfoEntry,
    index: usize,
    var: VarRecord,
    out: &mut [u8],
    to: usize,
) -> usize
    ensures { Emits (variable_emitted s.now (library lib.now) ti index var) to out.old result out.new }
{
    let varkind = emit::half_at(&*s, var.at, 0x0C);
    let t = values::put_opt_memid(typeinfos::var_memid(&*s, ti, index), out, to);
    let t = put_name(&*s, lib, typeinfos::var_name_offset(&*s, ti, index), out, t);
    let field = emit::word_at(&*s, var.at, 0x04);
    let t = trees::put_tree(&*s, lib, field, out, t);
    let t = emit::copy_u32(&*s, var.at, 0x08, out, t);
    let t = emit::put_u16(out, t, varkind);
    put_value(&*s, lib, varkind, emit::word_at(&*s, var.at, 0x10), out, t)
}

// A variable's name: missing where its offset is. (Variables are few, so that no names are looked up for them. They are looked up for
// functions, whose emitter of names has no other caller, and so is put into them by the compiler.)
fn put_name(
    s: &[u8],
    lib: &Numbers,
    offset: Result<i32, Refusal>,
    out: &mut [u8],
    to: usize,
) -> usize
    ensures { Emits (name_by_emitted s.now (library lib.now) (told offset)) to out.old result out.new }
{
    let Ok(x) = offset else {
        return emit::put_u8(out, to, 0);
    };
    values::put_opt_name(&*s, lib, x.cast_unsigned(), out, to)
}

// The word at 0x10: a constant where 0x0C holds 2. (The kind is the number that the variable emits, whatever it is.)
fn put_value(s: &[u8], lib: &Numbers, varkind: u16, word: u32, out: &mut [u8], to: usize) -> usize
    ensures { Emits (value_emitted s.now (library lib.now) varkind word) to out.old result out.new }
{
    if varkind == 2 {
        sheet_constants::put_opt_constant(&*s, lib, word, out, to)
    } else {
        emit::put_u32(out, to, word)
    }
}
