// Functions.
// (What an emitter takes stands apart: a struct of more than two numbers is handed on by way of memory, which made sheets slower.)
// (`Near` is asked of each: it is a fact between the bytes, the library and the names, which stand apart.)
ghost use Rattle.std.specs.Prelude.{◌≡◌};
ghost use Rattle.records.specs.Answer.{value};
ghost use Rattle.records.specs.Record.{signed32};
ghost use Rattle.records.specs.Told.{told};
ghost use Rattle.typelib.specs.TypeInfos.{func_memid, func_name_offset};
ghost use Rattle.describe.specs.Values.{found};
ghost use Rattle.sheet_trees.specs.Names.{Near};
ghost use Rattle.sheet_members.specs.Words.{function_words};
ghost use Rattle.emit.specs.Emit.{Emits};
ghost use Rattle.sheet_members.specs.Emitted.{FunctionsPut, function_emitted, functions_emitted};
ghost use Rattle.typelib.specs.Header.{library};

use crate::{Listed, parameters, words};
use cursors::iterators;
use cursors::iterators::{FuncCursor, Step};
use member_records::func::FuncRecord;
use records::answer::Refusal;
use records::typeinfo::TypeInfoEntry;
use sheet_trees::names::Names;
use sheet_trees::{names, trees, values};
use typelib::Numbers;

// The functions of a type: how many are yielded, and each. (Not one with `put_variables`: nothing is looked up for a type without functions,
// and each loop has a contract of its own.)
pub fn put_functions(s: &[u8], lib: &Numbers, ti: TypeInfoEntry, out: &mut [u8], to: usize) -> usize
    ensures { Emits (functions_emitted s.now (library lib.now) ti) to out.old result out.new }
{
    match iterators::funcs(&*s, ti) {
        Ok(cursor) => {
            // the count is known once they are emitted
            let t = emit::put_u16(out, to, 0);
            // (where there are none, nothing need be looked up for them)
            if cursor.remaining == 0 {
                return t;
            }
            let listed = put_each(&*s, lib, ti, cursor, out, t);
            emit::overwrite(out, to, listed.count as u64, 2);
            listed.to
        }
        Err(_) => emit::put_u16(out, to, 0),
    }
}

// Each function that the cursor yields. (A refusal ends it at once: nothing is emitted behind one, and
// the count is not theirs. Why the loop over variables is another one is said there.)
// (No `for` over the records: it would go on behind a refusal.)
// (That it has yielded none is asked here and is no fact of its type: a cursor that has stepped has yielded some.)
fn put_each(
    s: &[u8],
    lib: &Numbers,
    ti: TypeInfoEntry,
    cursor: FuncCursor,
    out: &mut [u8],
    to: usize,
) -> Listed
    requires { cursor.yielded ≡ 0 }
    ensures { FunctionsPut s.now (library lib.now) ti cursor to out.old result out.new }
{
    let rows = words::func_rows(&*s, ti);
    let names = names::names_of(&*s, lib);
    let mut t = to;
    let mut c = cursor;
    while t <= emit::PAST {
        let Step::Record(func, number, next) = c.step(&*s) else {
            break;
        };
        let i = number as usize;
        let memid = words::word(&*s, rows.memids, i);
        let name_offset = words::word(&*s, rows.names, i);
        t = put_function(&*s, lib, names, ti, i, memid, name_offset, func, out, t);
        c = next;
    }
    Listed {
        to: t,
        count: c.yielded as usize,
    }
}

// Function `index` of `ti`, with its identifier and the offset of its name.
fn put_function(
    s: &[u8],
    lib: &Numbers,
    names: Names,
    ti: TypeInfoEntry,
    index: usize,
    memid: Result<i32, Refusal>,
    name_offset: Result<i32, Refusal>,
    func: FuncRecord,
    out: &mut [u8],
    to: usize,
) -> usize
    requires near { Near s.now (library lib.now) names }
    requires memid_value { found (told memid) ≡ found (signed32 (func_memid s.now ti index)) }
    requires name_offset_value { found (told name_offset) ≡ found (signed32 (func_name_offset s.now ti index)) }
    ensures { Emits (function_emitted s.now (library lib.now) ti index func) to out.old result out.new }
{
    let t = values::put_opt_memid(memid, out, to);
    let t = values::put_name_by(&*s, lib, names, name_offset, out, t);
    let field = emit::word_at(&*s, func.at, 0x04);
    let t = trees::put_tree(&*s, lib, field, out, t);
    let t = put_words(&*s, func.at, out, t);
    parameters::put_parameters(&*s, lib, names, func, out, t)
}

// The words of the record at `at` from 0x08 on, as two numbers. (So several fields are stored by one move, for speed.)
fn put_words(s: &[u8], at: usize, out: &mut [u8], to: usize) -> usize
    ensures { Emits (value (function_words s.now at)) to out.old result out.new }
{
    let flags = emit::word_at(&*s, at, 0x08) as u64;
    let vtable_offset = emit::half_at(&*s, at, 0x0C) as u64;
    let fkccic = emit::word_at(&*s, at, 0x10) as u64;
    let nrargs = emit::half_at(&*s, at, 0x14) as u64;
    let nroargs = emit::half_at(&*s, at, 0x16) as u64;
    let t = emit::put_le(out, to, flags + 4294967296 * vtable_offset, 6);
    emit::put_le(out, t, fkccic + 4294967296 * (nrargs + 65536 * nroargs), 8)
}
