// A type of a sheet: its head and names, what it is based on, and its members.
// (What an emitter takes stands apart: a struct of more than two numbers is handed on by way of memory, which made sheets slower.)

#![tactic(auto)]

ghost use Rattle.records.specs.Answer.{value};
ghost use Rattle.sheet_bases.specs.Types.{head_bytes, names_bytes, type_at_emitted, type_emitted};
ghost use Rattle.emit.specs.Emit.{Emits};
ghost use Rattle.typelib.specs.Header.{library};

use records::typeinfo::TypeInfoEntry;
use sheet_members::{functions, variables};
use sheet_trees::values;
use typelib::{Numbers, TypeInfoIndex, typeinfos};

// Type `index` of the library; 6, 7 or 8 where there is none.
// (`put_chain` of `sheet_bases` has this form alone: what is read and what is emitted are others, and closures for both would be longer.)
pub fn put_type_of(
    s: &[u8],
    lib: &Numbers,
    index: TypeInfoIndex,
    out: &mut [u8],
    to: usize,
) -> usize
    ensures { Emits (type_emitted s.now (library lib.now) index.0) to out.old result out.new }
{
    match typeinfos::typeinfo_at(lib, &*s, index) {
        Ok(ti) => put_type(&*s, lib, ti, out, to),
        Err(refusal) => emit::put_refusal(to, refusal.number()),
    }
}

fn put_type(s: &[u8], lib: &Numbers, ti: TypeInfoEntry, out: &mut [u8], to: usize) -> usize
    ensures { Emits (type_at_emitted s.now (library lib.now) ti) to out.old result out.new }
{
    let kind = util::bits(emit::word_at(&*s, ti.at, 0x00), 0, 4);
    let t = put_head(&*s, ti.at, kind, out, to);
    let t = put_names(&*s, lib, ti.at, out, t);
    let t = sheet_bases::put_base(&*s, lib, ti, kind, out, t);
    let t = functions::put_functions(&*s, lib, ti, out, t);
    variables::put_variables(&*s, lib, ti, out, t)
}

// The kind, the flags and the version. (The kind is any number of the file, and is emitted as it is.)
fn put_head(s: &[u8], at: usize, kind: u32, out: &mut [u8], to: usize) -> usize
    ensures { Emits (value (head_bytes s.now at kind)) to out.old result out.new }
{
    let t = emit::put_le(out, to, kind as u64, 1);
    let t = emit::copy_u32(&*s, at, 0x30, out, t);
    emit::copy_u32(&*s, at, 0x38, out, t)
}

// The GUID, the name, and how many functions and variables are declared.
fn put_names(s: &[u8], lib: &Numbers, at: usize, out: &mut [u8], to: usize) -> usize
    ensures { Emits (value (names_bytes s.now (library lib.now) at)) to out.old result out.new }
{
    let declared = emit::word_at(&*s, at, 0x18);
    let t = values::put_opt_guid(&*s, lib, emit::word_at(&*s, at, 0x2C), out, to);
    let t = values::put_opt_name(&*s, lib, emit::word_at(&*s, at, 0x34), out, t);
    let t = emit::put_le(out, t, util::bits(declared, 0, 16) as u64, 2);
    emit::put_le(out, t, util::bits(declared, 16, 16) as u64, 2)
}
