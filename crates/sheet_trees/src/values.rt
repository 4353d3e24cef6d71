// Numbers, names and GUIDs that may be missing: byte 0 for nothing, or byte 1 and the value.
// (They differ in how the value is read and in how it is put: one function of all would take both as closures, and be no plainer.)
ghost use Rattle.records.specs.Told.{told_as};
ghost use Rattle.emit.specs.Emit.{counted_part, Emits};
ghost use Rattle.sheet_trees.specs.Emitted.{NearNameByPut, NearNamePut, guid_emitted, memid_emitted, name_emitted, name_in_by_emitted, name_in_emitted};
ghost use Rattle.typelib.specs.Header.{library};

use crate::names;
use crate::names::Names;
use records::answer;
use records::answer::{Place, Refusal, Refuses};
use typelib::Numbers;

// The bytes at a place, behind the byte 1 and their count in one byte.
fn put_counted(s: &[u8], place: Place, out: &mut [u8], to: usize) -> usize
    ensures { Emits (counted_part s.now place) to out.old result out.new }
{
    // (0 where it did nothing: an `Option` is replied by way of memory.)
    let end = emit::put_short_counted(&*s, place, out, to);
    if end != 0 {
        return end;
    }
    let bytes = answer::part(&*s, Ok::<_, Refusal>(place));
    let t = emit::put_le(out, to, 1 + 256 * (bytes.len() as u64 % 256), 2);
    emit::put_part(&*s, place, out, t)
}

// The GUID at an offset.
pub fn put_opt_guid(s: &[u8], lib: &Numbers, offset: u32, out: &mut [u8], to: usize) -> usize
    ensures { Emits (guid_emitted s.now (library lib.now) offset) to out.old result out.new }
{
    match typelib::names::guid_at(lib, &*s, offset) {
        Ok(p) => {
            let t = emit::put_u8(out, to, 1);
            emit::put_part(&*s, p, out, t)
        }
        Err(_) => emit::put_u8(out, to, 0),
    }
}

// The name at an offset.
pub fn put_opt_name(s: &[u8], lib: &Numbers, offset: u32, out: &mut [u8], to: usize) -> usize
    ensures { Emits (name_emitted s.now (library lib.now) offset) to out.old result out.new }
{
    match typelib::names::name_at(lib, &*s, offset) {
        Ok(p) => put_counted(&*s, p, out, to),
        Err(_) => emit::put_u8(out, to, 0),
    }
}

// The same by names that were looked up: the library's name, if they are its own.
pub fn put_name_in(
    s: &[u8],
    lib: &Numbers,
    names: Names,
    offset: u32,
    out: &mut [u8],
    to: usize,
) -> usize
    ensures emits { Emits (name_in_emitted s.now (library lib.now) names offset) to out.old result out.new }
    ensures near_name_put { NearNamePut s.now (library lib.now) names offset to out.old result out.new }
{
    match names::name_at(&*s, lib, names, offset) {
        Ok(p) => put_counted(&*s, p, out, to),
        Err(_) => emit::put_u8(out, to, 0),
    }
}

// A member's name: missing where its offset is.
pub fn put_name_by<E: Refuses>(
    s: &[u8],
    lib: &Numbers,
    names: Names,
    offset: Result<i32, E>,
    out: &mut [u8],
    to: usize,
) -> usize
    ensures emits { Emits (name_in_by_emitted s.now (library lib.now) names (told_as E.number offset)) to out.old result out.new }
    ensures near_name_by_put { NearNameByPut s.now (library lib.now) names (told_as E.number offset) to out.old result out.new }
{
    let Ok(x) = offset else {
        return emit::put_u8(out, to, 0);
    };
    put_name_in(&*s, lib, names, x.cast_unsigned(), out, to)
}

// A member's identifier.
pub fn put_opt_memid<E: Refuses>(memid: Result<i32, E>, out: &mut [u8], to: usize) -> usize
    ensures { Emits (memid_emitted (told_as E.number memid)) to out.old result out.new }
{
    let Ok(x) = memid else {
        return emit::put_u8(out, to, 0);
    };
    emit::put_le(out, to, 1 + 256 * (x.cast_unsigned() as u64), 5)
}
