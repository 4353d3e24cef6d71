// The contents and the bodies of a sheet. The contents are the count of types and the length of each body; a length is known
// once its body is emitted, and is put into the contents then.
ghost use Rattle.std.specs.Prelude.{◌≡◌, ◌≤◌};
ghost use Rattle.emit.specs.Emit.{put, moved, Emits};
ghost use Rattle.sheet.specs.Contents.{sheet_emitted, Patched, BodiesPut, SheetPut, header_emitted};
ghost use Rattle.typelib.specs.Header.{library, type_count};

use sheet_sizes::TYPE_LENGTHS;
use sheet_trees::values;
use typelib::{Numbers, TypeInfoIndex, tables};

// Where the contents have the length of the library's body.
const LIBRARY_LENGTH: usize = 4;

// The whole sheet, unless it passes the place `most`: then the last place, and what was emitted is of no use.
pub(crate) fn put_sheet(s: &[u8], lib: &Numbers, most: usize, out: &mut [u8]) -> usize
    requires { type_count (library lib.now) ≤ 65535 }
    ensures { SheetPut s.now (library lib.now) most out.old result out.new }
{
    let count = tables::count(lib);
    emit::put_le(out, 0, count as u64, 4);
    let start = TYPE_LENGTHS + 4 * (count as usize);
    let t = put_header(&*s, lib, out, start);
    patch(start, t, LIBRARY_LENGTH, out);
    put_types(&*s, lib, most, out, t)
}

// Where the whole sheet would end, or its refusal.
pub(crate) fn end_of_sheet(s: &[u8], lib: &Numbers) -> usize
    ensures { put result ≡ moved (put 0) (sheet_emitted s.now (library lib.now)) }
{
    let c = sheet_sizes::count_sheet(&*s, lib);
    c.to
}

// The library's own body.
fn put_header(s: &[u8], lib: &Numbers, out: &mut [u8], to: usize) -> usize
    ensures { Emits (header_emitted s.now (library lib.now)) to out.old result out.new }
{
    let t = emit::copy_u32(&*s, 0, 0x0C, out, to);
    let t = emit::copy_u32(&*s, 0, 0x18, out, t);
    let t = values::put_opt_guid(&*s, lib, emit::word_at(&*s, 0, 0x08), out, t);
    values::put_opt_name(&*s, lib, emit::word_at(&*s, 0, 0x38), out, t)
}

// The bodies of all types, from `to` on, with their lengths in the contents, unless they pass the place `most`. (That ends it at once,
// and so does a refusal: nothing is emitted behind one.)
fn put_types(s: &[u8], lib: &Numbers, most: usize, out: &mut [u8], to: usize) -> usize
    requires { type_count (library lib.now) ≤ 65535 }
    ensures { BodiesPut s.now (library lib.now) most to out.old result out.new }
{
    let count = tables::count(lib) as usize;
    let mut t = to;
    for i in 0..count {
        if most < t {
            return t.max(emit::PAST);
        }
        let end = sheet_types::put_type_of(&*s, lib, TypeInfoIndex(i), out, t);
        patch(t, end, TYPE_LENGTHS + 4 * i, out);
        t = end;
    }
    t
}

// Puts the length of the body from `from` to `end` into the contents, at `at`; nothing where the body was refused.
fn patch(from: usize, end: usize, at: usize, out: &mut [u8])
    ensures { Patched (put from) (put end) at out.old out.new }
{
    if emit::PAST < end {
        return;
    }
    if from <= end {
        emit::overwrite(out, at, (end - from) as u64, 4);
    }
}
