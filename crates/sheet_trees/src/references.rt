// References.
ghost use Rattle.std.specs.Prelude.{◌≡◌, ◌%◌};
ghost use Rattle.std.specs.Int.{w32};
ghost use Rattle.std.proofs.Common.{of_z};
ghost use Rattle.records.specs.Answer.{value};
ghost use Rattle.records.specs.Told.{told};
ghost use Rattle.describe.specs.References.{misplaced_offset};
ghost use Rattle.sheet_trees.specs.Parts.{internal_bytes, misplaced_bytes};
ghost use Rattle.emit.specs.Emit.{Emits};
ghost use Rattle.sheet_trees.specs.Emitted.{file_emitted, here_emitted, import_emitted, opt_file_emitted, own_emitted, reference_emitted, resolved_emitted};
ghost use Rattle.typelib.specs.Header.{library};
ghost use Rattle.typelib.specs.Told.{told_offset};

use crate::values;
use records::answer::{Place, Refusal};
use records::field::LIMIT;
use records::impfile::ImpFile;
use records::impinfo::ImpInfo;
use typelib::references::ResolvedHreftype;
use typelib::{Numbers, TypeInfoIndex, TypeInfoOffset, tables};
use util::NEGATIVE;

// The offset of a reference that hits no typeinfo: one that is not negative, has its low two bits clear and is no multiple of 100 once the
// bit 0x01000000 is cleared (document 02, §4). The two resolvers do not ask for it, and divide by 100.
// (Whether an hreftype is negative is one comparison: what follows is a refusal here, and the byte 0 in an emitter. The contract tells an offset by
// its number, as that of `tables::offset_word` does.)
pub fn misplaced_offset(hreftype: i32) -> Result<TypeInfoOffset, Refusal>
    ensures { told_offset result ≡ misplaced_offset (of_z w32 hreftype) }
{
    let href = hreftype.cast_unsigned();
    if NEGATIVE <= href {
        return Err(Refusal::NothingThere);
    }
    if util::bits(href, 0, 2) != 0 {
        return Err(Refusal::NothingThere);
    }
    let offset = typelib::references::without_dispatch(href);
    if offset % 100 == 0 {
        return Err(Refusal::NothingThere);
    }
    Ok(TypeInfoOffset(offset))
}

// The reference of an hreftype. (Most are to this library's own typeinfos, and need no look at a table. `put_elsewhere` has a second
// caller, `put_user` of trees, so that the compiler does not take it in here, and takes this short function into its callers.)
pub fn put_reference(s: &[u8], lib: &Numbers, href: u32, out: &mut [u8], to: usize) -> usize
    ensures { Emits (reference_emitted s.now (library lib.now) href) to out.old result out.new }
{
    if util::bits(href, 0, 2) == 0 {
        put_in_this_file(&*s, lib, href, out, to)
    } else {
        put_elsewhere(&*s, lib, href, out, to)
    }
}

// The same of one to another library, as one is that has one of its low two bits set. (It and the next promise what `put_reference` does, of their
// part of all hreftypes: three functions, for speed.)
pub(crate) fn put_elsewhere(s: &[u8], lib: &Numbers, href: u32, out: &mut [u8], to: usize) -> usize
    requires { href % 4 ≡ 0 → ⊥ }
    ensures { Emits (reference_emitted s.now (library lib.now) href) to out.old result out.new }
{
    let bit = util::bits(href, 24, 1);
    match typelib::references::resolve_at(lib, &*s, href) {
        Ok(r) => put_resolved(&*s, lib, bit, r, out, to),
        Err(_) => emit::put_u8(out, to, 0),
    }
}

// The same of one in this library, as one is whose low two bits are clear.
pub(crate) fn put_in_this_file(
    s: &[u8],
    lib: &Numbers,
    href: u32,
    out: &mut [u8],
    to: usize,
) -> usize
    requires { href % 4 ≡ 0 }
    ensures { Emits (reference_emitted s.now (library lib.now) href) to out.old result out.new }
{
    if NEGATIVE <= href {
        return emit::put_u8(out, to, 0);
    }
    let bit = util::bits(href, 24, 1);
    let offset = TypeInfoOffset(typelib::references::without_dispatch(href));
    // the range of its index is looked at only for a multiple of 100
    if offset.0 % 100 == 0 {
        put_here(&*s, lib, bit, offset, out, to)
    } else {
        put_misplaced(bit, offset, out, to)
    }
}

// The typeinfo at an offset, by its index; nothing where the library has not so many.
fn put_here(
    s: &[u8],
    lib: &Numbers,
    bit: u32,
    offset: TypeInfoOffset,
    out: &mut [u8],
    to: usize,
) -> usize
    ensures { Emits (here_emitted s.now (library lib.now) bit offset.0) to out.old result out.new }
{
    if LIMIT < s.len() {
        return emit::put_u8(out, to, 0);
    }
    let index = typelib::references::index_of(offset);
    if index.0 < tables::count(lib) as usize {
        put_internal(bit, index, out, to)
    } else {
        emit::put_u8(out, to, 0)
    }
}

// What it comes to, `bit` being its bit 0x01000000.
fn put_resolved(
    s: &[u8],
    lib: &Numbers,
    bit: u32,
    resolved: ResolvedHreftype,
    out: &mut [u8],
    to: usize,
) -> usize
    ensures { Emits (resolved_emitted s.now (library lib.now) bit resolved) to out.old result out.new }
{
    match resolved {
        ResolvedHreftype::Internal(index) => put_internal(bit, index, out, to),
        ResolvedHreftype::External(info, imp_file) => {
            put_import(&*s, lib, bit, info, imp_file, out, to)
        },
    }
}

// A typeinfo of this library. (The code and the bit are put as one number.)
fn put_internal(bit: u32, index: TypeInfoIndex, out: &mut [u8], to: usize) -> usize
    ensures { Emits (value (internal_bytes bit index.0)) to out.old result out.new }
{
    let t = emit::put_le(out, to, 1 + 256 * (bit as u64), 2);
    emit::put_le(out, t, index.0 as u64, 2)
}

// An offset where no typeinfo is.
fn put_misplaced(bit: u32, offset: TypeInfoOffset, out: &mut [u8], to: usize) -> usize
    ensures { Emits (value (misplaced_bytes bit offset.0)) to out.old result out.new }
{
    let t = emit::put_le(out, to, 3 + 256 * (bit as u64), 2);
    emit::put_u32(out, t, offset.0)
}

// (This and `put_file` are rows of emitters, each with fields of its own.)
fn put_import(
    s: &[u8],
    lib: &Numbers,
    bit: u32,
    info: ImpInfo,
    imp_file: Result<ImpFile, Refusal>,
    out: &mut [u8],
    to: usize,
) -> usize
    ensures { Emits (import_emitted s.now (library lib.now) bit info imp_file) to out.old result out.new }
{
    let flags = emit::word_at(&*s, info.at, 0x00);
    let t = emit::put_u8(out, to, 2);
    let t = emit::put_le(out, t, bit as u64, 1);
    let t = emit::put_u32(out, t, flags);
    let t = put_own(&*s, lib, flags, emit::word_at(&*s, info.at, 0x08), out, t);
    put_opt_file(&*s, lib, imp_file, out, t)
}

// The word at 0x08 of an import record: a GUID's offset where its flags have 0x10000. (As its definition asks: `util::bits(flags, 16, 1) == 1` is no plainer.)
fn put_own(s: &[u8], lib: &Numbers, flags: u32, word: u32, out: &mut [u8], to: usize) -> usize
    ensures { Emits (own_emitted s.now (library lib.now) flags word) to out.old result out.new }
{
    if flags / 0x10000 % 2 == 1 {
        values::put_opt_guid(&*s, lib, word, out, to)
    } else {
        emit::put_u32(out, to, word)
    }
}

fn put_opt_file(
    s: &[u8],
    lib: &Numbers,
    imp_file: Result<ImpFile, Refusal>,
    out: &mut [u8],
    to: usize,
) -> usize
    ensures { Emits (opt_file_emitted s.now (library lib.now) imp_file) to out.old result out.new }
{
    match imp_file {
        Ok(f) => put_file(&*s, lib, f, f.filename_bytes(&*s), out, to),
        Err(_) => emit::put_u8(out, to, 0),
    }
}

fn put_file(
    s: &[u8],
    lib: &Numbers,
    f: ImpFile,
    name: Result<Place, Refusal>,
    out: &mut [u8],
    to: usize,
) -> usize
    ensures { Emits (file_emitted s.now (library lib.now) f (told name)) to out.old result out.new }
{
    let Ok(place) = name else {
        return emit::put_u8(out, to, 0);
    };
    let bytes = records::answer::part(&*s, Ok::<_, Refusal>(place));
    let t = emit::put_u8(out, to, 1);
    let t = values::put_opt_guid(&*s, lib, emit::word_at(&*s, f.at, 0x00), out, t);
    let t = emit::copy_u32(&*s, f.at, 0x04, out, t);
    let t = emit::copy_u32(&*s, f.at, 0x08, out, t);
    let t = emit::put_le(out, t, bytes.len() as u64, 2);
    emit::put_bytes(bytes, out, t)
}
