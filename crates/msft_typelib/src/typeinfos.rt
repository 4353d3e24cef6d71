// Typeinfos, and the identifiers and names of their members.
ghost use Rattle.replies.specs.At.{typeinfo_at};
ghost use Rattle.replies.specs.Call.{bits32, laid, outcome, reply};
ghost use Rattle.records.specs.Record.{signed32};
ghost use Rattle.typelib.specs.TypeInfos.{func_memid, func_name_offset, var_memid, var_name_offset};
ghost use Rattle.msft_typelib.specs.Rows.{func_name_row, member_name_row, typeinfo_offset_bits, typeinfo_row, var_name_row};
ghost use Rattle.std.specs.Prelude.{◌≡◌};

use records::typeinfo::TypeInfoEntry;
use replies::reply;
use typelib::{TypeInfoIndex, TypeLib};

#[unsafe(no_mangle)]
pub extern "C" fn msft_typeinfo_offset(s: &[u8], index: usize) -> i64
    ensures { result ≡ reply (typeinfo_offset_bits s.now index) }
{
    reply::of_told(TypeLib::parse(s).and_then(|lib| lib.typeinfo_offset(s, TypeInfoIndex(index))))
}

#[unsafe(no_mangle)]
pub extern "C" fn msft_typeinfo(s: &[u8], index: usize, out: &mut [u8]) -> i64
    ensures { outcome result out.new ≡ laid (typeinfo_row s.now index) out.old }
{
    reply::lay(
        rows::of_record(TypeLib::parse(s).and_then(|lib| lib.typeinfo(s, TypeInfoIndex(index)))),
        out,
    )
}

// The member identifier of function `index`.
#[unsafe(no_mangle)]
pub extern "C" fn msft_func_memid(s: &[u8], at: usize, len: usize, index: usize) -> i64
    ensures { result ≡ reply (bits32 (signed32 (func_memid s.now (typeinfo_at at len) index))) }
{
    reply::of_told(typelib::typeinfos::func_memid(s, TypeInfoEntry { at, len }, index))
}

// The member identifier of variable `index`.
#[unsafe(no_mangle)]
pub extern "C" fn msft_var_memid(s: &[u8], at: usize, len: usize, index: usize) -> i64
    ensures { result ≡ reply (bits32 (signed32 (var_memid s.now (typeinfo_at at len) index))) }
{
    reply::of_told(typelib::typeinfos::var_memid(s, TypeInfoEntry { at, len }, index))
}

// The name offset of function `index`; -1 where it has no name of its own.
#[unsafe(no_mangle)]
pub extern "C" fn msft_func_name_offset(s: &[u8], at: usize, len: usize, index: usize) -> i64
    ensures { result ≡ reply (bits32 (signed32 (func_name_offset s.now (typeinfo_at at len) index))) }
{
    reply::of_told(typelib::typeinfos::func_name_offset(s, TypeInfoEntry { at, len }, index))
}

// The name offset of variable `index`.
#[unsafe(no_mangle)]
pub extern "C" fn msft_var_name_offset(s: &[u8], at: usize, len: usize, index: usize) -> i64
    ensures { result ≡ reply (bits32 (signed32 (var_name_offset s.now (typeinfo_at at len) index))) }
{
    reply::of_told(typelib::typeinfos::var_name_offset(s, TypeInfoEntry { at, len }, index))
}

// The name of function `index`, where it is UTF-8.
#[unsafe(no_mangle)]
pub extern "C" fn msft_func_name(
    s: &[u8],
    at: usize,
    len: usize,
    index: usize,
    out: &mut [u8],
) -> i64
    ensures { outcome result out.new ≡ laid (func_name_row s.now (typeinfo_at at len) index) out.old }
{
    reply::lay(
        rows::of_within(TypeLib::parse(s).and_then(|lib| lib.func_name(
            s,
            TypeInfoEntry { at, len },
            index,
        ))),
        out,
    )
}

// The name of variable `index`, where it is UTF-8.
#[unsafe(no_mangle)]
pub extern "C" fn msft_var_name(
    s: &[u8],
    at: usize,
    len: usize,
    index: usize,
    out: &mut [u8],
) -> i64
    ensures { outcome result out.new ≡ laid (var_name_row s.now (typeinfo_at at len) index) out.old }
{
    reply::lay(
        rows::of_within(TypeLib::parse(s).and_then(|lib| lib.var_name(
            s,
            TypeInfoEntry { at, len },
            index,
        ))),
        out,
    )
}

// Name `k`, from 0, of the entries of a typeinfo, its own name left out. (The source builds the
// list of them.)
#[unsafe(no_mangle)]
pub extern "C" fn msft_member_name(s: &[u8], index: usize, k: usize, out: &mut [u8]) -> i64
    ensures { outcome result out.new ≡ laid (member_name_row s.now index k) out.old }
{
    reply::lay(
        rows::of_within(TypeLib::parse(s).and_then(|lib| table_cursors::members::member_name(
            lib,
            s,
            TypeInfoIndex(index),
            k,
        ))),
        out,
    )
}
