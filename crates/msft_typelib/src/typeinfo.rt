// A typeinfo, by its place.
ghost use Rattle.replies.specs.Call.{bits16, bits32, laid, outcome, reply};
ghost use Rattle.rows.specs.Values.{place};
ghost use Rattle.records.specs.Answer.{map};
ghost use Rattle.records.specs.Layout.{size_of, type_info_base};
ghost use Rattle.records.specs.Record.{bits_of, field, record_place, signed16, signed32};
ghost use Rattle.msft_typelib.specs.Rows.{kind_in};
ghost use Rattle.std.specs.Prelude.{◌≡◌};

use records::typeinfo::TypeInfoEntry;
use replies::reply;

// The record's bytes.
#[unsafe(no_mangle)]
pub extern "C" fn msft_typeinfo_as_bytes(s: &[u8], at: usize, len: usize, out: &mut [u8]) -> i64
    ensures { outcome result out.new ≡ laid (map place (record_place (size_of type_info_base) s.now at len)) out.old }
{
    reply::lay(rows::of_within(TypeInfoEntry { at, len }.as_bytes(s)), out)
}

// The kind, in the low four bits of its field.
#[unsafe(no_mangle)]
pub extern "C" fn msft_typeinfo_typekind(s: &[u8], at: usize, len: usize) -> i64
    ensures { result ≡ reply (kind_in s.now at len) }
{
    reply::of_told(TypeInfoEntry { at, len }.typekind(s))
}

// The whole field: the kind in its low four bits, the alignment in bits 11 to 15.
#[unsafe(no_mangle)]
pub extern "C" fn msft_typeinfo_typekind_raw(s: &[u8], at: usize, len: usize) -> i64
    ensures { result ≡ reply (field type_info_base "typekind" s.now at len) }
{
    reply::of_told(TypeInfoEntry { at, len }.typekind_raw(s))
}

// The file offset of the block of function and variable records; negative where there is none.
#[unsafe(no_mangle)]
pub extern "C" fn msft_typeinfo_memoffset(s: &[u8], at: usize, len: usize) -> i64
    ensures { result ≡ reply (bits32 (signed32 (field type_info_base "memoffset" s.now at len))) }
{
    reply::of_told(TypeInfoEntry { at, len }.memoffset(s))
}

#[unsafe(no_mangle)]
pub extern "C" fn msft_typeinfo_res2(s: &[u8], at: usize, len: usize) -> i64
    ensures { result ≡ reply (bits32 (signed32 (field type_info_base "res2" s.now at len))) }
{
    reply::of_told(TypeInfoEntry { at, len }.res2(s))
}

// The declared counts: functions in the low half, variables in the high half.
#[unsafe(no_mangle)]
pub extern "C" fn msft_typeinfo_celement(s: &[u8], at: usize, len: usize) -> i64
    ensures { result ≡ reply (field type_info_base "cElement" s.now at len) }
{
    reply::of_told(TypeInfoEntry { at, len }.celement(s))
}

#[unsafe(no_mangle)]
pub extern "C" fn msft_typeinfo_func_count(s: &[u8], at: usize, len: usize) -> i64
    ensures { result ≡ reply (map (bits_of 0 16) (field type_info_base "cElement" s.now at len)) }
{
    reply::of_told(TypeInfoEntry { at, len }.func_count(s))
}

#[unsafe(no_mangle)]
pub extern "C" fn msft_typeinfo_var_count(s: &[u8], at: usize, len: usize) -> i64
    ensures { result ≡ reply (map (bits_of 16 16) (field type_info_base "cElement" s.now at len)) }
{
    reply::of_told(TypeInfoEntry { at, len }.var_count(s))
}

// The offset of the type's GUID in its table; -1 where it has none.
#[unsafe(no_mangle)]
pub extern "C" fn msft_typeinfo_guid_offset(s: &[u8], at: usize, len: usize) -> i64
    ensures { result ≡ reply (bits32 (signed32 (field type_info_base "posguid" s.now at len))) }
{
    reply::of_told(TypeInfoEntry { at, len }.guid_offset(s))
}

// TYPEFLAG bits.
#[unsafe(no_mangle)]
pub extern "C" fn msft_typeinfo_flags(s: &[u8], at: usize, len: usize) -> i64
    ensures { result ≡ reply (field type_info_base "flags" s.now at len) }
{
    reply::of_told(TypeInfoEntry { at, len }.flags(s))
}

// The offset of its name in the name table.
#[unsafe(no_mangle)]
pub extern "C" fn msft_typeinfo_name_offset(s: &[u8], at: usize, len: usize) -> i64
    ensures { result ≡ reply (bits32 (signed32 (field type_info_base "NameOffset" s.now at len))) }
{
    reply::of_told(TypeInfoEntry { at, len }.name_offset(s))
}

#[unsafe(no_mangle)]
pub extern "C" fn msft_typeinfo_version(s: &[u8], at: usize, len: usize) -> i64
    ensures { result ≡ reply (field type_info_base "version" s.now at len) }
{
    reply::of_told(TypeInfoEntry { at, len }.version(s))
}

// The offset of its doc string in the string table; -1 where it has none.
#[unsafe(no_mangle)]
pub extern "C" fn msft_typeinfo_docstring_offset(s: &[u8], at: usize, len: usize) -> i64
    ensures { result ≡ reply (bits32 (signed32 (field type_info_base "docstringoffs" s.now at len))) }
{
    reply::of_told(TypeInfoEntry { at, len }.docstring_offset(s))
}

// How many interfaces it implements.
#[unsafe(no_mangle)]
pub extern "C" fn msft_typeinfo_cimpltypes(s: &[u8], at: usize, len: usize) -> i64
    ensures { result ≡ reply (bits16 (signed16 (field type_info_base "cImplTypes" s.now at len))) }
{
    reply::of_told(TypeInfoEntry { at, len }.cimpltypes(s))
}

// The size of its virtual table in bytes.
#[unsafe(no_mangle)]
pub extern "C" fn msft_typeinfo_cb_size_vft(s: &[u8], at: usize, len: usize) -> i64
    ensures { result ≡ reply (bits16 (signed16 (field type_info_base "cbSizeVft" s.now at len))) }
{
    reply::of_told(TypeInfoEntry { at, len }.cb_size_vft(s))
}

// The size of an instance in bytes.
#[unsafe(no_mangle)]
pub extern "C" fn msft_typeinfo_size(s: &[u8], at: usize, len: usize) -> i64
    ensures { result ≡ reply (bits32 (signed32 (field type_info_base "size" s.now at len))) }
{
    reply::of_told(TypeInfoEntry { at, len }.size(s))
}

// Of a coclass the offset of its first reference, of an alias the type field it stands for, of an
// interface the hreftype of its base.
#[unsafe(no_mangle)]
pub extern "C" fn msft_typeinfo_datatype1(s: &[u8], at: usize, len: usize) -> i64
    ensures { result ≡ reply (bits32 (signed32 (field type_info_base "datatype1" s.now at len))) }
{
    reply::of_told(TypeInfoEntry { at, len }.datatype1(s))
}

#[unsafe(no_mangle)]
pub extern "C" fn msft_typeinfo_datatype2(s: &[u8], at: usize, len: usize) -> i64
    ensures { result ≡ reply (bits32 (signed32 (field type_info_base "datatype2" s.now at len))) }
{
    reply::of_told(TypeInfoEntry { at, len }.datatype2(s))
}

#[unsafe(no_mangle)]
pub extern "C" fn msft_typeinfo_helpstringcontext(s: &[u8], at: usize, len: usize) -> i64
    ensures { result ≡ reply (bits32 (signed32 (field type_info_base "helpstringcontext" s.now at len))) }
{
    reply::of_told(TypeInfoEntry { at, len }.helpstringcontext(s))
}

#[unsafe(no_mangle)]
pub extern "C" fn msft_typeinfo_helpcontext(s: &[u8], at: usize, len: usize) -> i64
    ensures { result ≡ reply (bits32 (signed32 (field type_info_base "helpcontext" s.now at len))) }
{
    reply::of_told(TypeInfoEntry { at, len }.helpcontext(s))
}

// The offset of its custom data in their directory; -1 where it has none.
#[unsafe(no_mangle)]
pub extern "C" fn msft_typeinfo_cust_data_offset(s: &[u8], at: usize, len: usize) -> i64
    ensures { result ≡ reply (bits32 (signed32 (field type_info_base "oCustData" s.now at len))) }
{
    reply::of_told(TypeInfoEntry { at, len }.cust_data_offset(s))
}

#[unsafe(no_mangle)]
pub extern "C" fn msft_typeinfo_res3(s: &[u8], at: usize, len: usize) -> i64
    ensures { result ≡ reply (bits32 (signed32 (field type_info_base "res3" s.now at len))) }
{
    reply::of_told(TypeInfoEntry { at, len }.res3(s))
}

#[unsafe(no_mangle)]
pub extern "C" fn msft_typeinfo_res18(s: &[u8], at: usize, len: usize) -> i64
    ensures { result ≡ reply (bits32 (signed32 (field type_info_base "res18" s.now at len))) }
{
    reply::of_told(TypeInfoEntry { at, len }.res18(s))
}

#[unsafe(no_mangle)]
pub extern "C" fn msft_typeinfo_res19(s: &[u8], at: usize, len: usize) -> i64
    ensures { result ≡ reply (bits32 (signed32 (field type_info_base "res19" s.now at len))) }
{
    reply::of_told(TypeInfoEntry { at, len }.res19(s))
}
