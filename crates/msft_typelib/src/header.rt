// The library's header.
ghost use Rattle.replies.specs.Call.{bits32, library_in, past, reply, truth};
ghost use Rattle.records.specs.Answer.{map, value};
ghost use Rattle.records.specs.Record.{bits_of, flag_set, signed32};
ghost use Rattle.typelib.specs.Header.{header_field, help_dll_flag, type_count};
ghost use Rattle.std.specs.Prelude.{◌≡◌};

use replies::reply;
use typelib::TypeLib;

// The word behind the magic.
#[unsafe(no_mangle)]
pub extern "C" fn msft_format_version(s: &[u8]) -> i64
    ensures { result ≡ reply (past s.now (header_field "magic2" s.now)) }
{
    reply::of_told(TypeLib::parse(s).and_then(|lib| lib.format_version(s)))
}

// The offset of the library's GUID in the GUID table.
#[unsafe(no_mangle)]
pub extern "C" fn msft_lib_guid_offset(s: &[u8]) -> i64
    ensures { result ≡ reply (past s.now (bits32 (signed32 (header_field "posguid" s.now)))) }
{
    reply::of_told(TypeLib::parse(s).and_then(|lib| lib.lib_guid_offset(s)))
}

// The library's locale.
#[unsafe(no_mangle)]
pub extern "C" fn msft_lcid(s: &[u8]) -> i64
    ensures { result ≡ reply (past s.now (header_field "lcid" s.now)) }
{
    reply::of_told(TypeLib::parse(s).and_then(|lib| lib.lcid(s)))
}

#[unsafe(no_mangle)]
pub extern "C" fn msft_lcid2(s: &[u8]) -> i64
    ensures { result ≡ reply (past s.now (header_field "lcid2" s.now)) }
{
    reply::of_told(TypeLib::parse(s).and_then(|lib| lib.lcid2(s)))
}

// SYSKIND in bits 0 to 3; bit 8 where a help DLL is named.
#[unsafe(no_mangle)]
pub extern "C" fn msft_varflags(s: &[u8]) -> i64
    ensures { result ≡ reply (past s.now (header_field "varflags" s.now)) }
{
    reply::of_told(TypeLib::parse(s).and_then(|lib| lib.varflags(s)))
}

// SYSKIND: 0 Win16, 1 Win32, 2 Mac, 3 Win64.
#[unsafe(no_mangle)]
pub extern "C" fn msft_syskind(s: &[u8]) -> i64
    ensures { result ≡ reply (past s.now (map (bits_of 0 4) (header_field "varflags" s.now))) }
{
    reply::of_told(TypeLib::parse(s).and_then(|lib| lib.syskind(s)))
}

#[unsafe(no_mangle)]
pub extern "C" fn msft_has_help_dll(s: &[u8]) -> i64
    ensures { result ≡ reply (past s.now (truth (map (flag_set help_dll_flag) (header_field "varflags" s.now)))) }
{
    reply::of_told(TypeLib::parse(s).and_then(|lib| lib.has_help_dll(s)))
}

// Major in the low half, minor in the high half.
#[unsafe(no_mangle)]
pub extern "C" fn msft_version(s: &[u8]) -> i64
    ensures { result ≡ reply (past s.now (header_field "version" s.now)) }
{
    reply::of_told(TypeLib::parse(s).and_then(|lib| lib.version(s)))
}

#[unsafe(no_mangle)]
pub extern "C" fn msft_version_major(s: &[u8]) -> i64
    ensures { result ≡ reply (past s.now (map (bits_of 0 16) (header_field "version" s.now))) }
{
    reply::of_told(TypeLib::parse(s).and_then(|lib| lib.version_major(s)))
}

#[unsafe(no_mangle)]
pub extern "C" fn msft_version_minor(s: &[u8]) -> i64
    ensures { result ≡ reply (past s.now (map (bits_of 16 16) (header_field "version" s.now))) }
{
    reply::of_told(TypeLib::parse(s).and_then(|lib| lib.version_minor(s)))
}

// LIBFLAG bits.
#[unsafe(no_mangle)]
pub extern "C" fn msft_flags(s: &[u8]) -> i64
    ensures { result ≡ reply (past s.now (header_field "flags" s.now)) }
{
    reply::of_told(TypeLib::parse(s).and_then(|lib| lib.flags(s)))
}

// The offset of its help string in the string table; -1 where it has none.
#[unsafe(no_mangle)]
pub extern "C" fn msft_helpstring_offset(s: &[u8]) -> i64
    ensures { result ≡ reply (past s.now (bits32 (signed32 (header_field "helpstring" s.now)))) }
{
    reply::of_told(TypeLib::parse(s).and_then(|lib| lib.helpstring_offset(s)))
}

#[unsafe(no_mangle)]
pub extern "C" fn msft_helpstringcontext(s: &[u8]) -> i64
    ensures { result ≡ reply (past s.now (bits32 (signed32 (header_field "helpstringcontext" s.now)))) }
{
    reply::of_told(TypeLib::parse(s).and_then(|lib| lib.helpstringcontext(s)))
}

#[unsafe(no_mangle)]
pub extern "C" fn msft_helpcontext(s: &[u8]) -> i64
    ensures { result ≡ reply (past s.now (bits32 (signed32 (header_field "helpcontext" s.now)))) }
{
    reply::of_told(TypeLib::parse(s).and_then(|lib| lib.helpcontext(s)))
}

#[unsafe(no_mangle)]
pub extern "C" fn msft_nametablecount(s: &[u8]) -> i64
    ensures { result ≡ reply (past s.now (bits32 (signed32 (header_field "nametablecount" s.now)))) }
{
    reply::of_told(TypeLib::parse(s).and_then(|lib| lib.nametablecount(s)))
}

#[unsafe(no_mangle)]
pub extern "C" fn msft_nametablechars(s: &[u8]) -> i64
    ensures { result ≡ reply (past s.now (bits32 (signed32 (header_field "nametablechars" s.now)))) }
{
    reply::of_told(TypeLib::parse(s).and_then(|lib| lib.nametablechars(s)))
}

// The offset of its name in the name table.
#[unsafe(no_mangle)]
pub extern "C" fn msft_name_offset(s: &[u8]) -> i64
    ensures { result ≡ reply (past s.now (bits32 (signed32 (header_field "NameOffset" s.now)))) }
{
    reply::of_told(TypeLib::parse(s).and_then(|lib| lib.name_offset(s)))
}

// The offset of its help file's name in the string table; -1 where it has none.
#[unsafe(no_mangle)]
pub extern "C" fn msft_helpfile_offset(s: &[u8]) -> i64
    ensures { result ≡ reply (past s.now (bits32 (signed32 (header_field "helpfile" s.now)))) }
{
    reply::of_told(TypeLib::parse(s).and_then(|lib| lib.helpfile_offset(s)))
}

// The offset of its custom data in their directory; -1 where it has none.
#[unsafe(no_mangle)]
pub extern "C" fn msft_custom_data_offset(s: &[u8]) -> i64
    ensures { result ≡ reply (past s.now (bits32 (signed32 (header_field "CustomDataOffset" s.now)))) }
{
    reply::of_told(TypeLib::parse(s).and_then(|lib| lib.custom_data_offset(s)))
}

// The hreftype of IDispatch; -1 where there is none.
#[unsafe(no_mangle)]
pub extern "C" fn msft_dispatchpos(s: &[u8]) -> i64
    ensures { result ≡ reply (past s.now (bits32 (signed32 (header_field "dispatchpos" s.now)))) }
{
    reply::of_told(TypeLib::parse(s).and_then(|lib| lib.dispatchpos(s)))
}

// How many imports it has.
#[unsafe(no_mangle)]
pub extern "C" fn msft_nimpinfos(s: &[u8]) -> i64
    ensures { result ≡ reply (past s.now (bits32 (signed32 (header_field "nimpinfos" s.now)))) }
{
    reply::of_told(TypeLib::parse(s).and_then(|lib| lib.nimpinfos(s)))
}

// 0 where the bytes are a library, else refusal 1 to 5.
#[unsafe(no_mangle)]
pub extern "C" fn msft_parse(s: &[u8]) -> i64
    ensures { result ≡ reply (past s.now (value 0)) }
{
    match TypeLib::parse(s) {
        Ok(_) => 0,
        Err(refusal) => reply::minus(refusal.number()),
    }
}

// How many typeinfos the library has.
#[unsafe(no_mangle)]
pub extern "C" fn msft_typeinfo_count(s: &[u8]) -> i64
    ensures { result ≡ reply (past s.now (value (type_count (library_in s.now)))) }
{
    reply::of_told(TypeLib::parse(s).map(|lib| lib.count()))
}
