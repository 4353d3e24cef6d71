// Segments, names, strings and GUIDs, by their offsets.
ghost use Rattle.replies.specs.Call.{laid, outcome};
ghost use Rattle.msft_typelib.specs.Rows.{guid_row, lib_guid_row, lib_helpstring_row, lib_name_row, name_bytes_row, name_row, segment_data_row, segment_row, string_row};
ghost use Rattle.std.specs.Prelude.{◌≡◌};
ghost use Rattle.std.specs.Int.{w32};
ghost use Rattle.std.proofs.Common.{of_z};

use replies::reply;
use typelib::TypeLib;

// Where segment `index` lies; 9 where it is missing.
#[unsafe(no_mangle)]
pub extern "C" fn msft_segment(s: &[u8], index: usize, out: &mut [u8]) -> i64
    ensures { outcome result out.new ≡ laid (segment_row s.now index) out.old }
{
    reply::lay(
        rows::of_within(TypeLib::parse(s).and_then(|lib| lib.segment(index))),
        out,
    )
}

// A name's bytes, in the code page the library was built in.
#[unsafe(no_mangle)]
pub extern "C" fn msft_name_bytes(s: &[u8], offset: i32, out: &mut [u8]) -> i64
    ensures { outcome result out.new ≡ laid (name_bytes_row s.now (of_z w32 offset)) out.old }
{
    reply::lay(
        rows::of_within(TypeLib::parse(s).and_then(|lib| lib.name_bytes(s, offset))),
        out,
    )
}

// A name, where it is UTF-8.
#[unsafe(no_mangle)]
pub extern "C" fn msft_name(s: &[u8], offset: i32, out: &mut [u8]) -> i64
    ensures { outcome result out.new ≡ laid (name_row s.now (of_z w32 offset)) out.old }
{
    reply::lay(
        rows::of_within(TypeLib::parse(s).and_then(|lib| lib.name(s, offset))),
        out,
    )
}

// A string of the string table, where it is UTF-8.
#[unsafe(no_mangle)]
pub extern "C" fn msft_string(s: &[u8], offset: i32, out: &mut [u8]) -> i64
    ensures { outcome result out.new ≡ laid (string_row s.now (of_z w32 offset)) out.old }
{
    reply::lay(
        rows::of_within(TypeLib::parse(s).and_then(|lib| lib.string(s, offset))),
        out,
    )
}

// The GUID at an offset of its table.
#[unsafe(no_mangle)]
pub extern "C" fn msft_guid(s: &[u8], offset: i32, out: &mut [u8]) -> i64
    ensures { outcome result out.new ≡ laid (guid_row s.now (of_z w32 offset)) out.old }
{
    reply::lay(
        rows::of_record(TypeLib::parse(s).and_then(|lib| lib.guid(s, offset))),
        out,
    )
}

// The bytes of a segment; 9 where it is missing or passes the file's end.
#[unsafe(no_mangle)]
pub extern "C" fn msft_segment_data(s: &[u8], index: usize, out: &mut [u8]) -> i64
    ensures { outcome result out.new ≡ laid (segment_data_row s.now index) out.old }
{
    reply::lay(
        rows::of_within(TypeLib::parse(s).and_then(|lib| lib.segment_data(s, index))),
        out,
    )
}

#[unsafe(no_mangle)]
pub extern "C" fn msft_guid_hash_data(s: &[u8], out: &mut [u8]) -> i64
    ensures { outcome result out.new ≡ laid (segment_data_row s.now 4) out.old }
{
    reply::lay(
        rows::of_within(TypeLib::parse(s).and_then(|lib| lib.guid_hash_data(s))),
        out,
    )
}

#[unsafe(no_mangle)]
pub extern "C" fn msft_name_hash_data(s: &[u8], out: &mut [u8]) -> i64
    ensures { outcome result out.new ≡ laid (segment_data_row s.now 6) out.old }
{
    reply::lay(
        rows::of_within(TypeLib::parse(s).and_then(|lib| lib.name_hash_data(s))),
        out,
    )
}

// The library's own name, where it is UTF-8.
#[unsafe(no_mangle)]
pub extern "C" fn msft_lib_name(s: &[u8], out: &mut [u8]) -> i64
    ensures { outcome result out.new ≡ laid (lib_name_row s.now) out.old }
{
    reply::lay(
        rows::of_within(TypeLib::parse(s).and_then(|lib| lib.lib_name(s))),
        out,
    )
}

// The library's own GUID.
#[unsafe(no_mangle)]
pub extern "C" fn msft_lib_guid(s: &[u8], out: &mut [u8]) -> i64
    ensures { outcome result out.new ≡ laid (lib_guid_row s.now) out.old }
{
    reply::lay(
        rows::of_record(TypeLib::parse(s).and_then(|lib| lib.lib_guid(s))),
        out,
    )
}

// The library's help string, where it is UTF-8.
#[unsafe(no_mangle)]
pub extern "C" fn msft_lib_helpstring(s: &[u8], out: &mut [u8]) -> i64
    ensures { outcome result out.new ≡ laid (lib_helpstring_row s.now) out.old }
{
    reply::lay(
        rows::of_within(TypeLib::parse(s).and_then(|lib| lib.lib_helpstring(s))),
        out,
    )
}
