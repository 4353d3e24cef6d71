// An import file, by its place.
ghost use Rattle.replies.specs.Call.{bits32, laid, outcome, reply};
ghost use Rattle.rows.specs.Values.{place};
ghost use Rattle.records.specs.Answer.{map};
ghost use Rattle.records.specs.Counted.{file_name, file_name_bytes};
ghost use Rattle.records.specs.Layout.{imp_file};
ghost use Rattle.records.specs.Record.{field, signed32};
ghost use Rattle.msft_typelib.specs.Rows.{imp_file_size_row};
ghost use Rattle.std.specs.Prelude.{◌≡◌};

use records::impfile::ImpFile;
use replies::reply;

// The offset of the library's GUID in the GUID table.
#[unsafe(no_mangle)]
pub extern "C" fn msft_impfile_guid_offset(s: &[u8], at: usize, len: usize) -> i64
    ensures { result ≡ reply (bits32 (signed32 (field imp_file "GUID offset" s.now at len))) }
{
    reply::of_told(ImpFile { at, len }.guid_offset(s))
}

// Its locale.
#[unsafe(no_mangle)]
pub extern "C" fn msft_impfile_lcid(s: &[u8], at: usize, len: usize) -> i64
    ensures { result ≡ reply (bits32 (signed32 (field imp_file "LCID" s.now at len))) }
{
    reply::of_told(ImpFile { at, len }.lcid(s))
}

#[unsafe(no_mangle)]
pub extern "C" fn msft_impfile_major_version(s: &[u8], at: usize, len: usize) -> i64
    ensures { result ≡ reply (field imp_file "major" s.now at len) }
{
    reply::of_told(ImpFile { at, len }.major_version(s))
}

#[unsafe(no_mangle)]
pub extern "C" fn msft_impfile_minor_version(s: &[u8], at: usize, len: usize) -> i64
    ensures { result ≡ reply (field imp_file "minor" s.now at len) }
{
    reply::of_told(ImpFile { at, len }.minor_version(s))
}

// The length of the file name in bits 2 to 15; bits 0 and 1 are flags.
#[unsafe(no_mangle)]
pub extern "C" fn msft_impfile_size_field(s: &[u8], at: usize, len: usize) -> i64
    ensures { result ≡ reply (field imp_file "size" s.now at len) }
{
    reply::of_told(ImpFile { at, len }.size_field(s))
}

// The file name, where it is UTF-8.
#[unsafe(no_mangle)]
pub extern "C" fn msft_impfile_filename(s: &[u8], at: usize, len: usize, out: &mut [u8]) -> i64
    ensures { outcome result out.new ≡ laid (map place (file_name s.now at len)) out.old }
{
    reply::lay(rows::of_within(ImpFile { at, len }.filename(s)), out)
}

// The file name, in the code page the library was built in.
#[unsafe(no_mangle)]
pub extern "C" fn msft_impfile_filename_bytes(
    s: &[u8],
    at: usize,
    len: usize,
    out: &mut [u8],
) -> i64
    ensures { outcome result out.new ≡ laid (map place (file_name_bytes s.now at len)) out.old }
{
    reply::lay(rows::of_within(ImpFile { at, len }.filename_bytes(s)), out)
}

// The entry's length with its name, filled up to a multiple of four.
#[unsafe(no_mangle)]
pub extern "C" fn msft_impfile_entry_size(s: &[u8], at: usize, len: usize, out: &mut [u8]) -> i64
    ensures { outcome result out.new ≡ laid (imp_file_size_row s.now at len) out.old }
{
    reply::lay(rows::of_within(ImpFile { at, len }.entry_size(s)), out)
}
