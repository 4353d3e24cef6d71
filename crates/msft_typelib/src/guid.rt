// A GUID, by its place.
ghost use Rattle.replies.specs.Call.{laid, outcome, reply};
ghost use Rattle.rows.specs.Values.{place};
ghost use Rattle.records.specs.Answer.{map};
ghost use Rattle.records.specs.Layout.{guid, size_of};
ghost use Rattle.records.specs.Record.{field, place_of, record_place};
ghost use Rattle.texts.specs.Guid.{guid_text};
ghost use Rattle.std.specs.Prelude.{◌≡◌};

use records::guid::Guid;
use replies::reply;

// The place of the 16 bytes.
#[unsafe(no_mangle)]
pub extern "C" fn msft_guid_as_bytes(s: &[u8], at: usize, len: usize, out: &mut [u8]) -> i64
    ensures { outcome result out.new ≡ laid (map place (record_place (size_of guid) s.now at len)) out.old }
{
    reply::lay(rows::of_within(Guid { at, len }.as_bytes(s)), out)
}

#[unsafe(no_mangle)]
pub extern "C" fn msft_guid_data1(s: &[u8], at: usize, len: usize) -> i64
    ensures { result ≡ reply (field guid "Data1" s.now at len) }
{
    reply::of_told(Guid { at, len }.data1(s))
}

#[unsafe(no_mangle)]
pub extern "C" fn msft_guid_data2(s: &[u8], at: usize, len: usize) -> i64
    ensures { result ≡ reply (field guid "Data2" s.now at len) }
{
    reply::of_told(Guid { at, len }.data2(s))
}

#[unsafe(no_mangle)]
pub extern "C" fn msft_guid_data3(s: &[u8], at: usize, len: usize) -> i64
    ensures { result ≡ reply (field guid "Data3" s.now at len) }
{
    reply::of_told(Guid { at, len }.data3(s))
}

// The place of the last eight bytes.
#[unsafe(no_mangle)]
pub extern "C" fn msft_guid_data4(s: &[u8], at: usize, len: usize, out: &mut [u8]) -> i64
    ensures { outcome result out.new ≡ laid (map place (place_of guid "Data4" s.now at len)) out.old }
{
    reply::lay(rows::of_within(Guid { at, len }.data4(s)), out)
}

// The text form, `{XXXXXXXX-XXXX-XXXX-XXXX-XXXXXXXXXXXX}`.
#[unsafe(no_mangle)]
pub extern "C" fn msft_guid_text(s: &[u8], at: usize, len: usize, out: &mut [u8]) -> i64
    ensures { outcome result out.new ≡ laid (guid_text s.now at len) out.old }
{
    reply::of_written(texts::guid::text(Guid { at, len }, s, out))
}
