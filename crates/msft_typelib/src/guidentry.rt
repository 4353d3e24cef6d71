// An entry of the GUID table, by its place.
ghost use Rattle.replies.specs.Call.{bits32, laid, outcome, reply};
ghost use Rattle.rows.specs.Values.{place};
ghost use Rattle.records.specs.Answer.{map};
ghost use Rattle.records.specs.Layout.{guid_entry};
ghost use Rattle.records.specs.Record.{field, place_of, signed32};
ghost use Rattle.std.specs.Prelude.{◌≡◌};

use records::guidentry::GuidEntry;
use replies::reply;

// The GUID itself.
#[unsafe(no_mangle)]
pub extern "C" fn msft_guidentry_guid(s: &[u8], at: usize, len: usize, out: &mut [u8]) -> i64
    ensures { outcome result out.new ≡ laid (map place (place_of guid_entry "guid" s.now at len)) out.old }
{
    reply::lay(rows::of_record(GuidEntry { at, len }.guid(s)), out)
}

// The hreftype of the type it belongs to; -2 for the library's own GUID.
#[unsafe(no_mangle)]
pub extern "C" fn msft_guidentry_hreftype(s: &[u8], at: usize, len: usize) -> i64
    ensures { result ≡ reply (bits32 (signed32 (field guid_entry "hreftype" s.now at len))) }
{
    reply::of_told(GuidEntry { at, len }.hreftype(s))
}

// The offset of the next entry of the hash chain; -1 at its end.
#[unsafe(no_mangle)]
pub extern "C" fn msft_guidentry_next_hash(s: &[u8], at: usize, len: usize) -> i64
    ensures { result ≡ reply (bits32 (signed32 (field guid_entry "next_hash" s.now at len))) }
{
    reply::of_told(GuidEntry { at, len }.next_hash(s))
}
