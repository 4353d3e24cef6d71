// A record of a chain of implemented types, by its place.
ghost use Rattle.replies.specs.Call.{bits32, reply, truth};
ghost use Rattle.records.specs.Answer.{map};
ghost use Rattle.records.specs.Automation.{IMPLTYPEFLAG_FDEFAULT, IMPLTYPEFLAG_FRESTRICTED, IMPLTYPEFLAG_FSOURCE};
ghost use Rattle.records.specs.Layout.{ref_record};
ghost use Rattle.records.specs.Record.{field, flag_set, signed32};
ghost use Rattle.std.specs.Prelude.{◌≡◌};

use records::refrecord::RefRecord;
use replies::reply;

// The hreftype of the interface.
#[unsafe(no_mangle)]
pub extern "C" fn msft_ref_reftype(s: &[u8], at: usize, len: usize) -> i64
    ensures { result ≡ reply (bits32 (signed32 (field ref_record "reftype" s.now at len))) }
{
    reply::of_told(RefRecord { at, len }.reftype(s))
}

// IMPLTYPEFLAG bits.
#[unsafe(no_mangle)]
pub extern "C" fn msft_ref_flags(s: &[u8], at: usize, len: usize) -> i64
    ensures { result ≡ reply (field ref_record "flags" s.now at len) }
{
    reply::of_told(RefRecord { at, len }.flags(s))
}

// The offset of the next record of the chain; -1 at its end.
#[unsafe(no_mangle)]
pub extern "C" fn msft_ref_onext(s: &[u8], at: usize, len: usize) -> i64
    ensures { result ≡ reply (bits32 (signed32 (field ref_record "onext" s.now at len))) }
{
    reply::of_told(RefRecord { at, len }.onext(s))
}

#[unsafe(no_mangle)]
pub extern "C" fn msft_ref_is_default(s: &[u8], at: usize, len: usize) -> i64
    ensures { result ≡ reply (truth (map (flag_set IMPLTYPEFLAG_FDEFAULT) (field ref_record "flags" s.now at len))) }
{
    reply::of_told(RefRecord { at, len }.is_default(s))
}

#[unsafe(no_mangle)]
pub extern "C" fn msft_ref_is_source(s: &[u8], at: usize, len: usize) -> i64
    ensures { result ≡ reply (truth (map (flag_set IMPLTYPEFLAG_FSOURCE) (field ref_record "flags" s.now at len))) }
{
    reply::of_told(RefRecord { at, len }.is_source(s))
}

#[unsafe(no_mangle)]
pub extern "C" fn msft_ref_is_restricted(s: &[u8], at: usize, len: usize) -> i64
    ensures { result ≡ reply (truth (map (flag_set IMPLTYPEFLAG_FRESTRICTED) (field ref_record "flags" s.now at len))) }
{
    reply::of_told(RefRecord { at, len }.is_restricted(s))
}
