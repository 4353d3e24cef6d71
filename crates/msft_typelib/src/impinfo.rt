// An import record, by its place.
ghost use Rattle.replies.specs.Call.{bits32, reply};
ghost use Rattle.records.specs.Layout.{imp_info};
ghost use Rattle.records.specs.Record.{field, signed32};
ghost use Rattle.std.specs.Prelude.{◌≡◌};

use records::impinfo::ImpInfo;
use replies::reply;

// Bit 16: the last field is an offset into the GUID table. Bits 24 to 31: the TYPEKIND.
#[unsafe(no_mangle)]
pub extern "C" fn msft_impinfo_flags(s: &[u8], at: usize, len: usize) -> i64
    ensures { result ≡ reply (field imp_info "flags" s.now at len) }
{
    reply::of_told(ImpInfo { at, len }.flags(s))
}

// The offset of the import file in its table.
#[unsafe(no_mangle)]
pub extern "C" fn msft_impinfo_imp_file_offset(s: &[u8], at: usize, len: usize) -> i64
    ensures { result ≡ reply (bits32 (signed32 (field imp_info "oImpFile" s.now at len))) }
{
    reply::of_told(ImpInfo { at, len }.imp_file_offset(s))
}

// The offset of the GUID in its table, or the index of the type in the imported library.
#[unsafe(no_mangle)]
pub extern "C" fn msft_impinfo_guid_offset(s: &[u8], at: usize, len: usize) -> i64
    ensures { result ≡ reply (bits32 (signed32 (field imp_info "oGuid" s.now at len))) }
{
    reply::of_told(ImpInfo { at, len }.guid_offset(s))
}
