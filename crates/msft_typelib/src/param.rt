// A function's parameter, by its place.
ghost use Rattle.replies.specs.Call.{bits32, reply, truth};
ghost use Rattle.records.specs.Answer.{map};
ghost use Rattle.records.specs.Automation.{PARAMFLAG_FIN, PARAMFLAG_FOPT, PARAMFLAG_FOUT, PARAMFLAG_FRETVAL};
ghost use Rattle.records.specs.Layout.{parameter_info};
ghost use Rattle.records.specs.Record.{field, flag_set, signed32};
ghost use Rattle.std.specs.Prelude.{◌≡◌};

use member_records::param::ParameterInfo;
use replies::reply;

// The parameter's type field: negative for a base type, else an offset into the type-descriptor
// table.
#[unsafe(no_mangle)]
pub extern "C" fn msft_param_datatype(s: &[u8], at: usize, len: usize) -> i64
    ensures { result ≡ reply (bits32 (signed32 (field parameter_info "DataType" s.now at len))) }
{
    reply::of_told(ParameterInfo { at, len }.datatype(s))
}

// The offset of its name in the name table.
#[unsafe(no_mangle)]
pub extern "C" fn msft_param_name_offset(s: &[u8], at: usize, len: usize) -> i64
    ensures { result ≡ reply (bits32 (signed32 (field parameter_info "oName" s.now at len))) }
{
    reply::of_told(ParameterInfo { at, len }.name_offset(s))
}

// PARAMFLAG bits.
#[unsafe(no_mangle)]
pub extern "C" fn msft_param_flags(s: &[u8], at: usize, len: usize) -> i64
    ensures { result ≡ reply (field parameter_info "Flags" s.now at len) }
{
    reply::of_told(ParameterInfo { at, len }.flags(s))
}

#[unsafe(no_mangle)]
pub extern "C" fn msft_param_is_in(s: &[u8], at: usize, len: usize) -> i64
    ensures { result ≡ reply (truth (map (flag_set PARAMFLAG_FIN) (field parameter_info "Flags" s.now at len))) }
{
    reply::of_told(ParameterInfo { at, len }.is_in(s))
}

#[unsafe(no_mangle)]
pub extern "C" fn msft_param_is_out(s: &[u8], at: usize, len: usize) -> i64
    ensures { result ≡ reply (truth (map (flag_set PARAMFLAG_FOUT) (field parameter_info "Flags" s.now at len))) }
{
    reply::of_told(ParameterInfo { at, len }.is_out(s))
}

#[unsafe(no_mangle)]
pub extern "C" fn msft_param_is_retval(s: &[u8], at: usize, len: usize) -> i64
    ensures { result ≡ reply (truth (map (flag_set PARAMFLAG_FRETVAL) (field parameter_info "Flags" s.now at len))) }
{
    reply::of_told(ParameterInfo { at, len }.is_retval(s))
}

#[unsafe(no_mangle)]
pub extern "C" fn msft_param_is_optional(s: &[u8], at: usize, len: usize) -> i64
    ensures { result ≡ reply (truth (map (flag_set PARAMFLAG_FOPT) (field parameter_info "Flags" s.now at len))) }
{
    reply::of_told(ParameterInfo { at, len }.is_optional(s))
}
