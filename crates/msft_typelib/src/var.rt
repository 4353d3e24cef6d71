// The record of a variable, by its place.
ghost use Rattle.replies.specs.Call.{bits16, bits32, laid, outcome, reply};
ghost use Rattle.rows.specs.Values.{place};
ghost use Rattle.records.specs.Answer.{map};
ghost use Rattle.records.specs.Attributes.{var_attribute};
ghost use Rattle.records.specs.Layout.{size_of, var_record};
ghost use Rattle.records.specs.Record.{field, record_place, signed16, signed32};
ghost use Rattle.msft_typelib.specs.Rows.{record_size_row};
ghost use Rattle.std.specs.Prelude.{◌≡◌};

use member_records::var::VarRecord;
use replies::reply;

// The record at that place; 9 where it is shorter than its fixed part or not inside the bytes.
#[unsafe(no_mangle)]
pub extern "C" fn msft_var_from_raw(s: &[u8], at: usize, len: usize, out: &mut [u8]) -> i64
    ensures { outcome result out.new ≡ laid (map place (record_place (size_of var_record) s.now at len)) out.old }
{
    reply::lay(rows::of_record(VarRecord::from_raw(s, at, len)), out)
}

// The record's bytes.
#[unsafe(no_mangle)]
pub extern "C" fn msft_var_as_bytes(s: &[u8], at: usize, len: usize, out: &mut [u8]) -> i64
    ensures { outcome result out.new ≡ laid (map place (record_place (size_of var_record) s.now at len)) out.old }
{
    reply::lay(rows::of_within(VarRecord { at, len }.as_bytes(s)), out)
}

// The record's size in its low 16 bits, and the member's index.
#[unsafe(no_mangle)]
pub extern "C" fn msft_var_info(s: &[u8], at: usize, len: usize) -> i64
    ensures { result ≡ reply (field var_record "Info" s.now at len) }
{
    reply::of_told(VarRecord { at, len }.info(s))
}

#[unsafe(no_mangle)]
pub extern "C" fn msft_var_record_size(s: &[u8], at: usize, len: usize, out: &mut [u8]) -> i64
    ensures { outcome result out.new ≡ laid (record_size_row var_record s.now at len) out.old }
{
    reply::lay(rows::of_within(VarRecord { at, len }.record_size(s)), out)
}

// The variable's type field.
#[unsafe(no_mangle)]
pub extern "C" fn msft_var_datatype(s: &[u8], at: usize, len: usize) -> i64
    ensures { result ≡ reply (bits32 (signed32 (field var_record "DataType" s.now at len))) }
{
    reply::of_told(VarRecord { at, len }.datatype(s))
}

// VARFLAG bits.
#[unsafe(no_mangle)]
pub extern "C" fn msft_var_flags(s: &[u8], at: usize, len: usize) -> i64
    ensures { result ≡ reply (field var_record "Flags" s.now at len) }
{
    reply::of_told(VarRecord { at, len }.flags(s))
}

// VARKIND: 0 per instance, 1 static, 2 constant, 3 dispatch.
#[unsafe(no_mangle)]
pub extern "C" fn msft_var_varkind(s: &[u8], at: usize, len: usize) -> i64
    ensures { result ≡ reply (bits16 (signed16 (field var_record "VarKind" s.now at len))) }
{
    reply::of_told(VarRecord { at, len }.varkind(s))
}

#[unsafe(no_mangle)]
pub extern "C" fn msft_var_vardesc_size(s: &[u8], at: usize, len: usize) -> i64
    ensures { result ≡ reply (bits16 (signed16 (field var_record "vardescsize" s.now at len))) }
{
    reply::of_told(VarRecord { at, len }.vardesc_size(s))
}

// Of a constant its value or the value's place, of any other variable its offset in the instance.
#[unsafe(no_mangle)]
pub extern "C" fn msft_var_offs_value(s: &[u8], at: usize, len: usize) -> i64
    ensures { result ≡ reply (bits32 (signed32 (field var_record "OffsValue" s.now at len))) }
{
    reply::of_told(VarRecord { at, len }.offs_value(s))
}

#[unsafe(no_mangle)]
pub extern "C" fn msft_var_help_context(s: &[u8], at: usize, len: usize) -> i64
    ensures { result ≡ reply (bits32 (var_attribute "HelpContext" s.now at len)) }
{
    reply::of_told(VarRecord { at, len }.help_context(s))
}

// The offset of its help string in the string table.
#[unsafe(no_mangle)]
pub extern "C" fn msft_var_help_string_offset(s: &[u8], at: usize, len: usize) -> i64
    ensures { result ≡ reply (bits32 (var_attribute "HelpString" s.now at len)) }
{
    reply::of_told(VarRecord { at, len }.help_string_offset(s))
}

#[unsafe(no_mangle)]
pub extern "C" fn msft_var_res9(s: &[u8], at: usize, len: usize) -> i64
    ensures { result ≡ reply (bits32 (var_attribute "res9" s.now at len)) }
{
    reply::of_told(VarRecord { at, len }.res9(s))
}

// The offset of its custom data in their directory.
#[unsafe(no_mangle)]
pub extern "C" fn msft_var_cust_data_offset(s: &[u8], at: usize, len: usize) -> i64
    ensures { result ≡ reply (bits32 (var_attribute "oCustData" s.now at len)) }
{
    reply::of_told(VarRecord { at, len }.cust_data_offset(s))
}

#[unsafe(no_mangle)]
pub extern "C" fn msft_var_helpstringcontext(s: &[u8], at: usize, len: usize) -> i64
    ensures { result ≡ reply (bits32 (var_attribute "HelpStringContext" s.now at len)) }
{
    reply::of_told(VarRecord { at, len }.helpstringcontext(s))
}
