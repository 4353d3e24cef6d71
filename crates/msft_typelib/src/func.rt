// The record of a function, by its place.
ghost use Rattle.replies.specs.Call.{bits16, bits32, laid, outcome, reply, truth};
ghost use Rattle.rows.specs.Values.{place};
ghost use Rattle.records.specs.Answer.{map};
ghost use Rattle.records.specs.Attributes.{arg_cust_data_offset, cust_data_offset, default_value_offset, func_attribute, has_arg_cust_data, has_cust_data, has_default_values};
ghost use Rattle.records.specs.Layout.{func_record, size_of};
ghost use Rattle.records.specs.Record.{bits_of, field, flag_set, record_place, signed16, signed32};
ghost use Rattle.msft_typelib.specs.Rows.{record_size_row};
ghost use Rattle.std.specs.Prelude.{◌≡◌};

use member_records::func::FuncRecord;
use replies::reply;

// The record's bytes.
#[unsafe(no_mangle)]
pub extern "C" fn msft_func_as_bytes(s: &[u8], at: usize, len: usize, out: &mut [u8]) -> i64
    ensures { outcome result out.new ≡ laid (map place (record_place (size_of func_record) s.now at len)) out.old }
{
    reply::lay(rows::of_within(FuncRecord { at, len }.as_bytes(s)), out)
}

// The record's size in its low 16 bits, and the member's index.
#[unsafe(no_mangle)]
pub extern "C" fn msft_func_info(s: &[u8], at: usize, len: usize) -> i64
    ensures { result ≡ reply (field func_record "Info" s.now at len) }
{
    reply::of_told(FuncRecord { at, len }.info(s))
}

#[unsafe(no_mangle)]
pub extern "C" fn msft_func_record_size(s: &[u8], at: usize, len: usize, out: &mut [u8]) -> i64
    ensures { outcome result out.new ≡ laid (record_size_row func_record s.now at len) out.old }
{
    reply::lay(rows::of_within(FuncRecord { at, len }.record_size(s)), out)
}

// The type field of the result.
#[unsafe(no_mangle)]
pub extern "C" fn msft_func_datatype(s: &[u8], at: usize, len: usize) -> i64
    ensures { result ≡ reply (bits32 (signed32 (field func_record "DataType" s.now at len))) }
{
    reply::of_told(FuncRecord { at, len }.datatype(s))
}

// FUNCFLAG bits.
#[unsafe(no_mangle)]
pub extern "C" fn msft_func_flags(s: &[u8], at: usize, len: usize) -> i64
    ensures { result ≡ reply (field func_record "Flags" s.now at len) }
{
    reply::of_told(FuncRecord { at, len }.flags(s))
}

#[unsafe(no_mangle)]
pub extern "C" fn msft_func_vtable_offset(s: &[u8], at: usize, len: usize) -> i64
    ensures { result ≡ reply (bits16 (signed16 (field func_record "VtableOffset" s.now at len))) }
{
    reply::of_told(FuncRecord { at, len }.vtable_offset(s))
}

#[unsafe(no_mangle)]
pub extern "C" fn msft_func_funcdesc_size(s: &[u8], at: usize, len: usize) -> i64
    ensures { result ≡ reply (bits16 (signed16 (field func_record "funcdescsize" s.now at len))) }
{
    reply::of_told(FuncRecord { at, len }.funcdesc_size(s))
}

// Function kind (bits 0 to 2), invoke kind (3 to 6), custom data (7), calling convention (8 to 11),
// default values (12).
#[unsafe(no_mangle)]
pub extern "C" fn msft_func_fkccic(s: &[u8], at: usize, len: usize) -> i64
    ensures { result ≡ reply (field func_record "FKCCIC" s.now at len) }
{
    reply::of_told(FuncRecord { at, len }.fkccic(s))
}

// FUNCKIND: 0 virtual, 1 pure virtual, 2 non-virtual, 3 static, 4 dispatch.
#[unsafe(no_mangle)]
pub extern "C" fn msft_func_func_kind(s: &[u8], at: usize, len: usize) -> i64
    ensures { result ≡ reply (map (bits_of 0 3) (field func_record "FKCCIC" s.now at len)) }
{
    reply::of_told(FuncRecord { at, len }.func_kind(s))
}

// INVOKEKIND: 1 function, 2 property get, 4 property put, 8 property put by reference.
#[unsafe(no_mangle)]
pub extern "C" fn msft_func_invoke_kind(s: &[u8], at: usize, len: usize) -> i64
    ensures { result ≡ reply (map (bits_of 3 4) (field func_record "FKCCIC" s.now at len)) }
{
    reply::of_told(FuncRecord { at, len }.invoke_kind(s))
}

// CALLCONV: 0 fastcall, 1 cdecl, 2 pascal, 4 stdcall.
#[unsafe(no_mangle)]
pub extern "C" fn msft_func_callconv(s: &[u8], at: usize, len: usize) -> i64
    ensures { result ≡ reply (map (bits_of 8 4) (field func_record "FKCCIC" s.now at len)) }
{
    reply::of_told(FuncRecord { at, len }.callconv(s))
}

// The number of parameters.
#[unsafe(no_mangle)]
pub extern "C" fn msft_func_nrargs(s: &[u8], at: usize, len: usize) -> i64
    ensures { result ≡ reply (bits16 (signed16 (field func_record "nrargs" s.now at len))) }
{
    reply::of_told(FuncRecord { at, len }.nrargs(s))
}

// The number of optional parameters.
#[unsafe(no_mangle)]
pub extern "C" fn msft_func_nroargs(s: &[u8], at: usize, len: usize) -> i64
    ensures { result ≡ reply (bits16 (signed16 (field func_record "nroargs" s.now at len))) }
{
    reply::of_told(FuncRecord { at, len }.nroargs(s))
}

// Whether an array of default values stands before the parameters.
#[unsafe(no_mangle)]
pub extern "C" fn msft_func_has_default_values(s: &[u8], at: usize, len: usize) -> i64
    ensures { result ≡ reply (truth (map (flag_set has_default_values) (field func_record "FKCCIC" s.now at len))) }
{
    reply::of_told(FuncRecord { at, len }.has_default_values(s))
}

// Whether the function or its parameters have custom data.
#[unsafe(no_mangle)]
pub extern "C" fn msft_func_has_cust_data(s: &[u8], at: usize, len: usize) -> i64
    ensures { result ≡ reply (truth (map (flag_set has_cust_data) (field func_record "FKCCIC" s.now at len))) }
{
    reply::of_told(FuncRecord { at, len }.has_cust_data(s))
}

// The OffsValue of parameter `index`'s default. The array of one word a parameter lies right before
// the parameters, at the record's end, even over its fixed part.
#[unsafe(no_mangle)]
pub extern "C" fn msft_func_default_value_offset(
    s: &[u8],
    at: usize,
    len: usize,
    index: usize,
) -> i64
    ensures { result ≡ reply (bits32 (default_value_offset index s.now at len)) }
{
    reply::of_told(FuncRecord { at, len }.default_value_offset(s, index))
}

// Whether the record holds custom data offsets of its parameters.
#[unsafe(no_mangle)]
pub extern "C" fn msft_func_has_arg_cust_data(s: &[u8], at: usize, len: usize) -> i64
    ensures { result ≡ reply (truth (has_arg_cust_data s.now at len)) }
{
    reply::of_told(FuncRecord { at, len }.has_arg_cust_data(s))
}

#[unsafe(no_mangle)]
pub extern "C" fn msft_func_help_context(s: &[u8], at: usize, len: usize) -> i64
    ensures { result ≡ reply (bits32 (func_attribute "HelpContext" s.now at len)) }
{
    reply::of_told(FuncRecord { at, len }.help_context(s))
}

// The offset of its help string in the string table.
#[unsafe(no_mangle)]
pub extern "C" fn msft_func_help_string_offset(s: &[u8], at: usize, len: usize) -> i64
    ensures { result ≡ reply (bits32 (func_attribute "oHelpString" s.now at len)) }
{
    reply::of_told(FuncRecord { at, len }.help_string_offset(s))
}

// Of a module's function the entry point in its DLL: an offset in the string table, or an ordinal.
#[unsafe(no_mangle)]
pub extern "C" fn msft_func_oentry(s: &[u8], at: usize, len: usize) -> i64
    ensures { result ≡ reply (bits32 (func_attribute "oEntry" s.now at len)) }
{
    reply::of_told(FuncRecord { at, len }.oentry(s))
}

#[unsafe(no_mangle)]
pub extern "C" fn msft_func_res9(s: &[u8], at: usize, len: usize) -> i64
    ensures { result ≡ reply (bits32 (func_attribute "res9" s.now at len)) }
{
    reply::of_told(FuncRecord { at, len }.res9(s))
}

#[unsafe(no_mangle)]
pub extern "C" fn msft_func_res_a(s: &[u8], at: usize, len: usize) -> i64
    ensures { result ≡ reply (bits32 (func_attribute "resA" s.now at len)) }
{
    reply::of_told(FuncRecord { at, len }.res_a(s))
}

#[unsafe(no_mangle)]
pub extern "C" fn msft_func_helpstringcontext(s: &[u8], at: usize, len: usize) -> i64
    ensures { result ≡ reply (bits32 (func_attribute "HelpStringContext" s.now at len)) }
{
    reply::of_told(FuncRecord { at, len }.helpstringcontext(s))
}

// The offset of the function's custom data in their directory.
#[unsafe(no_mangle)]
pub extern "C" fn msft_func_cust_data_offset(s: &[u8], at: usize, len: usize) -> i64
    ensures { result ≡ reply (bits32 (cust_data_offset s.now at len)) }
{
    reply::of_told(FuncRecord { at, len }.cust_data_offset(s))
}

// The offset of the custom data of parameter `arg_index`.
#[unsafe(no_mangle)]
pub extern "C" fn msft_func_arg_cust_data_offset(
    s: &[u8],
    at: usize,
    len: usize,
    arg_index: usize,
) -> i64
    ensures { result ≡ reply (bits32 (arg_cust_data_offset arg_index s.now at len)) }
{
    reply::of_told(FuncRecord { at, len }.arg_cust_data_offset(s, arg_index))
}
