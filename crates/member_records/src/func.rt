// MSFT_FuncRecord: one function or property accessor of a type (func.rs of the source). Behind its
// fixed part stand the attributes that its length leaves room for, then the default values, then the
// parameters; a missing one is 9.
ghost use Rattle.std.specs.Prelude.{◌≡◌, ◌-◌, ◌/◌};
ghost use Rattle.records.specs.Answer.{map};
ghost use Rattle.records.specs.Attributes.{has_default_values, has_cust_data, argument_count, default_at, default_value_offset, attribute_room, func_attribute_count, func_attribute_at, func_attribute, has_arg_cust_data, custom_at, cust_data_offset, arg_cust_data_offset};
ghost use Rattle.records.specs.Layout.{func_record, size_of};
ghost use Rattle.records.specs.Record.{field, record_place, signed16, signed32, bits_of, flag_set};
ghost use Rattle.records.specs.Told.{told};

use records::answer::{Place, Refusal};
use records::field::Record;

#[derive(Clone, Copy)]
pub struct FuncRecord {
    pub at: usize,
    pub len: usize,
}

impl Record for FuncRecord {
    ghost place = { λ r. record { at = r.at; len = r.len } };

    ghost FIXED = { 24 };

    const FIXED: usize = FuncRecord::BASE_SIZE;

    fn place(self) -> Place {
        Place {
            at: self.at,
            len: self.len,
        }
    }
}

impl FuncRecord {
    pub const BASE_SIZE: usize = 0x18;

    // The record's bytes.
    pub fn as_bytes(self, s: &[u8]) -> Result<Place, Refusal>
        ensures { told result ≡ record_place (size_of func_record) s.now self.at self.len }
    {
        self.own_place(s)
    }

    // The record's size in its low 16 bits, and the member's index.
    pub fn info(self, s: &[u8]) -> Result<u32, Refusal>
        ensures { told result ≡ field func_record "Info" s.now self.at self.len }
    {
        self.field(s, 0x00)
    }

    pub fn record_size(self, s: &[u8]) -> Result<usize, Refusal>
        ensures { told result ≡ map (bits_of 0 16) (field func_record "Info" s.now self.at self.len) }
    {
        self.bits(s, 0x00, 0, 16)
    }

    // The type field of the result.
    pub fn datatype(self, s: &[u8]) -> Result<i32, Refusal>
        ensures { told result ≡ signed32 (field func_record "DataType" s.now self.at self.len) }
    {
        self.field(s, 0x04)
    }

    // FUNCFLAG bits.
    pub fn flags(self, s: &[u8]) -> Result<u32, Refusal>
        ensures { told result ≡ field func_record "Flags" s.now self.at self.len }
    {
        self.field(s, 0x08)
    }

    pub fn vtable_offset(self, s: &[u8]) -> Result<i16, Refusal>
        ensures { told result ≡ signed16 (field func_record "VtableOffset" s.now self.at self.len) }
    {
        self.field(s, 0x0C)
    }

    pub fn funcdesc_size(self, s: &[u8]) -> Result<i16, Refusal>
        ensures { told result ≡ signed16 (field func_record "funcdescsize" s.now self.at self.len) }
    {
        self.field(s, 0x0E)
    }

    // Function kind (bits 0 to 2), invoke kind (3 to 6), custom data (7), calling convention (8 to 11),
    // default values (12).
    pub fn fkccic(self, s: &[u8]) -> Result<u32, Refusal>
        ensures { told result ≡ field func_record "FKCCIC" s.now self.at self.len }
    {
        self.field(s, 0x10)
    }

    // FUNCKIND: 0 virtual, 1 pure virtual, 2 non-virtual, 3 static, 4 dispatch.
    pub fn func_kind(self, s: &[u8]) -> Result<u8, Refusal>
        ensures { told result ≡ map (bits_of 0 3) (field func_record "FKCCIC" s.now self.at self.len) }
    {
        self.bits(s, 0x10, 0, 3)
    }

    // INVOKEKIND: 1 function, 2 property get, 4 property put, 8 property put by reference.
    pub fn invoke_kind(self, s: &[u8]) -> Result<u8, Refusal>
        ensures { told result ≡ map (bits_of 3 4) (field func_record "FKCCIC" s.now self.at self.len) }
    {
        self.bits(s, 0x10, 3, 4)
    }

    // CALLCONV: 0 fastcall, 1 cdecl, 2 pascal, 4 stdcall.
    pub fn callconv(self, s: &[u8]) -> Result<u8, Refusal>
        ensures { told result ≡ map (bits_of 8 4) (field func_record "FKCCIC" s.now self.at self.len) }
    {
        self.bits(s, 0x10, 8, 4)
    }

    // The number of parameters.
    pub fn nrargs(self, s: &[u8]) -> Result<i16, Refusal>
        ensures { told result ≡ signed16 (field func_record "nrargs" s.now self.at self.len) }
    {
        self.field(s, 0x14)
    }

    // The number of optional parameters.
    pub fn nroargs(self, s: &[u8]) -> Result<i16, Refusal>
        ensures { told result ≡ signed16 (field func_record "nroargs" s.now self.at self.len) }
    {
        self.field(s, 0x16)
    }

    // Whether an array of default values stands before the parameters.
    pub fn has_default_values(self, s: &[u8]) -> Result<bool, Refusal>
        ensures { told result ≡ map (flag_set has_default_values) (field func_record "FKCCIC" s.now self.at self.len) }
    {
        self.flag(s, 0x10, 12)
    }

    // Whether the function or its parameters have custom data.
    pub fn has_cust_data(self, s: &[u8]) -> Result<bool, Refusal>
        ensures { told result ≡ map (flag_set has_cust_data) (field func_record "FKCCIC" s.now self.at self.len) }
    {
        self.flag(s, 0x10, 7)
    }

    // The number of parameters, none where it is negative. (By its bits: `u16::try_from` of an `i16` would be no plainer.)
    pub fn argument_count(self, s: &[u8]) -> Result<u16, Refusal>
        ensures { told result ≡ argument_count s.now self.at self.len }
    {
        let x = self.field::<u16>(s, 0x14)?;
        if x < 0x8000 { Ok(x) } else { Ok(0) }
    }

    // The OffsValue of parameter `index`'s default. The array of one word a parameter lies right before
    // the parameters, at the record's end, even over its fixed part.
    pub fn default_value_offset(self, s: &[u8], index: usize) -> Result<i32, Refusal>
        ensures { told result ≡ default_value_offset index s.now self.at self.len }
    {
        let present = self.has_default_values(s)?;
        let count = self.argument_count(s)?;
        self.default_at(s, index, count, present)
    }

    // The word of parameter `index` in an array of `count`, where one is present.
    fn default_at(self, s: &[u8], index: usize, count: u16, present: bool) -> Result<i32, Refusal>
        ensures { told result ≡ default_at index count present s.now self.at self.len }
    {
        let len = self.len;
        let n = count as usize;
        if n <= index {
            return Err(Refusal::NothingThere);
        }
        if len < 16 * n {
            return Err(Refusal::NothingThere);
        }
        if present {
            return self.field::<i32>(s, len - 16 * n + 4 * index);
        }
        Err(Refusal::NothingThere)
    }

    // How many attributes the record's own size has room for, before the default values and the
    // parameters.
    fn nrattribs(self, s: &[u8]) -> Result<u16, Refusal>
        ensures { told result ≡ func_attribute_count s.now self.at self.len }
    {
        let size = self.bits::<u16>(s, 0x00, 0, 16)?;
        let count = self.argument_count(s)?;
        let defaults = self.has_default_values(s)?;
        Ok(attribute_room(size, count, defaults))
    }

    // Attribute `k`, counted from 0.
    fn attribute(self, s: &[u8], k: usize) -> Result<i32, Refusal>
        ensures { told result ≡ func_attribute_at k s.now self.at self.len }
    {
        let count = self.nrattribs(s)?;
        if count as usize <= k {
            return Err(Refusal::NothingThere);
        }
        self.field(s, 0x18 + 4 * k)
    }

    // Whether the record holds custom data offsets of its parameters.
    pub fn has_arg_cust_data(self, s: &[u8]) -> Result<bool, Refusal>
        ensures { told result ≡ has_arg_cust_data s.now self.at self.len }
    {
        let custom = self.has_cust_data(s)?;
        let count = self.nrattribs(s)?;
        Ok(custom && 7 < count)
    }

    pub fn help_context(self, s: &[u8]) -> Result<i32, Refusal>
        ensures { told result ≡ func_attribute "HelpContext" s.now self.at self.len }
    {
        self.attribute(s, 0)
    }

    // The offset of its help string in the string table.
    pub fn help_string_offset(self, s: &[u8]) -> Result<i32, Refusal>
        ensures { told result ≡ func_attribute "oHelpString" s.now self.at self.len }
    {
        self.attribute(s, 1)
    }

    // Of a module's function the entry point in its DLL: an offset in the string table, or an ordinal.
    pub fn oentry(self, s: &[u8]) -> Result<i32, Refusal>
        ensures { told result ≡ func_attribute "oEntry" s.now self.at self.len }
    {
        self.attribute(s, 2)
    }

    pub fn res9(self, s: &[u8]) -> Result<i32, Refusal>
        ensures { told result ≡ func_attribute "res9" s.now self.at self.len }
    {
        self.attribute(s, 3)
    }

    pub fn res_a(self, s: &[u8]) -> Result<i32, Refusal>
        ensures { told result ≡ func_attribute "resA" s.now self.at self.len }
    {
        self.attribute(s, 4)
    }

    pub fn helpstringcontext(self, s: &[u8]) -> Result<i32, Refusal>
        ensures { told result ≡ func_attribute "HelpStringContext" s.now self.at self.len }
    {
        self.attribute(s, 5)
    }

    // The offset of the function's custom data in their directory.
    pub fn cust_data_offset(self, s: &[u8]) -> Result<i32, Refusal>
        ensures { told result ≡ cust_data_offset s.now self.at self.len }
    {
        self.custom(s, 6)
    }

    // Attribute `k` of a function that has custom data.
    fn custom(self, s: &[u8], k: usize) -> Result<i32, Refusal>
        ensures { told result ≡ custom_at k s.now self.at self.len }
    {
        let present = self.has_cust_data(s)?;
        if present {
            self.attribute(s, k)
        } else {
            Err(Refusal::NothingThere)
        }
    }

    // The offset of the custom data of parameter `arg_index`.
    pub fn arg_cust_data_offset(self, s: &[u8], arg_index: usize) -> Result<i32, Refusal>
        ensures { told result ≡ arg_cust_data_offset arg_index s.now self.at self.len }
    {
        let count = self.argument_count(s)?;
        if count as usize <= arg_index {
            return Err(Refusal::NothingThere);
        }
        self.custom(s, 7 + arg_index)
    }
}

// The words between the fixed part and the default values of a record of that size.
// (A flag of the record, and no switch: with default values each parameter takes a word more.)
fn attribute_room(size: u16, count: u16, defaults: bool) -> u16
    ensures { result ≡ attribute_room size count defaults }
{
    let n = count as u32;
    if defaults {
        words_after(size, 24 + 16 * n)
    } else {
        words_after(size, 24 + 12 * n)
    }
}

fn words_after(size: u16, used: u32) -> u16
    ensures { result ≡ (size - used) / 4 }
{
    ((size as u32).saturating_sub(used) / 4) as u16
}
