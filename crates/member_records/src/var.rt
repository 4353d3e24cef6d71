// MSFT_VarRecord: one constant, field or dispatch property of a type (var.rs of the source). Behind
// its fixed part stand the attributes that its length leaves room for; a missing one is 9.
ghost use Rattle.std.specs.Prelude.{◌≡◌};
ghost use Rattle.records.specs.Answer.{map};
ghost use Rattle.records.specs.Attributes.{var_attribute_count, var_attribute_at, var_attribute};
ghost use Rattle.records.specs.Layout.{var_record, size_of};
ghost use Rattle.records.specs.Record.{field, record_place, signed16, signed32, bits_of};
ghost use Rattle.records.specs.Told.{told};
ghost use Rattle.member_records.specs.Told.{told_var};

use records::answer::{Place, Refusal};
use records::field::Record;

#[derive(Clone, Copy)]
pub struct VarRecord {
    pub at: usize,
    pub len: usize,
}

impl Record for VarRecord {
    ghost place = { λ r. record { at = r.at; len = r.len } };

    ghost FIXED = { 20 };

    const FIXED: usize = VarRecord::BASE_SIZE;

    fn place(self) -> Place {
        Place {
            at: self.at,
            len: self.len,
        }
    }
}

impl VarRecord {
    pub const BASE_SIZE: usize = 0x14;

    // The record at that place; 9 where it is shorter than its fixed part or not inside the bytes.
    pub fn from_raw(s: &[u8], at: usize, len: usize) -> Result<VarRecord, Refusal>
        ensures { told_var result ≡ record_place (size_of var_record) s.now at len }
    {
        let record = VarRecord { at, len };
        record.own_place(s)?;
        Ok(record)
    }

    // The record's bytes.
    pub fn as_bytes(self, s: &[u8]) -> Result<Place, Refusal>
        ensures { told result ≡ record_place (size_of var_record) s.now self.at self.len }
    {
        self.own_place(s)
    }

    // The record's size in its low 16 bits, and the member's index.
    pub fn info(self, s: &[u8]) -> Result<u32, Refusal>
        ensures { told result ≡ field var_record "Info" s.now self.at self.len }
    {
        self.field(s, 0x00)
    }

    pub fn record_size(self, s: &[u8]) -> Result<usize, Refusal>
        ensures { told result ≡ map (bits_of 0 16) (field var_record "Info" s.now self.at self.len) }
    {
        self.bits(s, 0x00, 0, 16)
    }

    // The variable's type field.
    pub fn datatype(self, s: &[u8]) -> Result<i32, Refusal>
        ensures { told result ≡ signed32 (field var_record "DataType" s.now self.at self.len) }
    {
        self.field(s, 0x04)
    }

    // VARFLAG bits.
    pub fn flags(self, s: &[u8]) -> Result<u32, Refusal>
        ensures { told result ≡ field var_record "Flags" s.now self.at self.len }
    {
        self.field(s, 0x08)
    }

    // VARKIND: 0 per instance, 1 static, 2 constant, 3 dispatch.
    pub fn varkind(self, s: &[u8]) -> Result<i16, Refusal>
        ensures { told result ≡ signed16 (field var_record "VarKind" s.now self.at self.len) }
    {
        self.field(s, 0x0C)
    }

    pub fn vardesc_size(self, s: &[u8]) -> Result<i16, Refusal>
        ensures { told result ≡ signed16 (field var_record "vardescsize" s.now self.at self.len) }
    {
        self.field(s, 0x0E)
    }

    // Of a constant its value or the value's place, of any other variable its offset in the instance.
    pub fn offs_value(self, s: &[u8]) -> Result<i32, Refusal>
        ensures { told result ≡ signed32 (field var_record "OffsValue" s.now self.at self.len) }
    {
        self.field(s, 0x10)
    }

    // How many attributes the record's own size has room for.
    fn nrattribs(self, s: &[u8]) -> Result<u16, Refusal>
        ensures { told result ≡ var_attribute_count s.now self.at self.len }
    {
        let size = self.bits::<u16>(s, 0x00, 0, 16)?;
        if size < 0x14 {
            Ok(0)
        } else {
            Ok((size - 0x14) / 4)
        }
    }

    // Attribute `k`, counted from 0.
    fn attribute(self, s: &[u8], k: usize) -> Result<i32, Refusal>
        ensures { told result ≡ var_attribute_at k s.now self.at self.len }
    {
        let count = self.nrattribs(s)?;
        if count as usize <= k {
            return Err(Refusal::NothingThere);
        }
        self.field(s, 0x14 + 4 * k)
    }

    pub fn help_context(self, s: &[u8]) -> Result<i32, Refusal>
        ensures { told result ≡ var_attribute "HelpContext" s.now self.at self.len }
    {
        self.attribute(s, 0)
    }

    // The offset of its help string in the string table.
    pub fn help_string_offset(self, s: &[u8]) -> Result<i32, Refusal>
        ensures { told result ≡ var_attribute "HelpString" s.now self.at self.len }
    {
        self.attribute(s, 1)
    }

    pub fn res9(self, s: &[u8]) -> Result<i32, Refusal>
        ensures { told result ≡ var_attribute "res9" s.now self.at self.len }
    {
        self.attribute(s, 2)
    }

    // The offset of its custom data in their directory.
    pub fn cust_data_offset(self, s: &[u8]) -> Result<i32, Refusal>
        ensures { told result ≡ var_attribute "oCustData" s.now self.at self.len }
    {
        self.attribute(s, 3)
    }

    pub fn helpstringcontext(self, s: &[u8]) -> Result<i32, Refusal>
        ensures { told result ≡ var_attribute "HelpStringContext" s.now self.at self.len }
    {
        self.attribute(s, 4)
    }
}
