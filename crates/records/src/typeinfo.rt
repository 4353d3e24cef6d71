// MSFT_TypeInfoBase: one type of the library (typeinfo.rs of the source).
ghost use Rattle.std.specs.Prelude.{◌≡◌};
ghost use Rattle.records.specs.Answer.{map};
ghost use Rattle.records.specs.Layout.{type_info_base, size_of};
ghost use Rattle.records.specs.Record.{field, record_place, signed16, signed32, bits_of};
ghost use Rattle.records.specs.Types.{kind_of};
ghost use Rattle.records.specs.Told.{told};

use crate::answer::{Place, Refusal};
use crate::field::Record;
use crate::types::TypeKind;

#[derive(Clone, Copy)]
pub struct TypeInfoEntry {
    pub at: usize,
    pub len: usize,
}

impl Record for TypeInfoEntry {
    ghost place = { λ r. record { at = r.at; len = r.len } };

    ghost FIXED = { 100 };

    const FIXED: usize = TypeInfoEntry::SIZE;

    fn place(self) -> Place {
        Place {
            at: self.at,
            len: self.len,
        }
    }
}

impl TypeInfoEntry {
    pub const SIZE: usize = 0x64;

    // The record's bytes.
    pub fn as_bytes(self, s: &[u8]) -> Result<Place, Refusal>
        ensures { told result ≡ record_place (size_of type_info_base) s.now self.at self.len }
    {
        self.own_place(s)
    }

    // The kind, in the low four bits of its field.
    pub fn typekind(self, s: &[u8]) -> Result<TypeKind, Refusal>
        ensures { told result ≡ map kind_of (map (bits_of 0 4) (field type_info_base "typekind" s.now self.at self.len)) }
    {
        let raw = self.bits(s, 0x00, 0, 4)?;
        Ok(TypeKind::from_raw(raw))
    }

    // The whole field: the kind in its low four bits, the alignment in bits 11 to 15.
    pub fn typekind_raw(self, s: &[u8]) -> Result<u32, Refusal>
        ensures { told result ≡ field type_info_base "typekind" s.now self.at self.len }
    {
        self.field(s, 0x00)
    }

    // The file offset of the block of function and variable records; negative where there is none.
    pub fn memoffset(self, s: &[u8]) -> Result<i32, Refusal>
        ensures { told result ≡ signed32 (field type_info_base "memoffset" s.now self.at self.len) }
    {
        self.field(s, 0x04)
    }

    pub fn res2(self, s: &[u8]) -> Result<i32, Refusal>
        ensures { told result ≡ signed32 (field type_info_base "res2" s.now self.at self.len) }
    {
        self.field(s, 0x08)
    }

    // The declared counts: functions in the low half, variables in the high half.
    pub fn celement(self, s: &[u8]) -> Result<u32, Refusal>
        ensures { told result ≡ field type_info_base "cElement" s.now self.at self.len }
    {
        self.field(s, 0x18)
    }

    pub fn func_count(self, s: &[u8]) -> Result<u16, Refusal>
        ensures { told result ≡ map (bits_of 0 16) (field type_info_base "cElement" s.now self.at self.len) }
    {
        self.bits(s, 0x18, 0, 16)
    }

    pub fn var_count(self, s: &[u8]) -> Result<u16, Refusal>
        ensures { told result ≡ map (bits_of 16 16) (field type_info_base "cElement" s.now self.at self.len) }
    {
        self.bits(s, 0x18, 16, 16)
    }

    // The offset of the type's GUID in its table; -1 where it has none.
    pub fn guid_offset(self, s: &[u8]) -> Result<i32, Refusal>
        ensures { told result ≡ signed32 (field type_info_base "posguid" s.now self.at self.len) }
    {
        self.field(s, 0x2C)
    }

    // TYPEFLAG bits.
    pub fn flags(self, s: &[u8]) -> Result<u32, Refusal>
        ensures { told result ≡ field type_info_base "flags" s.now self.at self.len }
    {
        self.field(s, 0x30)
    }

    // The offset of its name in the name table.
    pub fn name_offset(self, s: &[u8]) -> Result<i32, Refusal>
        ensures { told result ≡ signed32 (field type_info_base "NameOffset" s.now self.at self.len) }
    {
        self.field(s, 0x34)
    }

    pub fn version(self, s: &[u8]) -> Result<u32, Refusal>
        ensures { told result ≡ field type_info_base "version" s.now self.at self.len }
    {
        self.field(s, 0x38)
    }

    // The offset of its doc string in the string table; -1 where it has none.
    pub fn docstring_offset(self, s: &[u8]) -> Result<i32, Refusal>
        ensures { told result ≡ signed32 (field type_info_base "docstringoffs" s.now self.at self.len) }
    {
        self.field(s, 0x3C)
    }

    // How many interfaces it implements.
    pub fn cimpltypes(self, s: &[u8]) -> Result<i16, Refusal>
        ensures { told result ≡ signed16 (field type_info_base "cImplTypes" s.now self.at self.len) }
    {
        self.field(s, 0x4C)
    }

    // The size of its virtual table in bytes.
    pub fn cb_size_vft(self, s: &[u8]) -> Result<i16, Refusal>
        ensures { told result ≡ signed16 (field type_info_base "cbSizeVft" s.now self.at self.len) }
    {
        self.field(s, 0x4E)
    }

    // The size of an instance in bytes.
    pub fn size(self, s: &[u8]) -> Result<i32, Refusal>
        ensures { told result ≡ signed32 (field type_info_base "size" s.now self.at self.len) }
    {
        self.field(s, 0x50)
    }

    // Of a coclass the offset of its first reference, of an alias the type field it stands for, of an
    // interface the hreftype of its base.
    pub fn datatype1(self, s: &[u8]) -> Result<i32, Refusal>
        ensures { told result ≡ signed32 (field type_info_base "datatype1" s.now self.at self.len) }
    {
        self.field(s, 0x54)
    }

    pub fn datatype2(self, s: &[u8]) -> Result<i32, Refusal>
        ensures { told result ≡ signed32 (field type_info_base "datatype2" s.now self.at self.len) }
    {
        self.field(s, 0x58)
    }

    pub fn helpstringcontext(self, s: &[u8]) -> Result<i32, Refusal>
        ensures { told result ≡ signed32 (field type_info_base "helpstringcontext" s.now self.at self.len) }
    {
        self.field(s, 0x40)
    }

    pub fn helpcontext(self, s: &[u8]) -> Result<i32, Refusal>
        ensures { told result ≡ signed32 (field type_info_base "helpcontext" s.now self.at self.len) }
    {
        self.field(s, 0x44)
    }

    // The offset of its custom data in their directory; -1 where it has none.
    pub fn cust_data_offset(self, s: &[u8]) -> Result<i32, Refusal>
        ensures { told result ≡ signed32 (field type_info_base "oCustData" s.now self.at self.len) }
    {
        self.field(s, 0x48)
    }

    pub fn res3(self, s: &[u8]) -> Result<i32, Refusal>
        ensures { told result ≡ signed32 (field type_info_base "res3" s.now self.at self.len) }
    {
        self.field(s, 0x0C)
    }

    pub fn res18(self, s: &[u8]) -> Result<i32, Refusal>
        ensures { told result ≡ signed32 (field type_info_base "res18" s.now self.at self.len) }
    {
        self.field(s, 0x5C)
    }

    pub fn res19(self, s: &[u8]) -> Result<i32, Refusal>
        ensures { told result ≡ signed32 (field type_info_base "res19" s.now self.at self.len) }
    {
        self.field(s, 0x60)
    }
}
