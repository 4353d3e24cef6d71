// MSFT_ImpInfo: one imported type (impinfo.rs of the source).
ghost use Rattle.std.specs.Prelude.{◌≡◌};
ghost use Rattle.records.specs.Layout.{imp_info};
ghost use Rattle.records.specs.Record.{field, signed32};
ghost use Rattle.records.specs.Told.{told};

use crate::answer::{Place, Refusal};
use crate::field::Record;

#[derive(Clone, Copy)]
pub struct ImpInfo {
    pub at: usize,
    pub len: usize,
}

impl Record for ImpInfo {
    ghost place = { λ r. record { at = r.at; len = r.len } };

    ghost FIXED = { 12 };

    const FIXED: usize = ImpInfo::SIZE;

    fn place(self) -> Place {
        Place {
            at: self.at,
            len: self.len,
        }
    }
}

impl ImpInfo {
    pub const SIZE: usize = 12;

    // Bit 16: the last field is an offset into the GUID table. Bits 24 to 31: the TYPEKIND.
    pub fn flags(self, s: &[u8]) -> Result<u32, Refusal>
        ensures { told result ≡ field imp_info "flags" s.now self.at self.len }
    {
        self.field(s, 0x00)
    }

    // The offset of the import file in its table.
    pub fn imp_file_offset(self, s: &[u8]) -> Result<i32, Refusal>
        ensures { told result ≡ signed32 (field imp_info "oImpFile" s.now self.at self.len) }
    {
        self.field(s, 0x04)
    }

    // The offset of the GUID in its table, or the index of the type in the imported library.
    pub fn guid_offset(self, s: &[u8]) -> Result<i32, Refusal>
        ensures { told result ≡ signed32 (field imp_info "oGuid" s.now self.at self.len) }
    {
        self.field(s, 0x08)
    }
}
