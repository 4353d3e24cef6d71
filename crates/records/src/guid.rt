// A GUID: its fields (guid.rs of the source). Its text form is in `texts`.
ghost use Rattle.std.specs.Prelude.{◌≡◌};
ghost use Rattle.records.specs.Layout.{guid, size_of};
ghost use Rattle.records.specs.Record.{field, place_of, record_place};
ghost use Rattle.records.specs.Told.{told};

use crate::answer::{Place, Refusal};
use crate::field::Record;

#[derive(Clone, Copy)]
pub struct Guid {
    pub at: usize,
    pub len: usize,
}

impl Record for Guid {
    ghost place = { λ r. record { at = r.at; len = r.len } };

    ghost FIXED = { 16 };

    const FIXED: usize = Guid::SIZE;

    fn place(self) -> Place {
        Place {
            at: self.at,
            len: self.len,
        }
    }
}

impl Guid {
    pub const SIZE: usize = 16;

    // The place of the 16 bytes.
    pub fn as_bytes(self, s: &[u8]) -> Result<Place, Refusal>
        ensures { told result ≡ record_place (size_of guid) s.now self.at self.len }
    {
        self.own_place(s)
    }

    pub fn data1(self, s: &[u8]) -> Result<u32, Refusal>
        ensures { told result ≡ field guid "Data1" s.now self.at self.len }
    {
        self.field(s, 0x00)
    }

    pub fn data2(self, s: &[u8]) -> Result<u16, Refusal>
        ensures { told result ≡ field guid "Data2" s.now self.at self.len }
    {
        self.field(s, 0x04)
    }

    pub fn data3(self, s: &[u8]) -> Result<u16, Refusal>
        ensures { told result ≡ field guid "Data3" s.now self.at self.len }
    {
        self.field(s, 0x06)
    }

    // The place of the last eight bytes.
    pub fn data4(self, s: &[u8]) -> Result<Place, Refusal>
        ensures { told result ≡ place_of guid "Data4" s.now self.at self.len }
    {
        self.part(s, 0x08, 8)
    }
}
