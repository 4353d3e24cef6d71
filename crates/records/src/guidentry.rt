// MSFT_GuidEntry: one entry of the GUID table (guidentry.rs of the source).
ghost use Rattle.std.specs.Prelude.{◌≡◌};
ghost use Rattle.records.specs.Layout.{guid_entry};
ghost use Rattle.records.specs.Record.{field, place_of, signed32};
ghost use Rattle.records.specs.Told.{told, told_guid};

use crate::answer::{Place, Refusal};
use crate::field::Record;
use crate::guid::Guid;

#[derive(Clone, Copy)]
pub struct GuidEntry {
    pub at: usize,
    pub len: usize,
}

impl Record for GuidEntry {
    ghost place = { λ r. record { at = r.at; len = r.len } };

    ghost FIXED = { 24 };

    const FIXED: usize = GuidEntry::SIZE;

    fn place(self) -> Place {
        Place {
            at: self.at,
            len: self.len,
        }
    }
}

impl GuidEntry {
    pub const SIZE: usize = 24;

    // The GUID itself.
    pub fn guid(self, s: &[u8]) -> Result<Guid, Refusal>
        ensures { told_guid result ≡ place_of guid_entry "guid" s.now self.at self.len }
    {
        let place = self.part(s, 0x00, 16)?;
        Ok(Guid {
            at: place.at,
            len: place.len,
        })
    }

    // The hreftype of the type it belongs to; -2 for the library's own GUID.
    pub fn hreftype(self, s: &[u8]) -> Result<i32, Refusal>
        ensures { told result ≡ signed32 (field guid_entry "hreftype" s.now self.at self.len) }
    {
        self.field(s, 0x10)
    }

    // The offset of the next entry of the hash chain; -1 at its end.
    pub fn next_hash(self, s: &[u8]) -> Result<i32, Refusal>
        ensures { told result ≡ signed32 (field guid_entry "next_hash" s.now self.at self.len) }
    {
        self.field(s, 0x14)
    }
}
