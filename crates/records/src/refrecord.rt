// MSFT_RefRecord: one implemented interface in the reference table (refrecord.rs of the source).
ghost use Rattle.std.specs.Prelude.{◌≡◌};
ghost use Rattle.records.specs.Answer.{map};
ghost use Rattle.records.specs.Automation.{IMPLTYPEFLAG_FDEFAULT, IMPLTYPEFLAG_FSOURCE, IMPLTYPEFLAG_FRESTRICTED};
ghost use Rattle.records.specs.Layout.{ref_record};
ghost use Rattle.records.specs.Record.{field, signed32, flag_set};
ghost use Rattle.records.specs.Told.{told};

use crate::answer::{Place, Refusal};
use crate::field::Record;

#[derive(Clone, Copy)]
pub struct RefRecord {
    pub at: usize,
    pub len: usize,
}

impl Record for RefRecord {
    ghost place = { λ r. record { at = r.at; len = r.len } };

    ghost FIXED = { 16 };

    const FIXED: usize = RefRecord::SIZE;

    fn place(self) -> Place {
        Place {
            at: self.at,
            len: self.len,
        }
    }
}

impl RefRecord {
    pub const SIZE: usize = 16;

    // The hreftype of the interface.
    pub fn reftype(self, s: &[u8]) -> Result<i32, Refusal>
        ensures { told result ≡ signed32 (field ref_record "reftype" s.now self.at self.len) }
    {
        self.field(s, 0x00)
    }

    // IMPLTYPEFLAG bits.
    pub fn flags(self, s: &[u8]) -> Result<u32, Refusal>
        ensures { told result ≡ field ref_record "flags" s.now self.at self.len }
    {
        self.field(s, 0x04)
    }

    // The offset of the next record of the chain; -1 at its end.
    pub fn onext(self, s: &[u8]) -> Result<i32, Refusal>
        ensures { told result ≡ signed32 (field ref_record "onext" s.now self.at self.len) }
    {
        self.field(s, 0x0C)
    }

    pub fn is_default(self, s: &[u8]) -> Result<bool, Refusal>
        ensures { told result ≡ map (flag_set IMPLTYPEFLAG_FDEFAULT) (field ref_record "flags" s.now self.at self.len) }
    {
        self.flag(s, 0x04, 0)
    }

    pub fn is_source(self, s: &[u8]) -> Result<bool, Refusal>
        ensures { told result ≡ map (flag_set IMPLTYPEFLAG_FSOURCE) (field ref_record "flags" s.now self.at self.len) }
    {
        self.flag(s, 0x04, 1)
    }

    pub fn is_restricted(self, s: &[u8]) -> Result<bool, Refusal>
        ensures { told result ≡ map (flag_set IMPLTYPEFLAG_FRESTRICTED) (field ref_record "flags" s.now self.at self.len) }
    {
        self.flag(s, 0x04, 2)
    }
}
