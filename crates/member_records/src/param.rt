// MSFT_ParameterInfo: one parameter of a function (param.rs of the source).
ghost use Rattle.std.specs.Prelude.{◌≡◌};
ghost use Rattle.records.specs.Answer.{map};
ghost use Rattle.records.specs.Automation.{PARAMFLAG_FIN, PARAMFLAG_FOUT, PARAMFLAG_FRETVAL, PARAMFLAG_FOPT};
ghost use Rattle.records.specs.Layout.{parameter_info};
ghost use Rattle.records.specs.Record.{field, signed32, flag_set};
ghost use Rattle.records.specs.Told.{told};

use records::answer::{Place, Refusal};
use records::field::Record;

#[derive(Clone, Copy)]
pub struct ParameterInfo {
    pub at: usize,
    pub len: usize,
}

impl Record for ParameterInfo {
    ghost place = { λ r. record { at = r.at; len = r.len } };

    ghost FIXED = { 12 };

    const FIXED: usize = ParameterInfo::SIZE;

    fn place(self) -> Place {
        Place {
            at: self.at,
            len: self.len,
        }
    }
}

impl ParameterInfo {
    pub const SIZE: usize = 12;

    // The parameter's type field: negative for a base type, else an offset into the type-descriptor
    // table.
    pub fn datatype(self, s: &[u8]) -> Result<i32, Refusal>
        ensures { told result ≡ signed32 (field parameter_info "DataType" s.now self.at self.len) }
    {
        self.field(s, 0x00)
    }

    // The offset of its name in the name table.
    pub fn name_offset(self, s: &[u8]) -> Result<i32, Refusal>
        ensures { told result ≡ signed32 (field parameter_info "oName" s.now self.at self.len) }
    {
        self.field(s, 0x04)
    }

    // PARAMFLAG bits.
    pub fn flags(self, s: &[u8]) -> Result<u32, Refusal>
        ensures { told result ≡ field parameter_info "Flags" s.now self.at self.len }
    {
        self.field(s, 0x08)
    }

    pub fn is_in(self, s: &[u8]) -> Result<bool, Refusal>
        ensures { told result ≡ map (flag_set PARAMFLAG_FIN) (field parameter_info "Flags" s.now self.at self.len) }
    {
        self.flag(s, 0x08, 0)
    }

    pub fn is_out(self, s: &[u8]) -> Result<bool, Refusal>
        ensures { told result ≡ map (flag_set PARAMFLAG_FOUT) (field parameter_info "Flags" s.now self.at self.len) }
    {
        self.flag(s, 0x08, 1)
    }

    pub fn is_retval(self, s: &[u8]) -> Result<bool, Refusal>
        ensures { told result ≡ map (flag_set PARAMFLAG_FRETVAL) (field parameter_info "Flags" s.now self.at self.len) }
    {
        self.flag(s, 0x08, 3)
    }

    pub fn is_optional(self, s: &[u8]) -> Result<bool, Refusal>
        ensures { told result ≡ map (flag_set PARAMFLAG_FOPT) (field parameter_info "Flags" s.now self.at self.len) }
    {
        self.flag(s, 0x08, 4)
    }
}
