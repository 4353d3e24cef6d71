// An import file: one type library that this one depends on (impfile.rs of the source). The file name
// stands behind the fixed part.
ghost use Rattle.std.specs.Prelude.{◌≡◌};
ghost use Rattle.records.specs.Answer.{map};
ghost use Rattle.records.specs.Counted.{file_name_bytes, file_name, imp_file_size};
ghost use Rattle.records.specs.Layout.{imp_file};
ghost use Rattle.records.specs.Record.{field, signed32};
ghost use Rattle.records.specs.Told.{told};

use crate::answer;
use crate::answer::{Place, Refusal};
use crate::field::Record;

#[derive(Clone, Copy)]
pub struct ImpFile {
    pub at: usize,
    pub len: usize,
}

impl Record for ImpFile {
    ghost place = { λ r. record { at = r.at; len = r.len } };

    ghost FIXED = { 14 };

    const FIXED: usize = ImpFile::HEADER_SIZE;

    fn place(self) -> Place {
        Place {
            at: self.at,
            len: self.len,
        }
    }
}

impl ImpFile {
    pub const HEADER_SIZE: usize = 0x0E;

    // The offset of the library's GUID in the GUID table.
    pub fn guid_offset(self, s: &[u8]) -> Result<i32, Refusal>
        ensures { told result ≡ signed32 (field imp_file "GUID offset" s.now self.at self.len) }
    {
        self.field(s, 0x00)
    }

    // Its locale.
    pub fn lcid(self, s: &[u8]) -> Result<i32, Refusal>
        ensures { told result ≡ signed32 (field imp_file "LCID" s.now self.at self.len) }
    {
        self.field(s, 0x04)
    }

    pub fn major_version(self, s: &[u8]) -> Result<u16, Refusal>
        ensures { told result ≡ field imp_file "major" s.now self.at self.len }
    {
        self.field(s, 0x08)
    }

    pub fn minor_version(self, s: &[u8]) -> Result<u16, Refusal>
        ensures { told result ≡ field imp_file "minor" s.now self.at self.len }
    {
        self.field(s, 0x0A)
    }

    // The length of the file name in bits 2 to 15; bits 0 and 1 are flags.
    pub fn size_field(self, s: &[u8]) -> Result<u16, Refusal>
        ensures { told result ≡ field imp_file "size" s.now self.at self.len }
    {
        self.field(s, 0x0C)
    }

    // The file name, where it is UTF-8.
    pub fn filename(self, s: &[u8]) -> Result<Place, Refusal>
        ensures { told result ≡ file_name s.now self.at self.len }
    {
        answer::text(s, self.filename_bytes(s))
    }

    // The file name, in the code page the library was built in.
    pub fn filename_bytes(self, s: &[u8]) -> Result<Place, Refusal>
        ensures { told result ≡ file_name_bytes s.now self.at self.len }
    {
        let size = self.size_field(s)?;
        self.part(s, 0x0E, (size / 4) as usize)
    }

    // The entry's length with its name, filled up to a multiple of four.
    pub fn entry_size(self, s: &[u8]) -> Result<usize, Refusal>
        ensures { told result ≡ map imp_file_size (field imp_file "size" s.now self.at self.len) }
    {
        let size = self.size_field(s)?;
        Ok(((size / 4) as usize + 0x0E + 3) / 4 * 4)
    }
}
