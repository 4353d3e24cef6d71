// A decoded entry of the name table (name.rs of the source).
ghost use Rattle.std.specs.Prelude.{◌≡◌};
ghost use Rattle.records.specs.Counted.{text_at};
ghost use Rattle.records.specs.Told.{told};

use crate::answer::{Place, Refusal};
use crate::{answer, field};

// Its offset in the name table, the place of its text, and the numbers before the text.
#[derive(Clone, Copy)]
pub struct NameEntry {
    pub offset: usize,
    pub text: Place,
    pub hreftype: i32,
    pub next_hash: i32,
    pub flags: u8,
    pub hashcode: u16,
}

impl NameEntry {
    // The entry's offset in the name table.
    pub fn offset(self) -> usize
        ensures { result ≡ self.offset }
    {
        self.offset
    }

    // The name. An entry that was not read from these bytes may hold any place: 9 where that is not
    // inside them or is no UTF-8, 1 where more than 16,777,216 bytes are lent.
    pub fn name(self, s: &[u8]) -> Result<Place, Refusal>
        ensures { told result ≡ text_at s.now self.text.at self.text.len }
    {
        answer::text(s, field::record_place(s, self.text, 0))
    }

    // The hreftype of the type it belongs to; -1 for a name of the library or of a parameter.
    pub fn hreftype(self) -> i32
        ensures { result ≡ self.hreftype }
    {
        self.hreftype
    }

    // The offset of the next entry of the hash chain; -1 at its end.
    pub fn next_hash(self) -> i32
        ensures { result ≡ self.next_hash }
    {
        self.next_hash
    }

    // The byte behind the length: 0x10 for the name of one variable, 0x20 for a name in an enumeration.
    pub fn name_flags(self) -> u8
        ensures { result ≡ self.flags }
    {
        self.flags
    }

    pub fn hashcode(self) -> u16
        ensures { result ≡ self.hashcode }
    {
        self.hashcode
    }
}
