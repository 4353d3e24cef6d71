// A C array's descriptor: its element's type field, and the bounds of each dimension (arraydesc.rs of
// the source).
ghost use Rattle.std.specs.Prelude.{◌≡◌, ◌<◌};
ghost use Rattle.records.specs.Answer.{map};
ghost use Rattle.records.specs.Counted.{bound_at, bound_of, array_desc_size};
ghost use Rattle.records.specs.Layout.{array_desc};
ghost use Rattle.records.specs.Record.{field, signed32};
ghost use Rattle.records.specs.Told.{told};

use crate::answer::{Place, Refusal};
use crate::field::Record;

#[derive(Clone, Copy)]
pub struct ArrayDesc {
    pub at: usize,
    pub len: usize,
}

impl Record for ArrayDesc {
    ghost place = { λ r. record { at = r.at; len = r.len } };

    ghost FIXED = { 8 };

    const FIXED: usize = ArrayDesc::SIZE;

    fn place(self) -> Place {
        Place {
            at: self.at,
            len: self.len,
        }
    }
}

impl ArrayDesc {
    pub const SIZE: usize = 8;

    // The type field of the elements.
    pub fn element_type(self, s: &[u8]) -> Result<i32, Refusal>
        ensures { told result ≡ signed32 (field array_desc "element type" s.now self.at self.len) }
    {
        self.field(s, 0x00)
    }

    // The number of dimensions.
    pub fn num_dims(self, s: &[u8]) -> Result<u16, Refusal>
        ensures { told result ≡ field array_desc "dimensions" s.now self.at self.len }
    {
        self.field(s, 0x04)
    }

    pub fn flags(self, s: &[u8]) -> Result<u16, Refusal>
        ensures { told result ≡ field array_desc "flags" s.now self.at self.len }
    {
        self.field(s, 0x06)
    }

    // The bounds of dimension `index`, counted from 0.
    pub fn bound(self, s: &[u8], index: usize) -> Result<SafeArrayBound, Refusal>
        ensures { told result ≡ bound_of index s.now self.at self.len }
    {
        let count = self.num_dims(s)?;
        if count as usize <= index {
            return Err(Refusal::NothingThere);
        }
        self.bound_at(s, 8 + 8 * index)
    }

    // The bounds at that offset of the descriptor.
    fn bound_at(self, s: &[u8], offset: usize) -> Result<SafeArrayBound, Refusal>
        requires { offset < 1000000 }
        ensures { told result ≡ bound_at offset s.now self.at self.len }
    {
        let elements = self.field(s, offset)?;
        let lower = self.field(s, offset + 4)?;
        Ok(SafeArrayBound { elements, lower })
    }

    // The descriptor's length with its bounds, by its count of dimensions.
    pub fn size(self, s: &[u8]) -> Result<usize, Refusal>
        ensures { told result ≡ map array_desc_size (field array_desc "dimensions" s.now self.at self.len) }
    {
        let count = self.num_dims(s)?;
        Ok(8 + 8 * (count as usize))
    }
}

// The bounds of one dimension, as SAFEARRAYBOUND.
#[derive(Clone, Copy)]
pub struct SafeArrayBound {
    pub elements: u32,
    pub lower: i32,
}

impl SafeArrayBound {
    // How many elements.
    pub fn count(self) -> u32
        ensures { result ≡ self.elements }
    {
        self.elements
    }

    // The index of the first.
    pub fn lower_bound(self) -> i32
        ensures { result ≡ self.lower }
    {
        self.lower
    }
}
