// The one reader of a record's fields.
ghost use Rattle.std.specs.Prelude.{◌≡◌, ◌^◌, ◌<◌, Bool, ℕ, ℤ, List, min};
ghost use Rattle.std.specs.Int.{w16, w32};
ghost use Rattle.records.specs.Answer.{Answer, map};
ghost use Rattle.records.specs.Record.{held, record_place, field_place, field_at, signed16, signed32, bits_of, flag_set};
ghost use Rattle.records.specs.Told.{told};
ghost use Rattle.records.specs.declared.answer.Place.{Place};

use crate::answer::{Place, Refusal};
use util::LittleEndian;

// The most bytes that are read.
pub const LIMIT: usize = 16_777_216;

// A number that a record's field holds. (One implementation a type: each says which definition it is of.)
pub trait Number: LittleEndian {
    // The number at an offset of the record at a place, by the size of the record's fixed part.
    ghost number: { ℕ → ℕ → List ℕ → ℕ → ℕ → Answer Self };

    fn number(s: &[u8], whole: Place, fixed: usize, offset: usize) -> Result<Self, Refusal>
        ensures { told result ≡ number fixed offset s.now whole.at whole.len };
}

impl Number for u16 {
    ghost number = { field_at 2 };

    fn number(s: &[u8], whole: Place, fixed: usize, offset: usize) -> Result<u16, Refusal> {
        let place = field_place(s, whole, fixed, offset, 2)?;
        u16::read_le(s, place.at).ok_or(Refusal::NothingThere)
    }
}

impl Number for u32 {
    ghost number = { field_at 4 };

    fn number(s: &[u8], whole: Place, fixed: usize, offset: usize) -> Result<u32, Refusal> {
        let place = field_place(s, whole, fixed, offset, 4)?;
        u32::read_le(s, place.at).ok_or(Refusal::NothingThere)
    }
}

impl Number for i16 {
    ghost number = { λ fixed offset s at len. signed16 (field_at 2 fixed offset s at len) };

    fn number(s: &[u8], whole: Place, fixed: usize, offset: usize) -> Result<i16, Refusal> {
        Ok(u16::number(s, whole, fixed, offset)?.cast_signed())
    }
}

impl Number for i32 {
    ghost number = { λ fixed offset s at len. signed32 (field_at 4 fixed offset s at len) };

    fn number(s: &[u8], whole: Place, fixed: usize, offset: usize) -> Result<i32, Refusal> {
        Ok(u32::number(s, whole, fixed, offset)?.cast_signed())
    }
}

// A number of some bits of a field. (One implementation a type, since the casts differ.)
pub trait Bits: Copy {
    // The `count` bits of a word from bit `low` up, and at most as many as it has.
    ghost bits: { ℕ → ℕ → ℕ → Self };

    fn bits(word: u32, low: u32, count: u32) -> Self
        ensures { result ≡ bits low count word };
}

impl Bits for u8 {
    ghost bits = { λ low count word. bits_of low (min count 8) word };

    fn bits(word: u32, low: u32, count: u32) -> u8 {
        util::bits(word, low, count.min(8)) as u8
    }
}

impl Bits for u16 {
    ghost bits = { λ low count word. bits_of low (min count 16) word };

    fn bits(word: u32, low: u32, count: u32) -> u16 {
        util::bits(word, low, count.min(16)) as u16
    }
}

impl Bits for usize {
    ghost bits = { bits_of };

    fn bits(word: u32, low: u32, count: u32) -> usize {
        util::bits(word, low, count) as usize
    }
}

// A record: a place of the lent bytes, and the size of its fixed part. (Each kind of record gives its own place: the fields are
// public and read by name, so a record that holds a `Place` would be no plainer.)
pub trait Record: Copy {
    ghost place: { Self → Place };

    ghost FIXED: { ℕ };

    const FIXED: usize;

    fn place(self) -> Place
        ensures { result ≡ place self };

    // Its own place.
    final fn own_place(self, s: &[u8]) -> Result<Place, Refusal>
        ensures { told result ≡ record_place FIXED s.now (place self).at (place self).len }
    {
        record_place(s, self.place(), Self::FIXED)
    }

    // Where the `width` bytes at `offset` lie.
    final fn part(self, s: &[u8], offset: usize, width: usize) -> Result<Place, Refusal>
        ensures { told result ≡ field_place width FIXED offset s.now (place self).at (place self).len }
    {
        field_place(s, self.place(), Self::FIXED, offset, width)
    }

    // The number at `offset`.
    final fn field<T: Number>(self, s: &[u8], offset: usize) -> Result<T, Refusal>
        ensures { told result ≡ T.number FIXED offset s.now (place self).at (place self).len }
    {
        T::number(s, self.place(), Self::FIXED, offset)
    }

    // The bits of the word at `offset`, `count` of them from bit `low` up.
    final fn bits<T: Bits>(
        self,
        s: &[u8],
        offset: usize,
        low: u32,
        count: u32,
    ) -> Result<T, Refusal>
        ensures { told result ≡ map (T.bits low count) (field_at 4 FIXED offset s.now (place self).at (place self).len) }
    {
        Ok(T::bits(self.field(s, offset)?, low, count))
    }

    // Whether bit `bit` of the word at `offset` is set.
    final fn flag(self, s: &[u8], offset: usize, bit: u32) -> Result<bool, Refusal>
        ensures { told result ≡ map (flag_set (2 ^ bit)) (field_at 4 FIXED offset s.now (place self).at (place self).len) }
    {
        Ok(util::bits(self.field(s, offset)?, bit, 1) == 1)
    }
}

// Whether the record at a place may be read. (A test at a time, each with its refusal; no sum is made that could wrap.)
pub fn is_held(s: &[u8], whole: Place, fixed: usize) -> Result<(), Refusal>
    ensures { told result ≡ held s.now whole.at whole.len fixed }
{
    let size = s.len();
    if LIMIT < size {
        return Err(Refusal::OverLong);
    }
    if whole.len < fixed {
        return Err(Refusal::NothingThere);
    }
    if size < whole.at {
        return Err(Refusal::NothingThere);
    }
    if size - whole.at < whole.len {
        return Err(Refusal::NothingThere);
    }
    Ok(())
}

// The record's own place.
pub fn record_place(s: &[u8], whole: Place, fixed: usize) -> Result<Place, Refusal>
    ensures { told result ≡ record_place fixed s.now whole.at whole.len }
{
    is_held(s, whole, fixed)?;
    Ok(whole)
}

// Where the `width` bytes at `offset` of the record lie.
pub fn field_place(
    s: &[u8],
    whole: Place,
    fixed: usize,
    offset: usize,
    width: usize,
) -> Result<Place, Refusal>
    ensures { told result ≡ field_place width fixed offset s.now whole.at whole.len }
{
    is_held(s, whole, fixed)?;
    if whole.len < offset {
        return Err(Refusal::NothingThere);
    }
    if whole.len - offset < width {
        return Err(Refusal::NothingThere);
    }
    Ok(Place {
        at: whole.at + offset,
        len: width,
    })
}
