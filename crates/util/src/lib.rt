// Little-endian reads from a slice of bytes: util.rs of the source.
//
// A read that would pass the end of the slice replies nothing. The contracts cite `specs/Read.antt`
// (one definition over the width) and `specs/Real.antt` (floats by their bits).

#![tactic(auto)]

ghost use Rattle.std.specs.Prelude.{◌≡◌, ◌/◌, ◌%◌, ◌^◌, Option, ℕ, ℤ, pos, List, unwrap_or, option_map};
ghost use Rattle.std.specs.Float.{binary32, binary64};
ghost use Rattle.std.specs.Int.{w16, w32, w64};
ghost use Rattle.std.proofs.Common.{to_z};
ghost use Rattle.util.specs.Read.{read, bytes_at};
ghost use Rattle.util.specs.Real.{real_of};
ghost use Rattle.util.specs.declared.Real.{Real};

// From this number on, a 32-bit pattern is that of a negative number.
pub const NEGATIVE: u32 = 0x8000_0000;

// The `N` bytes at `at`.
fn bytes_at<const N: usize>(s: &[u8], at: usize) -> Option<[u8; N]>
    ensures { result ≡ bytes_at N s.now at }
{
    let chunk = s.get(at..)?.first_chunk::<N>()?;
    Some(*chunk)
}

// A number that is stored with its lowest byte first. (One implementation a type, since each has a `from_le_bytes` of its own.)
pub trait LittleEndian: Copy {
    // The number at an index of a list of bytes, or none where its bytes do not all stand there.
    ghost read: { List ℕ → ℕ → Option Self };

    ghost ZERO: { Self };

    const ZERO: Self;

    fn read_le(s: &[u8], at: usize) -> Option<Self>
        ensures { result ≡ read s.now at };
}

impl LittleEndian for u8 {
    ghost read = { read 1 };

    ghost ZERO = { 0 };

    const ZERO: u8 = 0;

    fn read_le(s: &[u8], at: usize) -> Option<u8> {
        Some(u8::from_le_bytes(bytes_at(s, at)?))
    }
}

impl LittleEndian for u16 {
    ghost read = { read 2 };

    ghost ZERO = { 0 };

    const ZERO: u16 = 0;

    fn read_le(s: &[u8], at: usize) -> Option<u16> {
        Some(u16::from_le_bytes(bytes_at(s, at)?))
    }
}

impl LittleEndian for u32 {
    ghost read = { read 4 };

    ghost ZERO = { 0 };

    const ZERO: u32 = 0;

    fn read_le(s: &[u8], at: usize) -> Option<u32> {
        Some(u32::from_le_bytes(bytes_at(s, at)?))
    }
}

impl LittleEndian for u64 {
    ghost read = { read 8 };

    ghost ZERO = { 0 };

    const ZERO: u64 = 0;

    fn read_le(s: &[u8], at: usize) -> Option<u64> {
        Some(u64::from_le_bytes(bytes_at(s, at)?))
    }
}

impl LittleEndian for i16 {
    ghost read = { λ s at. option_map (to_z w16) (read 2 s at) };

    ghost ZERO = { pos 0 };

    const ZERO: i16 = 0;

    fn read_le(s: &[u8], at: usize) -> Option<i16> {
        Some(u16::read_le(s, at)?.cast_signed())
    }
}

impl LittleEndian for i32 {
    ghost read = { λ s at. option_map (to_z w32) (read 4 s at) };

    ghost ZERO = { pos 0 };

    const ZERO: i32 = 0;

    fn read_le(s: &[u8], at: usize) -> Option<i32> {
        Some(u32::read_le(s, at)?.cast_signed())
    }
}

impl LittleEndian for i64 {
    ghost read = { λ s at. option_map (to_z w64) (read 8 s at) };

    ghost ZERO = { pos 0 };

    const ZERO: i64 = 0;

    fn read_le(s: &[u8], at: usize) -> Option<i64> {
        Some(u64::read_le(s, at)?.cast_signed())
    }
}

// The number at `at`, or 0 where its bytes do not all stand in the slice: the source's `unwrap_or(0)`,
// for callers that know that they do.
pub fn or_zero<T: LittleEndian>(s: &[u8], at: usize) -> T
    ensures { result ≡ unwrap_or (T.read s.now at) T.ZERO }
{
    T::read_le(s, at).unwrap_or(T::ZERO)
}

// A float; or, where the pattern is a NaN's, its bits: the language gives a float for a pattern only
// where the pattern is no NaN's.
#[derive(Clone, Copy)]
pub enum Real<F, B> {
    Number(F),
    Nan(B),
}

// A bit pattern of a float. (The two formats share no trait of the library.)
pub trait FloatBits: LittleEndian {
    type Float;

    ghost real: { Self → Real Self.Float Self };

    fn float(self) -> Real<Self::Float, Self>
        ensures { result ≡ real self };
}

impl FloatBits for u32 {
    type Float = f32;

    ghost real = { real_of binary32 };

    // Never a quiet NaN in place of another.
    fn float(self) -> Real<f32, u32> {
        if 0x7f80_0000 < self % 0x8000_0000 {
            Real::Nan(self)
        } else {
            Real::Number(f32::from_bits(self))
        }
    }
}

impl FloatBits for u64 {
    type Float = f64;

    ghost real = { real_of binary64 };

    fn float(self) -> Real<f64, u64> {
        if 0x7ff0_0000_0000_0000 < self % 0x8000_0000_0000_0000 {
            Real::Nan(self)
        } else {
            Real::Number(f64::from_bits(self))
        }
    }
}

// A float by its bits.
pub fn read_float<B: FloatBits>(s: &[u8], at: usize) -> Option<Real<B::Float, B>>
    ensures { result ≡ option_map B.real (B.read s.now at) }
{
    Some(B::read_le(s, at)?.float())
}

// The `count` bits of `x` from bit `low` up, by shift and mask; past bit 31 they are 0.
pub fn bits(x: u32, low: u32, count: u32) -> u32
    ensures { result ≡ x / 2 ^ low % 2 ^ count }
{
    if 32 <= low {
        return 0;
    }
    let high = x >> low;
    if 32 <= count {
        return high;
    }
    high & ((1 << count) - 1)
}
