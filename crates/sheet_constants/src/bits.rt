// The bits of a float, also of a NaN. The language has none for a NaN, and the specification's `to_bits` takes one pattern for them all;
// no reading makes a float of a NaN's bits, so what is replied for it is never laid out.
// (Two functions: a trait would need two impls of the same lines.)
ghost use Rattle.std.specs.Prelude.{◌≡◌};
ghost use Rattle.std.specs.Float.{binary32, binary64};
ghost use Rattle.std.specs.Float.Ieee.{to_bits};

pub fn of_f32(x: f32) -> u32
    ensures { result ≡ to_bits binary32 x }
{
    if x.is_nan() { 0x7fc0_0000 } else { x.to_bits() }
}

pub fn of_f64(x: f64) -> u64
    ensures { result ≡ to_bits binary64 x }
{
    if x.is_nan() {
        0x7ff8_0000_0000_0000
    } else {
        x.to_bits()
    }
}
