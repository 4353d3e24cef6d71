// Constants: inline in a record's word, or stored in segment 11.
//
// (A code is a number of the file, and any may stand there: so it stays a number, and each code that means something has an arm or an entry.)
// (The library's numbers, a plain array lent, and the bytes go in apart: a struct of them goes by way of memory, which made sheets slower. So
// contracts speak of the library of those numbers.)

#![tactic(auto)]

ghost use Rattle.std.specs.Prelude.{◌≡◌, ◌+◌, ◌≤◌, ◌<◌, length};
ghost use Rattle.std.specs.Int.{w32};
ghost use Rattle.std.proofs.Common.{of_z};
ghost use Rattle.records.specs.Varenum.{VT_DECIMAL};
ghost use Rattle.util.specs.Read.{le};
ghost use Rattle.typelib.specs.Header.{library};
ghost use Rattle.constants.specs.Constants.{stored_width, r4_of, r8_of, date_of, constant_of, inline_code, inline_of, text_behind, value_behind, stored_at, const_at};
ghost use Rattle.records.specs.Told.{told};

use records::answer::{Place, Refusal};
use records::field::LIMIT;
use records::types::ConstValue;
use typelib::{Numbers, TypeLib, tables};
use util::{FloatBits, NEGATIVE, Real};

// (A table is the number of its segment, of which a caller of `tables::segment` may give any.)
const CONSTANTS: usize = 11;

// The bytes of a stored value, by VARTYPE code 0 to 64, eight codes to a line. A text's are those of
// its length; a code that has no case of its own has four.
// (A rule of the project asks for a constant table of widths by VARTYPE code.)
const WIDTHS: [u8; 65] = *b"\
\x00\x00\x04\x04\x04\x08\x08\x08\
\x04\x04\x04\x02\x04\x04\x10\x04\
\x04\x04\x04\x04\x08\x08\x04\x04\
\x00\x04\x04\x04\x04\x04\x04\x04\
\x04\x04\x04\x04\x04\x04\x04\x04\
\x04\x04\x04\x04\x04\x04\x04\x04\
\x04\x04\x04\x04\x04\x04\x04\x04\
\x04\x04\x04\x04\x04\x04\x04\x04\
\x08";

// The constant that a record's word gives: inline where the word is negative, else at that offset
// of the table.
pub fn const_value(lib: TypeLib, s: &[u8], word: i32) -> Result<ConstValue, Refusal>
    ensures { told result ≡ const_at s.now lib (of_z w32 word) }
{
    const_at(&lib.numbers, s, word.cast_unsigned())
}

// The same by the word's 32-bit pattern, the library's numbers lent: it serves the sheet. (The test of the length is one comparison in each
// reading: `is_lent` of `cursors` is not below this crate.)
#[tactic(auto, unfolding(typelib::specs::Tables::lent))]
pub fn const_at(lib: &Numbers, s: &[u8], word: u32) -> Result<ConstValue, Refusal>
    ensures { told result ≡ const_at s.now (library lib.now) word }
{
    if LIMIT < s.len() {
        return Err(Refusal::OverLong);
    }
    if NEGATIVE <= word {
        return Ok(inline_const(word));
    }
    stored_const(lib, s, word)
}

// A stored constant: its code in two bytes, and behind them its value.
fn stored_const(lib: &Numbers, s: &[u8], offset: u32) -> Result<ConstValue, Refusal>
    ensures { told result ≡ stored_at s.now (library lib.now) offset }
{
    let place = tables::table_place(lib, s, CONSTANTS, offset, 2)?;
    let vt = util::or_zero::<u16>(s, place.at);
    value_behind(lib, s, offset, vt)
}

// The value behind a code, with the bytes that the code asks for.
#[tactic(auto, unfolding(crate::specs::Constants::value_at))]
fn value_behind(lib: &Numbers, s: &[u8], offset: u32, vt: u16) -> Result<ConstValue, Refusal>
    ensures { told result ≡ value_behind s.now (library lib.now) offset vt }
{
    let place = tables::table_place(lib, s, CONSTANTS, offset, 2 + stored_width(vt))?;
    let at = place.at + 2;
    match vt {
        8 => text_behind(lib, s, offset, util::or_zero::<u32>(s, at)),
        14 => Ok(ConstValue::Decimal(Place { at, len: 16 })),
        _ => Ok(constant(vt, number(s, at, vt))),
    }
}

// The text behind its length, which is -1 for a null text.
#[tactic(auto, unfolding(crate::specs::Constants::text_behind))]
fn text_behind(lib: &Numbers, s: &[u8], offset: u32, length: u32) -> Result<ConstValue, Refusal>
    ensures { told result ≡ text_behind s.now (library lib.now) offset length }
{
    if length == 0xffff_ffff {
        return Ok(ConstValue::NullBstr);
    }
    if NEGATIVE <= length {
        return Err(Refusal::NothingThere);
    }
    let len = length as usize;
    let place = tables::table_place(lib, s, CONSTANTS, offset, 6 + len)?;
    Ok(ConstValue::Bstr(Place {
        at: place.at + 6,
        len,
    }))
}

// How many bytes the stored value of a code has; a text's are those of its length.
// (By index: `get` would give a reference in an `Option`, to be copied out of it: no plainer.)
fn stored_width(vt: u16) -> usize
    ensures { (result ≡ stored_width vt) × (result < 256) }
{
    let code = vt as usize;
    if code < 65 {
        return WIDTHS[code] as usize;
    }
    4
}

// The number in the bytes of a code's value; 0 where it has none. (A decimal's sixteen are too many for
// one number.)
// (A width is an entry of that table: each that is read has an arm.)
fn number(s: &[u8], at: usize, vt: u16) -> u64
    requires { (at + stored_width vt ≤ length s.now) × (vt ≡ VT_DECIMAL → ⊥) }
    ensures { result ≡ le (stored_width vt) s.now at }
{
    match stored_width(vt) {
        2 => util::or_zero::<u16>(s, at) as u64,
        4 => util::or_zero::<u32>(s, at) as u64,
        8 => util::or_zero::<u64>(s, at),
        _ => 0,
    }
}

// An inline constant: its code in bits 26 to 30, its value in the 26 below, unsigned.
fn inline_const(raw: u32) -> ConstValue
    ensures { result ≡ inline_of raw }
{
    let code = inline_code(util::bits(raw, 26, 5));
    constant(code, util::bits(raw, 0, 26) as u64)
}

// The code of an inline constant, by the five bits that give it: I4 where those bits are not the code of
// a constant that stands inline.
#[tactic(auto, unfolding(crate::specs::Constants::inline_code))]
fn inline_code(n: u32) -> u16
    ensures { result ≡ inline_code n }
{
    match n {
        0..=3 | 10 | 11 | 16..=19 | 22..=25 => n as u16,
        _ => 3,
    }
}

// Floats by their bits. (One function for the three would take two constructors and their contracts, and be no plainer.)
fn r4(n: u32) -> ConstValue
    ensures { result ≡ r4_of n }
{
    match n.float() {
        Real::Number(x) => ConstValue::R4(x),
        Real::Nan(b) => ConstValue::R4Nan(b),
    }
}

fn r8(n: u64) -> ConstValue
    ensures { result ≡ r8_of n }
{
    match n.float() {
        Real::Number(x) => ConstValue::R8(x),
        Real::Nan(b) => ConstValue::R8Nan(b),
    }
}

fn date(n: u64) -> ConstValue
    ensures { result ≡ date_of n }
{
    match n.float() {
        Real::Number(x) => ConstValue::Date(x),
        Real::Nan(b) => ConstValue::DateNan(b),
    }
}

// What a number is as a value of a code, by its low bits, as many as the type has. A number without a
// case of its own stands beside its code.
// (The low bits by `%`: `as` asks for a proof that nothing is lost, and `util::bits` is for 32 bits.)
// (A code is any number of the file: those that mean something have an arm.)
#[tactic(auto, unfolding(crate::specs::Constants::constant_of))]
fn constant(vt: u16, v: u64) -> ConstValue
    ensures { result ≡ constant_of vt v }
{
    let word = (v % 0x1_0000_0000) as u32;
    let half = (v % 0x1_0000) as u16;
    let byte = (v % 0x100) as u8;
    let long = word.cast_signed();
    match vt {
        0 => ConstValue::Empty,
        1 => ConstValue::Null,
        2 => ConstValue::I2(half.cast_signed()),
        3 => ConstValue::I4(long),
        4 => r4(word),
        5 => r8(v),
        6 => ConstValue::Cy(v.cast_signed()),
        7 => date(v),
        10 => ConstValue::Error(long),
        11 => ConstValue::Bool(v != 0),
        16 => ConstValue::I1(byte.cast_signed()),
        17 => ConstValue::UI1(byte),
        18 => ConstValue::UI2(half),
        19 => ConstValue::UI4(word),
        20 => ConstValue::I8(v.cast_signed()),
        21 => ConstValue::UI8(v),
        22 => ConstValue::Int(long),
        23 => ConstValue::UInt(word),
        24 => ConstValue::Void,
        25 => ConstValue::Hresult(long),
        64 => ConstValue::Filetime(v),
        _ => ConstValue::Raw { vt, bits: long },
    }
}
