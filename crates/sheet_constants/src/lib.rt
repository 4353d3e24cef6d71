// Emitters of constants (document 01, "The sheet (added)"): the code of the case that was read, and then
// the value, laid out by the shape that the code has.
// (A code is a number of the file, and any may stand there: so it stays a number. The bytes, the library's numbers, the output and the place go in
// apart: a struct of them is handed on by way of memory, which made a sheet slower.)

#![tactic(auto)]

ghost use Rattle.std.specs.Prelude.{◌≡◌};
ghost use Rattle.records.specs.Answer.{value};
ghost use Rattle.records.specs.Told.{told};
ghost use Rattle.description.specs.Format.{encode};
ghost use Rattle.description.specs.Description.{shape_of};
ghost use Rattle.description.specs.Sheet.{constant};
ghost use Rattle.describe.specs.Constants.{content_of, number_in, place_in, constant_from};
ghost use Rattle.sheet_constants.specs.Told.{told_content, told_shape};
ghost use Rattle.sheet_constants.specs.Bytes.{mark_of, text_bytes, value_bytes};
ghost use Rattle.emit.specs.Emit.{Emits};
ghost use Rattle.sheet_constants.specs.Emitted.{constant_emitted};
ghost use Rattle.typelib.specs.Header.{library};

use records::answer;
use records::answer::{Place, Refusal};
use records::types::ConstValue;
use typelib::Numbers;

mod bits;

// What a constant holds: nothing, a number by its bits, or a place in the lent bytes. (As an `Option` of two cases it would be matched twice.)
#[derive(Clone, Copy)]
pub enum Content {
    Bare,
    Digits(u64),
    Span(Place),
}

// How a constant's value is laid out: no bytes, a number of so many bytes, a byte that is 0 or 1, so many
// bytes as they are, or a text, which may be null.
#[derive(Clone, Copy)]
pub enum Shape {
    Empty,
    Number(usize),
    Bit,
    Octets(usize),
    Text,
}

// The marks of the shapes of the codes 0 to 25, eight codes to a line: the bytes of the value, b for a
// byte that is 0 or 1, t for a text. (A number never has sixteen bytes.)
// (A rule of the project asks for a constant table of widths by VARTYPE code.)
const MARKS: [u8; 26] = *b"\
\x00\x00\x02\x04\x04\x08\x08\x08\
t\x04\x04b\x04\x04\x10\x04\
\x01\x01\x02\x04\x08\x08\x04\x04\
\x00\x04";

// The mark of a code's shape. Beyond the table a file time has eight bytes, and a code without a case of
// its own four. (By index: `get` would give a reference in an `Option`, to be copied out of it: no plainer.)
fn mark_of(code: u16) -> u8
    ensures { result ≡ mark_of (shape_of code) }
{
    if code < 26 {
        return MARKS[code as usize];
    }
    if code == 64 {
        return 8;
    }
    4
}

// The shape of a code's value. (A mark is an entry of that table, one byte for each code.)
pub fn shape_of(code: u16) -> Shape
    ensures { told_shape result ≡ shape_of code }
{
    let mark = mark_of(code);
    match mark {
        0 => Shape::Empty,
        16 => Shape::Octets(16),
        b'b' => Shape::Bit,
        b't' => Shape::Text,
        _ => Shape::Number(mark as usize),
    }
}

// What a constant holds: a signed number by its two's complement, a float by its bits, a truth as 0 or 1. (Each type is turned in its own way.)
#[tactic(auto, unfolding(describe::specs::Constants::content_of))]
pub fn content_of(v: ConstValue) -> Content
    ensures { told_content result ≡ content_of v }
{
    match v {
        ConstValue::Empty | ConstValue::Null | ConstValue::NullBstr | ConstValue::Void =>
            Content::Bare,
        ConstValue::I1(x) => Content::Digits(x.cast_unsigned() as u64),
        ConstValue::I2(x) => Content::Digits(x.cast_unsigned() as u64),
        ConstValue::I4(x) => Content::Digits(x.cast_unsigned() as u64),
        ConstValue::I8(x) => Content::Digits(x.cast_unsigned()),
        ConstValue::Int(x) => Content::Digits(x.cast_unsigned() as u64),
        ConstValue::Cy(x) => Content::Digits(x.cast_unsigned()),
        ConstValue::Error(x) => Content::Digits(x.cast_unsigned() as u64),
        ConstValue::Hresult(x) => Content::Digits(x.cast_unsigned() as u64),
        ConstValue::Raw { vt: _, bits: x } => Content::Digits(x.cast_unsigned() as u64),
        ConstValue::UI1(x) => Content::Digits(x as u64),
        ConstValue::UI2(x) => Content::Digits(x as u64),
        ConstValue::UI4(x) => Content::Digits(x as u64),
        ConstValue::UI8(x) => Content::Digits(x),
        ConstValue::UInt(x) => Content::Digits(x as u64),
        ConstValue::Filetime(x) => Content::Digits(x),
        ConstValue::R4(x) => Content::Digits(bits::of_f32(x) as u64),
        ConstValue::R4Nan(n) => Content::Digits(n as u64),
        ConstValue::R8(x) => Content::Digits(bits::of_f64(x)),
        ConstValue::R8Nan(n) => Content::Digits(n),
        ConstValue::Date(x) => Content::Digits(bits::of_f64(x)),
        ConstValue::DateNan(n) => Content::Digits(n),
        ConstValue::Bool(b) => Content::Digits(u64::from(b)),
        ConstValue::Bstr(p) => Content::Span(p),
        ConstValue::Decimal(p) => Content::Span(p),
    }
}

// The number of a content, 0 where it is none. (It and the next serve the rows of constants, too.)
pub fn number_in(content: Content) -> u64
    ensures { result ≡ number_in (told_content content) }
{
    match content {
        Content::Digits(n) => n,
        Content::Bare | Content::Span(_) => 0,
    }
}

// The place of a content, refusal 9 where it is none.
pub fn place_in(content: Content) -> Result<Place, Refusal>
    ensures { told result ≡ place_in (told_content content) }
{
    match content {
        Content::Span(p) => Ok(p),
        Content::Bare | Content::Digits(_) => Err(Refusal::NothingThere),
    }
}

// A text: byte 0 for null, or byte 1, the length and the bytes.
fn put_text(s: &[u8], place: Result<Place, Refusal>, out: &mut [u8], to: usize) -> usize
    ensures { Emits (value (text_bytes s.now (told place))) to out.old result out.new }
{
    match place {
        Ok(p) => {
            let bytes = answer::part(&*s, Ok::<_, Refusal>(p));
            let t = emit::put_u8(out, to, 1);
            let t = emit::put_le(out, t, bytes.len() as u64, 4);
            emit::put_bytes(bytes, out, t)
        }
        Err(_) => emit::put_u8(out, to, 0),
    }
}

// The value of a content by a shape. (An arm for each: what it puts is one call.)
fn put_value(s: &[u8], content: Content, shape: Shape, out: &mut [u8], to: usize) -> usize
    ensures { Emits (value (value_bytes s.now (told_content content) (told_shape shape))) to out.old result out.new }
{
    match shape {
        Shape::Empty => to,
        Shape::Number(width) => emit::put_le(out, to, number_in(content), width),
        Shape::Bit => emit::put_le(out, to, number_in(content), 1),
        Shape::Octets(_) => emit::put_bytes(answer::part(&*s, place_in(content)), out, to),
        Shape::Text => put_text(&*s, place_in(content), out, to),
    }
}

// A constant: its code, and its value by the code's shape.
pub fn put_constant(s: &[u8], v: ConstValue, out: &mut [u8], to: usize) -> usize
    ensures { Emits (value (encode constant (constant_from s.now v))) to out.old result out.new }
{
    let code = v.vt();
    let t = emit::put_u16(out, to, code);
    put_value(&*s, content_of(v), shape_of(code), out, t)
}

// The constant that a record's word is or names: byte 0 where there is none, or byte 1 and the constant. (As in `values` of
// sheet_trees: a function of this and of those would take the reading and the emitter as closures, and be no plainer.)
pub fn put_opt_constant(s: &[u8], lib: &Numbers, word: u32, out: &mut [u8], to: usize) -> usize
    ensures { Emits (constant_emitted s.now (library lib.now) word) to out.old result out.new }
{
    match constants::const_at(lib, &*s, word) {
        Ok(v) => {
            let t = emit::put_u8(out, to, 1);
            put_constant(&*s, v, out, t)
        }
        Err(_) => emit::put_u8(out, to, 0),
    }
}
