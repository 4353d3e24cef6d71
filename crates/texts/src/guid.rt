// The text form of a GUID (guid.rs of the source).
ghost use Rattle.std.specs.Prelude.{◌∷◌, ◌≡◌, ◌+◌, ◌*◌, ◌≤◌, ◌<◌, length, take, drop};
ghost use Rattle.std.proofs.lemmas.List.Edits.{sets};
ghost use Rattle.util.specs.Read.{le};
ghost use Rattle.records.specs.Told.{told};
ghost use Rattle.texts.specs.Guid.{hex_bytes, guid_text};
ghost use Rattle.texts.specs.GuidLaws.{text_at};
ghost use Rattle.texts.specs.Text.{digits, Laid};

use crate::text;
use records::answer::Refusal;
use records::field;
use records::field::Record;
use records::guid::Guid;

// How many bytes the text has.
const TEXT_SIZE: usize = 38;

// Writes the text form, `{XXXXXXXX-XXXX-XXXX-XXXX-XXXXXXXXXXXX}`, to the front of `out`, and
// replies how many bytes it has; refusal 12 where `out` is shorter. A refusal writes nothing.
pub fn text(guid: Guid, s: &[u8], out: &mut [u8]) -> Result<usize, Refusal>
    ensures { Laid (guid_text s.now guid.at guid.len) out.old (told result) out.new }
{
    field::is_held(s, guid.place(), Guid::SIZE)?;
    if out.len() < TEXT_SIZE {
        return Err(Refusal::NoSpace);
    }
    write_text(s, guid.at, out);
    Ok(TEXT_SIZE)
}

// Writes the text of the 16 bytes at `at`.
fn write_text(s: &[u8], at: usize, out: &mut [u8])
    requires { (at + 16 ≤ length s.now) × (38 ≤ length out.old) }
    ensures { out.new ≡ sets out.old 0 (text_at s.now at) }
{
    put_number(b'{', s, at, 4, out, 0);
    put_number(b'-', s, at + 4, 2, out, 9);
    put_number(b'-', s, at + 6, 2, out, 14);
    put_bytes(b'-', s, at + 8, 2, out, 19);
    put_bytes(b'-', s, at + 10, 6, out, 24);
    out[37] = b'}';
}

// Writes `mark` at `to` of `out`, and behind it the number of the `width` bytes at `at`, two digits
// for each byte. The lowest byte is the first in `s`, and its digits are the last in `out`. (Here and below `to` is a place of the whole output, of
// which the contract speaks, and `width` or `count` is how many bytes are asked for.)
fn put_number(mark: u8, s: &[u8], at: usize, width: usize, out: &mut [u8], to: usize)
    requires { (at + width ≤ length s.now) × (to + 2 * width < length out.old) }
    ensures { out.new ≡ sets out.old to (mark ∷ digits 16 (2 * width) (le width s.now at)) }
{
    out[to] = mark;
    for i in 0..width {
        let byte = s[at + i];
        let before = to + 2 * (width - 1 - i);
        out[before + 2] = text::digit(byte % 16);
        out[before + 1] = text::digit(byte / 16);
    }
}

// Writes `mark` at `to` of `out`, and behind it the `count` bytes at `at` in their order, two digits
// for each. (One function for both would take the order as a closure, and be no plainer.)
fn put_bytes(mark: u8, s: &[u8], at: usize, count: usize, out: &mut [u8], to: usize)
    requires { (at + count ≤ length s.now) × (to + 2 * count < length out.old) }
    ensures { out.new ≡ sets out.old to (mark ∷ hex_bytes (take count (drop at s.now))) }
{
    out[to] = mark;
    for i in 0..count {
        let byte = s[at + i];
        let end = to + 2 * i;
        out[end + 1] = text::digit(byte / 16);
        out[end + 2] = text::digit(byte % 16);
    }
}
