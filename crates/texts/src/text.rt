// Text that is written to a lent output.
ghost use Rattle.std.specs.Prelude.{◌≡◌, length};
ghost use Rattle.records.specs.Answer.{value};
ghost use Rattle.records.specs.Told.{told};
ghost use Rattle.texts.specs.Text.{digit, word_of, Laid};

use records::answer::Refusal;

// (A table, since the letters do not follow the digits in ASCII. The program `tlbsheet` has one of its own, with small letters.)
const DIGITS: [u8; 16] = *b"0123456789ABCDEF";

// The digit for a number below 16; 0 for any other.
pub fn digit(d: u8) -> u8
    ensures { result ≡ digit d }
{
    if d < 16 { DIGITS[usize::from(d)] } else { 0 }
}

// How many bytes of the cell stand before its first blank. (Words stand in cells of one size: see `NAMES` of types.rt.)
pub fn word_length(cell: &[u8]) -> usize
    ensures { result ≡ length (word_of cell.now) }
{
    cell.iter().position(|b| *b == b' ').unwrap_or(cell.len())
}

// Writes the text to the front of `out`, and replies how many bytes it has. Where `out` is shorter than the text, that is refusal
// 12 and nothing is written.
pub fn put(text: &[u8], out: &mut [u8]) -> Result<usize, Refusal>
    ensures { Laid (value text.now) out.old (told result) out.new }
{
    let len = text.len();
    if out.len() < len {
        return Err(Refusal::NoSpace);
    }
    out[..len].copy_from_slice(text);
    Ok(len)
}

// Writes the word of the cell, as `put` does.
pub fn put_word(cell: &[u8], out: &mut [u8]) -> Result<usize, Refusal>
    ensures { Laid (value (word_of cell.now)) out.old (told result) out.new }
{
    put(&cell[..word_length(&*cell)], out)
}
