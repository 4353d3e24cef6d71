// Bytes as a line of text.
ghost use Rattle.std.specs.Prelude.{◌≡◌, ◌*◌, ◌<◌, length};
ghost use Rattle.std.proofs.lemmas.List.Edits.{sets};
ghost use Rattle.tlbsheet.specs.Program.{digit as Program·digit, line_of};

// (Small letters, where the GUIDs of `texts` have capitals: a table with its index says the digits most plainly.)
const DIGITS: [u8; 16] = *b"0123456789abcdef";

// Writes each byte of `s` in two digits to the front of `out`, and a newline behind them. Replies how many bytes it wrote.
// (Not printed by a format: the line is made whole, so that a contract says what it is.)
pub(crate) fn put_line(s: &[u8], out: &mut [u8]) -> usize
    requires { 2 * length s.now < length out.old }
    ensures value { result ≡ length (line_of s.now) }
    ensures out_after { out.new ≡ sets out.old 0 (line_of s.now) }
{
    for (i, byte) in s.iter().enumerate() {
        out[2 * i] = digit(byte / 16);
        out[2 * i + 1] = digit(byte % 16);
    }
    let end = 2 * s.len();
    out[end] = b'\n';
    end + 1
}

// The digit for a number below 16; 0 for any other.
fn digit(d: u8) -> u8
    ensures { result ≡ Program·digit d }
{
    DIGITS.get(usize::from(d)).copied().unwrap_or(0)
}
