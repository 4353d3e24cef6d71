// Text in UTF-8 (RFC 3629, section 4), checked in one pass.
//
// Every read is at the index that the count of bytes looked at is, and is followed by a step of one: so each byte is looked at once, and
// the count that is replied is that index, the length where the bytes end. Bytes are read in two places, `ascii` and `tail`.

#![tactic(auto)]

ghost use Rattle.std.specs.Prelude.{◌≡◌, true, ◌↔◌, ◌≤◌, length};
ghost use Rattle.utf8.specs.Utf8.{In, LookedAt, Text, after_first, utf8};
ghost use Rattle.utf8.specs.Looked.{checked, looked_at};
ghost use Rattle.utf8.specs.Parts.{Ascii, Reads, TailsRead, unpacked};

// Whether bytes are text in UTF-8, and how many of them were looked at.
// (No `Option` and no `Result`: both are answered, of any bytes.)
#[derive(Clone, Copy)]
pub struct TextCheck {
    pub valid: bool,
    pub looked: usize,
}

// The first byte from `at` on that is not ASCII, and how many bytes are looked at with it; none where all are ASCII.
fn ascii(s: &[u8], at: usize) -> Option<(u8, usize)>
    requires { at ≤ length s.now }
    ensures { Ascii s.now at result }
{
    for i in at..s.len() {
        // A read, and a step of one.
        let b = s[i];
        if 0x80 <= b {
            return Some((b, i + 1));
        }
    }
    None
}

// The place behind the byte at `i`, where one from `lo` to `hi` stands there; else how many bytes are looked at: where they end
// there, the text breaks off.
fn tail(s: &[u8], i: usize, lo: u8, hi: u8) -> Result<usize, usize>
    ensures { (then : _) → TailsRead s.now i lo hi then then result }
{
    if s.len() <= i {
        return Err(i);
    }
    // A read, and a step of one.
    let b = s[i];
    let looked = i + 1;
    if lo <= b && b <= hi {
        Ok(looked)
    } else {
        Err(looked)
    }
}

// The tails at `at` of a character of three bytes, the second of which has to lie from `lo` to `hi`.
fn tails_of_3(s: &[u8], at: usize, lo: u8, hi: u8) -> Result<usize, usize>
    ensures { TailsRead s.now at lo hi 1 0 result }
{
    let third = tail(&*s, at, lo, hi)?;
    tail(&*s, third, 0x80, 0xbf)
}

// The same of a character of four bytes.
fn tails_of_4(s: &[u8], at: usize, lo: u8, hi: u8) -> Result<usize, usize>
    ensures { TailsRead s.now at lo hi 2 0 result }
{
    let third = tail(&*s, at, lo, hi)?;
    tails_of_3(&*s, third, 0x80, 0xbf)
}

// The tails at `at` of the character whose first byte is `b`, which is not ASCII: the place behind them, or how many bytes are looked
// at. The bounds of the second byte leave out what fits in two bytes (after E0) or three (after F0), the surrogates (after ED) and what
// lies above the last character, 10FFFF (after F4). None begins with a tail, with C0 or C1, whose two bytes would fit in one, or
// above F4: then no byte is read any more. (The ranges come first: one table of all is slower where characters have two bytes.)
fn tails(s: &[u8], at: usize, b: u8) -> Result<usize, usize>
    requires { In 0x80 0xff b }
    ensures { Reads s.now (after_first b) at 0 result }
{
    match b {
        ..=0xc1 => Err(at),
        ..=0xdf => tail(&*s, at, 0x80, 0xbf),
        ..=0xef => match b {
            0xe0 => tails_of_3(&*s, at, 0xa0, 0xbf),
            0xed => tails_of_3(&*s, at, 0x80, 0x9f),
            _ => tails_of_3(&*s, at, 0x80, 0xbf),
        },
        ..=0xf4 => match b {
            0xf0 => tails_of_4(&*s, at, 0x90, 0xbf),
            0xf4 => tails_of_4(&*s, at, 0x80, 0x8f),
            _ => tails_of_4(&*s, at, 0x80, 0xbf),
        },
        _ => Err(at),
    }
}

// What is added to the count where the bytes are no text. (A slice has fewer bytes.)
const NO_TEXT: usize = 0x8000_0000_0000_0000;

// The check, as one number: a struct or a `Result` is replied by way of memory, and a short name would wait for that.
fn looked(s: &[u8]) -> usize
    ensures { unpacked result ≡ checked s.now }
{
    let mut stretch = ascii(&*s, 0);
    while let Some((byte, behind)) = stretch {
        match tails(&*s, behind, byte) {
            Ok(next) => stretch = ascii(&*s, next),
            Err(count) => return NO_TEXT + count,
        }
    }
    s.len()
}

// Whether `s` is text in UTF-8, and how many of its bytes were looked at: all, or up to and with the first that no text has there after
// the bytes before it.
pub fn check(s: &[u8]) -> TextCheck
    ensures valid_value { result.valid ≡ utf8 s.now }
    ensures variant { result.valid ≡ true ↔ Text s.now }
    ensures looked_value { result.looked ≡ looked_at s.now }
    ensures looked_at { LookedAt s.now result.looked }
{
    let n = looked(&*s);
    if n < NO_TEXT {
        return TextCheck {
            valid: true,
            looked: n,
        };
    }
    TextCheck {
        valid: false,
        looked: n - NO_TEXT,
    }
}

// Whether `s` is text in UTF-8: the check's first answer.
pub fn is_utf8(s: &[u8]) -> bool
    ensures value { result ≡ utf8 s.now }
    ensures variant { result ≡ true ↔ Text s.now }
{
    looked(&*s) < NO_TEXT
}
