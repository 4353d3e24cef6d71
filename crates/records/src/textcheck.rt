// The check of a text at a place of the lent bytes (document 02, §3). The Rust has none: it replies the text or nothing.
ghost use Rattle.std.specs.Prelude.{◌≡◌};
ghost use Rattle.records.specs.Counted.{check_at};
ghost use Rattle.records.specs.Told.{told};

use crate::answer::{Place, Refusal};
use crate::{answer, field};
use utf8::TextCheck;

// Whether the bytes at a place are text in UTF-8, and how many of them were looked at; 1 where more than 16,777,216 bytes are lent, 9 where
// the place is not inside them.
pub fn text_check(s: &[u8], at: usize, len: usize) -> Result<TextCheck, Refusal>
    ensures { told result ≡ check_at s.now at len }
{
    let place = field::record_place(s, Place { at, len }, 0)?;
    Ok(utf8::check(answer::part(s, Ok::<_, Refusal>(place))))
}
