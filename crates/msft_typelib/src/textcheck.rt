// The check of a text, by its place.
ghost use Rattle.std.specs.Prelude.{◌≡◌};
ghost use Rattle.records.specs.Answer.{map};
ghost use Rattle.records.specs.Counted.{check_at};
ghost use Rattle.replies.specs.Call.{laid, outcome};
ghost use Rattle.rows.specs.Values.{text_check};

use records::textcheck;
use replies::reply;

// Whether the bytes at a place are text in UTF-8, and how many of them were looked at.
#[unsafe(no_mangle)]
pub extern "C" fn msft_text_check(s: &[u8], at: usize, len: usize, out: &mut [u8]) -> i64
    ensures { outcome result out.new ≡ laid (map text_check (check_at s.now at len)) out.old }
{
    reply::lay(rows::of_within(textcheck::text_check(s, at, len)), out)
}
