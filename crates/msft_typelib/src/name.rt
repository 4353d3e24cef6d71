// An entry of the name table, by the place of its text.
ghost use Rattle.std.specs.Prelude.{◌≡◌};
ghost use Rattle.records.specs.Answer.{map};
ghost use Rattle.records.specs.Counted.{text_at};
ghost use Rattle.replies.specs.Call.{laid, outcome};
ghost use Rattle.rows.specs.Values.{place};

use records::answer::Place;
use records::name::NameEntry;
use replies::reply;

// The entry's name, where it is UTF-8. (Its other readings are the numbers that a step laid out.)
#[unsafe(no_mangle)]
pub extern "C" fn msft_nameentry_name(s: &[u8], at: usize, len: usize, out: &mut [u8]) -> i64
    ensures { outcome result out.new ≡ laid (map place (text_at s.now at len)) out.old }
{
    let text = Place { at, len };
    let entry = NameEntry {
        offset: 0,
        text,
        hreftype: 0,
        next_hash: 0,
        flags: 0,
        hashcode: 0,
    };
    reply::lay(rows::of_within(entry.name(s)), out)
}
