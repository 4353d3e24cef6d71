// Kinds of types and the names of codes. These take no library.
ghost use Rattle.std.specs.Prelude.{◌≡◌};
ghost use Rattle.records.specs.Answer.{value};
ghost use Rattle.records.specs.Types.{kind_of};
ghost use Rattle.texts.specs.Types.{kind_word, vt_name};
ghost use Rattle.replies.specs.Call.{kind_number, laid, outcome, reply};

use records::types::TypeKind;
use replies::reply;
use texts::types;

// The kind that a number stands for, by its number: 0 to 7, or one that TYPEKIND has not.
#[unsafe(no_mangle)]
pub extern "C" fn msft_kind_from_raw(raw: u8) -> i64
    ensures { result ≡ reply (value (kind_number (kind_of raw))) }
{
    reply::kind_number(TypeKind::from_raw(raw)) as i64
}

// The word for a kind, as the Rust displays it.
#[unsafe(no_mangle)]
pub extern "C" fn msft_kind_word(raw: u8, out: &mut [u8]) -> i64
    ensures { outcome result out.new ≡ laid (value (kind_word (kind_of raw))) out.old }
{
    reply::of_written(types::word(TypeKind::from_raw(raw), out))
}

// The name of a VARTYPE code.
#[unsafe(no_mangle)]
pub extern "C" fn msft_vt_name(vt: u16, out: &mut [u8]) -> i64
    ensures { outcome result out.new ≡ laid (value (vt_name vt)) out.old }
{
    reply::of_written(types::vt_name(vt, out))
}
