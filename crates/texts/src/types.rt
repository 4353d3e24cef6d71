// The words for kinds of types, and the names of type codes (types.rs of the source).
ghost use Rattle.std.specs.Prelude.{◌≡◌};
ghost use Rattle.records.specs.Answer.{value};
ghost use Rattle.records.specs.Told.{told};
ghost use Rattle.texts.specs.Text.{word_of, Laid};
ghost use Rattle.texts.specs.Types.{kind_word, vt_name};

use crate::text;
use records::answer::Refusal;
use records::types::TypeKind;

// Writes the kind's word to the front of `out`, and replies how many bytes it has; refusal 12 where
// `out` is shorter. A refusal writes nothing.
pub fn word(kind: TypeKind, out: &mut [u8]) -> Result<usize, Refusal>
    ensures { Laid (value (kind_word kind)) out.old (told result) out.new }
{
    let word = kind_word(kind);
    text::put_word(&word, out)
}

// The names of the codes 0 to 29, each in a cell that blanks fill up. (As an array of `&str` the proof did not close.)
const NAMES: [[u8; 12]; 30] = [
    *b"void        ",
    *b"Unknown     ",
    *b"Integer     ",
    *b"Long        ",
    *b"Single      ",
    *b"Double      ",
    *b"Currency    ",
    *b"Date        ",
    *b"String      ",
    *b"Object      ",
    *b"SCODE       ",
    *b"Boolean     ",
    *b"Variant     ",
    *b"IUnknown    ",
    *b"Unknown     ",
    *b"Unknown     ",
    *b"SignedByte  ",
    *b"Byte        ",
    *b"UShort      ",
    *b"ULong       ",
    *b"LongLong    ",
    *b"ULongLong   ",
    *b"Int         ",
    *b"UInt        ",
    *b"void        ",
    *b"HRESULT     ",
    *b"Ptr         ",
    *b"SafeArray   ",
    *b"CArray      ",
    *b"UserDefined ",
];

// Writes the name of a VARTYPE code to the front of `out`, and replies how many bytes it has; refusal 12
// where `out` is shorter. A refusal writes nothing. (A code is any number of the file: one that has no cell is Unknown.)
pub fn vt_name(vt: u16, out: &mut [u8]) -> Result<usize, Refusal>
    ensures { Laid (value (vt_name vt)) out.old (told result) out.new }
{
    let code = usize::from(vt);
    if code < NAMES.len() {
        text::put_word(&NAMES[code], out)
    } else {
        text::put(b"Unknown", out)
    }
}

// The kind's word, in a cell that blanks fill up: one is made of digits, and there is no heap for it.
#[tactic(auto, unfolding(crate::specs::Types::kind_word))]
fn kind_word(kind: TypeKind) -> [u8; 12]
    ensures { word_of result ≡ kind_word kind }
{
    match kind {
        TypeKind::Enum => *b"ENUM        ",
        TypeKind::Record => *b"RECORD      ",
        TypeKind::Module => *b"MODULE      ",
        TypeKind::Interface => *b"INTERFACE   ",
        TypeKind::Dispatch => *b"DISPATCH    ",
        TypeKind::CoClass => *b"COCLASS     ",
        TypeKind::Alias => *b"ALIAS       ",
        TypeKind::Union => *b"UNION       ",
        TypeKind::Unknown(n) => unknown_word(n),
    }
}

// The word for a kind that has only a number. (One, two or three digits, each at its place: a loop over them would be no shorter.)
fn unknown_word(n: u8) -> [u8; 12]
    ensures { word_of result ≡ kind_word (TypeKind.Unknown n) }
{
    let ones = text::digit(n % 10);
    let tens = text::digit(n / 10 % 10);
    let hundreds = text::digit(n / 100);
    let mut word: [u8; 12] = *b"UNKNOWN(    ";
    if n < 10 {
        word[8] = ones;
        word[9] = b')';
        return word;
    }
    if n < 100 {
        word[8] = tens;
        word[9] = ones;
        word[10] = b')';
        return word;
    }
    word[8] = hundreds;
    word[9] = tens;
    word[10] = ones;
    word[11] = b')';
    word
}
