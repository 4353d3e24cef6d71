// What a reading replies: the value, or why it refuses.
ghost use Rattle.std.specs.Prelude.{◌≡◌, ℕ, refl};
ghost use Rattle.records.specs.Record.{part_of};
ghost use Rattle.records.specs.Counted.{text_of};
ghost use Rattle.records.specs.Told.{refusal_number, told_as};
ghost use Rattle.records.specs.declared.answer.Refusal.TheVariants.{NothingThere};

// Why a reading or the sheet refuses. (Each has its number, which C sees.)
#[derive(Clone, Copy, Debug, PartialEq, Eq)]
pub enum Refusal {
    OverLong = 1,
    ShortHeader = 2,
    WrongMagic = 3,
    BadCount = 4,
    ShortDirectory = 5,
    NoSuchTypeInfo = 6,
    NoTypeInfoTable = 7,
    ShortTypeInfo = 8,
    NothingThere = 9,
    Circle = 10,
    TooDeep = 11,
    NoSpace = 12,
    TooManyTypes = 13,
}

impl Refusal {
    pub fn number(self) -> u8
        ensures { result ≡ refusal_number self }
    {
        self as u8
    }
}

// What refuses: a `Refusal`, or a number of the caller's own. (A function that is given an answer takes either. A reading replies a `Refusal`.)
pub trait Refuses: Copy {
    ghost number: { Self → ℕ };

    // Refusal 9, "nothing there".
    ghost NOTHING_THERE: { Self };

    const NOTHING_THERE: Self;

    fn number_of(self) -> u8
        ensures { result ≡ number self };

    ghost nine: { number NOTHING_THERE ≡ 9 };
}

impl Refuses for Refusal {
    ghost number = { refusal_number };

    ghost NOTHING_THERE = { NothingThere };

    const NOTHING_THERE: Refusal = Refusal::NothingThere;

    ghost nine = { refl };

    fn number_of(self) -> u8 {
        self.number()
    }
}

impl Refuses for u8 {
    ghost number = { λ n. n };

    ghost NOTHING_THERE = { 9 };

    const NOTHING_THERE: u8 = 9;

    ghost nine = { refl };

    fn number_of(self) -> u8 {
        // (Any byte, as the caller has it.)
        self
    }
}

// Bytes of the lent library: where they start, and how many they are.
#[derive(Clone, Copy)]
pub struct Place {
    pub at: usize,
    pub len: usize,
}

// The part of the lent bytes that was answered; empty where the answer is a refusal, or a place
// that is not wholly inside `s`. (An answer is a place, since C and the sheet ask where it lies. No `get`: its range would be a sum that may wrap.)
pub fn part<E: Refuses>(s: &[u8], answer: Result<Place, E>) -> &[u8]
    ensures { result.now ≡ part_of s.now (told_as E.number answer) }
{
    let Ok(place) = answer else {
        return &s[0..0];
    };
    let at = place.at;
    let len = place.len;
    if s.len() < at {
        return &s[0..0];
    }
    if s.len() - at < len {
        return &s[0..0];
    }
    let end = at + len;
    &s[at..end]
}

// The place, where its bytes are text in UTF-8; else 9.
pub fn text<E: Refuses>(s: &[u8], answer: Result<Place, E>) -> Result<Place, E>
    ensures { told_as E.number result ≡ text_of s.now (told_as E.number answer) }
{
    let place = answer?;
    if utf8::is_utf8(part(s, answer)) {
        Ok(place)
    } else {
        Err(E::NOTHING_THERE)
    }
}
