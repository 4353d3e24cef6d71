// The replies, and rows laid into an output.
ghost use Rattle.std.specs.Prelude.{◌≡◌, refl, ◌^◌, pos, neg_ℤ, ℕ, Ok, Err};
ghost use Rattle.std.specs.Int.{w64};
ghost use Rattle.std.specs.declared.result.Result.{Result};
ghost use Rattle.std.proofs.Common.{to_z, of_z};
ghost use Rattle.records.specs.Answer.{Answer, map, value, refused};
ghost use Rattle.records.specs.Told.{refusal_number, told, told_as};
ghost use Rattle.records.specs.declared.answer.Refusal.{Refusal};
ghost use Rattle.replies.specs.Call.{reply, bits16, bits32, truth, kind_number, outcome, laid};
ghost use Rattle.replies.specs.Written.{below};
ghost use Rattle.rows.specs.Told.{told_row_within};

use records::answer::{Refusal, Refuses};
use records::types::TypeKind;
use rows::row::Row;
use typelib::TypeInfoOffset;

// A value that is replied as a number of at most 32 bits. (Each type says itself how it becomes the number that C gets, and what is told of it.)
pub trait Reply: Copy {
    // What is replied of an answer.
    ghost answer: { Result Self Refusal → Answer ℕ };

    fn number(self) -> u32
        ensures { answer (Ok self) ≡ value result };

    ghost refuses: { (e : Refusal) → answer (Err e) ≡ refused (refusal_number e) };
}

// The same, whatever refuses the answer.
pub trait ReplyTold: Copy {
    // What is replied of what was told.
    ghost replied: { Answer Self → Answer ℕ };

    fn number_told(self) -> u32
        ensures { replied (value self) ≡ value result };

    ghost refuses: { (n : ℕ) → replied (refused n) ≡ refused n };
}

// An answer with a `Refusal` is replied by what it tells.
impl<T: ReplyTold> Reply for T {
    ghost answer = { λ a. T.replied (told a) };

    ghost refuses = { λ e. T.refuses (refusal_number e) };

    fn number(self) -> u32 {
        self.number_told()
    }
}

impl ReplyTold for u8 {
    ghost replied = { λ a. a };

    ghost refuses = { λ _. refl };

    fn number_told(self) -> u32 {
        self as u32
    }
}

impl ReplyTold for u16 {
    ghost replied = { λ a. a };

    ghost refuses = { λ _. refl };

    fn number_told(self) -> u32 {
        self as u32
    }
}

impl ReplyTold for u32 {
    ghost replied = { λ a. a };

    ghost refuses = { λ _. refl };

    fn number_told(self) -> u32 {
        self
    }
}

// A signed number is replied by its bits.
impl ReplyTold for i16 {
    ghost replied = { bits16 };

    ghost refuses = { λ _. refl };

    fn number_told(self) -> u32 {
        self.cast_unsigned() as u32
    }
}

impl ReplyTold for i32 {
    ghost replied = { bits32 };

    ghost refuses = { λ _. refl };

    fn number_told(self) -> u32 {
        self.cast_unsigned()
    }
}

impl ReplyTold for bool {
    ghost replied = { truth };

    ghost refuses = { λ _. refl };

    fn number_told(self) -> u32 {
        rows::values::bit(self) as u32
    }
}

impl ReplyTold for TypeKind {
    ghost replied = { map kind_number };

    ghost refuses = { λ _. refl };

    fn number_told(self) -> u32 {
        kind_number(self) as u32
    }
}

impl ReplyTold for TypeInfoOffset {
    ghost replied = { map (λ o. o.0) };

    ghost refuses = { λ _. refl };

    fn number_told(self) -> u32 {
        self.0
    }
}

// A refusal's reply. (A number and no `Refusal`: whatever byte a caller has is replied.)
pub fn minus(number: u8) -> i64
    ensures { result ≡ neg_ℤ (pos number) }
{
    -(number as i64)
}

// The number, or the refusal. (It is stated of the bits of an i64, as a caller that hands it on reads it.)
pub fn of<T: Reply>(answer: Result<T, Refusal>) -> i64
    ensures { to_z w64 (of_z w64 result) ≡ reply (T.answer answer) }
{
    match answer {
        Ok(x) => x.number() as i64,
        Err(refusal) => minus(refusal.number()),
    }
}

// The same, whatever refuses the answer. (Not one with `of`: what is `Reply` says what is replied of a `Refusal` alone.)
pub fn of_told<T: ReplyTold, E: Refuses>(answer: Result<T, E>) -> i64
    ensures { to_z w64 (of_z w64 result) ≡ reply (T.replied (told_as E.number answer)) }
{
    match answer {
        Ok(x) => x.number_told() as i64,
        Err(refusal) => minus(refusal.number_of()),
    }
}

// (The numbers are those that C gets. A cast gives none, as one variant holds its own.)
#[tactic(auto, unfolding(crate::specs::Call::kind_number))]
pub fn kind_number(kind: TypeKind) -> u8
    ensures { result ≡ kind_number kind }
{
    match kind {
        TypeKind::Enum => 0,
        TypeKind::Record => 1,
        TypeKind::Module => 2,
        TypeKind::Interface => 3,
        TypeKind::Dispatch => 4,
        TypeKind::CoClass => 5,
        TypeKind::Alias => 6,
        TypeKind::Union => 7,
        TypeKind::Unknown(n) => n,
    }
}

// How many bytes were written, or the refusal. (No output has 2^63 bytes. The test is the one of the contract, `below`.)
pub fn of_written<E: Refuses>(answer: Result<usize, E>) -> i64
    ensures { to_z w64 (of_z w64 result) ≡ reply (map (below (2 ^ 63)) (told_as E.number answer)) }
{
    match answer {
        Ok(n) => {
            if n < 0x8000_0000_0000_0000 {
                n as i64
            } else {
                0
            }
        }
        Err(refused) => minus(refused.number_of()),
    }
}

// Lays the row into the output. A first run over no output tells the length. (`E` refuses the row, `F` the file in it.)
pub fn lay<F: Refuses, E: Refuses>(answer: Result<Row<F>, E>, out: &mut [u8]) -> i64
    ensures { outcome (to_z w64 (of_z w64 result)) out.new ≡ laid (told_row_within F.number E.number answer) out.old }
{
    let row = match answer {
        Ok(row) => row,
        Err(refusal) => return minus(refusal.number_of()),
    };
    let size = row_bytes::put_row(&mut [], 0, Ok::<_, E>(row));
    if out.len() < size {
        return minus(Refusal::NoSpace.number());
    }
    row_bytes::put_row(&mut out[..size], 0, Ok::<_, E>(row));
    size as i64
}
