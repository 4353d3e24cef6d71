// Answers as rows.

#![tactic(auto)]

pub mod row;
pub mod steps;
#[cfg(test)]
mod tests;
pub mod values;

ghost use Rattle.std.specs.Prelude.{◌≡◌};
ghost use Rattle.records.specs.Answer.{map};
ghost use Rattle.records.specs.Told.{told, told_as};
ghost use Rattle.rows.specs.Told.{told_by_as, told_row, told_row_as, told_row_within};
ghost use Rattle.rows.specs.Values.{cursor, place};

use crate::row::{Cursor, Laid, LaidWithin, Row};
use records::answer::{Refusal, Refuses};
use records::field::Record;

// The row of an answer. (One line for each of the traits, here and below: a closure for the method would be no shorter.)
pub fn of<T: Laid>(answer: Result<T, Refusal>) -> Result<Row, Refusal>
    ensures { told_row result ≡ map T.bytes (told answer) }
{
    Ok(answer?.row())
}

// The same, whatever refuses the answer (`E`) and the file in its value. (Not one with `of`: what is `Laid` need not say what refuses a file.)
pub fn of_within<T: LaidWithin, E: Refuses>(answer: Result<T, E>) -> Result<Row<T::FileRefusal>, E>
    ensures { told_row_within T.FileRefusal.number E.number result ≡ map T.bytes (told_as E.number answer) }
{
    Ok(answer?.row_within())
}

// The row of a record, its place.
pub fn of_record<R: Record, E: Refuses>(answer: Result<R, E>) -> Result<Row, E>
    ensures { told_row_as E.number result ≡ map place (told_by_as E.number R.place answer) }
{
    Ok(answer?.place().row_within())
}

// The row of a cursor, its numbers.
pub fn of_cursor<C: Cursor, E: Refuses>(answer: Result<C, E>) -> Result<Row, E>
    ensures { told_row_as E.number result ≡ map (cursor C.numbers) (told_as E.number answer) }
{
    Ok(Row::Plain(answer?.numbers()))
}
