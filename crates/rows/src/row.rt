// What is laid into an output: a row of numbers, each with its width. (`row_bytes` writes its bytes.)
ghost use Rattle.std.specs.Prelude.{◌≡◌, List, ℕ};
ghost use Rattle.rows.specs.Told.{bytes_of, bytes_of_as, numbers_of};

use records::answer::{Place, Refusal, Refuses};
use records::impfile::ImpFile;
use records::name::NameEntry;
use records::types::ConstValue;
use table_cursors::iterators::NameCursor;

// Numbers of eight bytes each. (No slice: a row is handed on whole, and there is no heap.)
#[derive(Clone, Copy)]
pub enum Longs {
    One(u64),
    Two(u64, u64),
    Three(u64, u64, u64),
    Four(u64, u64, u64, u64),
    Five(u64, u64, u64, u64, u64),
}

// (`F` is what the file of an import is refused with: a `Refusal` in a reading's row.)
#[derive(Clone, Copy)]
pub enum Row<F = Refusal> {
    Plain(Longs),
    Words(u32, u32),
    // A record's place and its number, and the numbers of the cursor behind it.
    Step(Place, u64, Longs),
    // A chain's cursor, and a record and its number before it: the next offset has four bytes.
    Chain(Longs, u32, u64),
    // A code of one byte, and what it announces; or a truth, and numbers beside it.
    Marked(u8, Longs),
    Half(u8, u16),
    Word(u8, u32),
    // The record of an import, and the file that it names.
    Import(Place, Result<ImpFile, F>),
    Constant(ConstValue),
    // An entry, its number, and the cursor behind it.
    Entry(NameEntry, u64, NameCursor),
    // A sheet's length, and what it reads: functions, parameters, variables, references.
    Figures(u32, u32, u32, u32, u32),
}

// A value that is laid as a row.
pub trait Laid: Copy {
    ghost bytes: { Self → List ℕ };

    fn row(self) -> Row
        ensures { bytes_of result ≡ bytes self };
}

// The same, whatever refuses the file in the value.
pub trait LaidWithin: Copy {
    // What the file in the value is refused with; a `Refusal` if it holds no file.
    type FileRefusal: Refuses;

    ghost bytes: { Self → List ℕ };

    fn row_within(self) -> Row<Self::FileRefusal>
        ensures { bytes_of_as Self.FileRefusal.number result ≡ bytes self };
}

// Where `FileRefusal` is `Refusal`, a value is `Laid`, with the same row.
impl<T: LaidWithin<FileRefusal = Refusal>> Laid for T {
    ghost bytes = { T.bytes };

    fn row(self) -> Row {
        self.row_within()
    }
}

// A cursor that is laid as its numbers.
pub trait Cursor: Copy {
    ghost numbers: { Self → List ℕ };

    fn numbers(self) -> Longs
        ensures { numbers_of result ≡ numbers self };
}
