// The rows of cursors and of their steps.
ghost use Rattle.std.specs.Prelude.{◌≡◌};
ghost use Rattle.cursors.specs.Told.{told_step_as};
ghost use Rattle.impltypes.specs.Chain.{told_impl_type_step_as};
ghost use Rattle.rows.specs.Told.{told_row_as};
ghost use Rattle.rows.specs.Values.{chain_cursor, chain_step, entry_step, func_numbers, guid_numbers, imp_file_numbers, import_numbers, name_numbers, param_numbers, step, typeinfo_numbers, var_numbers};
ghost use Rattle.table_cursors.specs.Told.{told_name_step_as};

use crate::row::{Cursor, LaidWithin, Longs, Row};
use cursors::iterators::{FuncCursor, ParamCursor, Step, VarCursor};
use impltypes::ImplTypeCursor;
use records::answer::{Refusal, Refuses};
use records::field::Record;
use records::name::NameEntry;
use records::refrecord::RefRecord;
use table_cursors::iterators::{
    GuidCursor, ImpFileCursor, ImportCursor, NameCursor, TypeInfoCursor,
};

// (Each cursor gives its own numbers: their fields differ, and their order is what C sees.)
impl Cursor for FuncCursor {
    ghost numbers = { func_numbers };

    fn numbers(self) -> Longs {
        Longs::Four(
            self.pos as u64,
            self.end as u64,
            self.remaining as u64,
            self.yielded,
        )
    }
}

impl Cursor for VarCursor {
    ghost numbers = { var_numbers };

    fn numbers(self) -> Longs {
        Longs::Four(
            self.pos as u64,
            self.end as u64,
            self.remaining as u64,
            self.yielded,
        )
    }
}

impl Cursor for ParamCursor {
    ghost numbers = { param_numbers };

    fn numbers(self) -> Longs {
        Longs::Four(
            self.pos as u64,
            self.end as u64,
            self.remaining as u64,
            self.yielded,
        )
    }
}

impl Cursor for GuidCursor {
    ghost numbers = { guid_numbers };

    fn numbers(self) -> Longs {
        Longs::Three(self.pos as u64, self.end as u64, self.yielded)
    }
}

impl Cursor for ImportCursor {
    ghost numbers = { import_numbers };

    fn numbers(self) -> Longs {
        Longs::Three(self.pos as u64, self.end as u64, self.yielded)
    }
}

impl Cursor for ImpFileCursor {
    ghost numbers = { imp_file_numbers };

    fn numbers(self) -> Longs {
        Longs::Three(self.pos as u64, self.end as u64, self.yielded)
    }
}

impl Cursor for NameCursor {
    ghost numbers = { name_numbers };

    fn numbers(self) -> Longs {
        Longs::Four(
            self.pos as u64,
            self.end as u64,
            self.start as u64,
            self.yielded,
        )
    }
}

impl Cursor for TypeInfoCursor {
    ghost numbers = { typeinfo_numbers };

    fn numbers(self) -> Longs {
        Longs::One(self.index.0 as u64)
    }
}

impl LaidWithin for ImplTypeCursor {
    type FileRefusal = Refusal;

    ghost bytes = { chain_cursor };

    fn row_within(self) -> Row {
        let table = self.table;
        let longs = Longs::Two(table.at as u64, table.len as u64);
        Row::Chain(longs, self.next, self.yielded)
    }
}

// A record, its number and the cursor behind it. (An arm hands the refusal on, here and below: a step is no `Result`, as its cursor
// comes back either way.)
pub fn of_step<R: Record, C: Cursor, E: Refuses>(taken: Step<R, C, E>) -> Result<Row, E>
    ensures { told_row_as E.number result ≡ step C.numbers (told_step_as E.number R.place taken) }
{
    match taken {
        Step::Record(record, number, next) => Ok(Row::Step(record.place(), number, next.numbers())),
        Step::Refused(refusal, _) => Err(refusal),
    }
}

pub fn of_impl_type_step<E: Refuses>(taken: Step<RefRecord, ImplTypeCursor, E>) -> Result<Row, E>
    ensures { told_row_as E.number result ≡ chain_step (told_impl_type_step_as E.number taken) }
{
    match taken {
        Step::Record(record, number, next) => Ok(Row::Chain(
            Longs::Five(
                record.at as u64,
                record.len as u64,
                number,
                next.table.at as u64,
                next.table.len as u64,
            ),
            next.next,
            next.yielded,
        )),
        Step::Refused(refusal, _) => Err(refusal),
    }
}

pub fn of_name_step<E: Refuses>(taken: Step<NameEntry, NameCursor, E>) -> Result<Row, E>
    ensures { told_row_as E.number result ≡ entry_step (told_name_step_as E.number taken) }
{
    match taken {
        Step::Record(entry, number, next) => Ok(Row::Entry(entry, number, next)),
        Step::Refused(refusal, _) => Err(refusal),
    }
}
