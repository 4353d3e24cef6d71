// Cursors of each kind by their numbers, and one step of one.
//
// A cursor that knows how many records are left at most says so before each step. The answer of a
// step is the record's place, or the values of a name entry, or a refusal. Behind a record comes its number, with
// the count of the cursor behind it. At the end, 9, the cursor must come back unchanged.
use crate::answers::Answers;
use crate::kinds;
use cursors::iterators::{FuncCursor, ParamCursor, Step, VarCursor};
use impltypes::ImplTypeCursor;
use member_records::func::FuncRecord;
use member_records::param::ParameterInfo;
use member_records::var::VarRecord;
use records::answer::{Place, Refusal};
use records::guidentry::GuidEntry;
use records::impfile::ImpFile;
use records::impinfo::ImpInfo;
use records::name::NameEntry;
use records::refrecord::RefRecord;
use records::typeinfo::TypeInfoEntry;
use table_cursors::iterators::{
    GuidCursor, ImpFileCursor, ImportCursor, NameCursor, TypeInfoCursor,
};
use typelib::{TypeInfoIndex, TypeLib};

// A cursor of any kind by its numbers. One that has fewer leaves the others 0.
#[derive(Clone, Copy, PartialEq, Eq)]
pub struct State {
    pub pos: usize,
    pub end: usize,
    pub rest: usize,
    pub next: u32,
    // How many records it has yielded; of typeinfos their index.
    pub count: u64,
}

// (Each cursor has fields of its own, so each says what its state is. All take the library, as one
// of them needs it for a step.)
pub(crate) trait Cursor: Copy {
    type Record: Copy;

    fn at(state: State) -> Self;

    fn state(self) -> State;

    // How many records are left at most, of a cursor that knows it.
    fn hint(self, lib: TypeLib) -> Option<usize>;

    fn step(self, lent: &[u8], lib: TypeLib) -> Step<Self::Record, Self>;

    fn same_record(answers: &mut Answers, record: Self::Record);
}

// The cursors that count the records that are left.
impl Cursor for FuncCursor {
    type Record = FuncRecord;

    fn at(state: State) -> FuncCursor {
        FuncCursor {
            pos: state.pos,
            end: state.end,
            remaining: state.rest,
            yielded: state.count,
        }
    }

    fn state(self) -> State {
        State {
            pos: self.pos,
            end: self.end,
            rest: self.remaining,
            next: 0,
            count: self.yielded,
        }
    }

    fn hint(self, _lib: TypeLib) -> Option<usize> {
        Some(self.size_hint())
    }

    fn step(self, lent: &[u8], _lib: TypeLib) -> Step<FuncRecord, FuncCursor> {
        self.step(lent)
    }

    fn same_record(answers: &mut Answers, record: FuncRecord) {
        answers.same(Ok(record));
    }
}

impl Cursor for VarCursor {
    type Record = VarRecord;

    fn at(state: State) -> VarCursor {
        VarCursor {
            pos: state.pos,
            end: state.end,
            remaining: state.rest,
            yielded: state.count,
        }
    }

    fn state(self) -> State {
        State {
            pos: self.pos,
            end: self.end,
            rest: self.remaining,
            next: 0,
            count: self.yielded,
        }
    }

    fn hint(self, _lib: TypeLib) -> Option<usize> {
        Some(self.size_hint())
    }

    fn step(self, lent: &[u8], _lib: TypeLib) -> Step<VarRecord, VarCursor> {
        self.step(lent)
    }

    fn same_record(answers: &mut Answers, record: VarRecord) {
        answers.same(Ok(record));
    }
}

impl Cursor for ParamCursor {
    type Record = ParameterInfo;

    fn at(state: State) -> ParamCursor {
        ParamCursor {
            pos: state.pos,
            end: state.end,
            remaining: state.rest,
            yielded: state.count,
        }
    }

    fn state(self) -> State {
        State {
            pos: self.pos,
            end: self.end,
            rest: self.remaining,
            next: 0,
            count: self.yielded,
        }
    }

    fn hint(self, _lib: TypeLib) -> Option<usize> {
        Some(self.size_hint())
    }

    fn step(self, lent: &[u8], _lib: TypeLib) -> Step<ParameterInfo, ParamCursor> {
        self.step(lent)
    }

    fn same_record(answers: &mut Answers, record: ParameterInfo) {
        answers.same(Ok(record));
    }
}

// The cursors that go on to the end of a table.
impl Cursor for GuidCursor {
    type Record = GuidEntry;

    fn at(state: State) -> GuidCursor {
        GuidCursor {
            pos: state.pos,
            end: state.end,
            yielded: state.count,
        }
    }

    fn state(self) -> State {
        State {
            pos: self.pos,
            end: self.end,
            rest: 0,
            next: 0,
            count: self.yielded,
        }
    }

    fn hint(self, _lib: TypeLib) -> Option<usize> {
        None
    }

    fn step(self, lent: &[u8], _lib: TypeLib) -> Step<GuidEntry, GuidCursor> {
        self.step(lent)
    }

    fn same_record(answers: &mut Answers, record: GuidEntry) {
        answers.same(Ok(record));
    }
}

impl Cursor for ImportCursor {
    type Record = ImpInfo;

    fn at(state: State) -> ImportCursor {
        ImportCursor {
            pos: state.pos,
            end: state.end,
            yielded: state.count,
        }
    }

    fn state(self) -> State {
        State {
            pos: self.pos,
            end: self.end,
            rest: 0,
            next: 0,
            count: self.yielded,
        }
    }

    fn hint(self, _lib: TypeLib) -> Option<usize> {
        None
    }

    fn step(self, lent: &[u8], _lib: TypeLib) -> Step<ImpInfo, ImportCursor> {
        self.step(lent)
    }

    fn same_record(answers: &mut Answers, record: ImpInfo) {
        answers.same(Ok(record));
    }
}

impl Cursor for ImpFileCursor {
    type Record = ImpFile;

    fn at(state: State) -> ImpFileCursor {
        ImpFileCursor {
            pos: state.pos,
            end: state.end,
            yielded: state.count,
        }
    }

    fn state(self) -> State {
        State {
            pos: self.pos,
            end: self.end,
            rest: 0,
            next: 0,
            count: self.yielded,
        }
    }

    fn hint(self, _lib: TypeLib) -> Option<usize> {
        None
    }

    fn step(self, lent: &[u8], _lib: TypeLib) -> Step<ImpFile, ImpFileCursor> {
        self.step(lent)
    }

    fn same_record(answers: &mut Answers, record: ImpFile) {
        answers.same(Ok(record));
    }
}

impl Cursor for NameCursor {
    type Record = NameEntry;

    fn at(state: State) -> NameCursor {
        NameCursor {
            pos: state.pos,
            end: state.end,
            start: state.rest,
            yielded: state.count,
        }
    }

    fn state(self) -> State {
        State {
            pos: self.pos,
            end: self.end,
            rest: self.start,
            next: 0,
            count: self.yielded,
        }
    }

    fn hint(self, _lib: TypeLib) -> Option<usize> {
        None
    }

    fn step(self, lent: &[u8], _lib: TypeLib) -> Step<NameEntry, NameCursor> {
        self.step(lent)
    }

    fn same_record(answers: &mut Answers, record: NameEntry) {
        kinds::name_entry(answers, record);
    }
}

// The cursor over typeinfos, by the index of its next one.
impl Cursor for TypeInfoCursor {
    type Record = TypeInfoEntry;

    fn at(state: State) -> TypeInfoCursor {
        TypeInfoCursor {
            index: TypeInfoIndex(state.pos),
        }
    }

    fn state(self) -> State {
        State {
            pos: self.index.0,
            end: 0,
            rest: 0,
            next: 0,
            count: self.index.0 as u64,
        }
    }

    fn hint(self, lib: TypeLib) -> Option<usize> {
        Some(self.size_hint(lib))
    }

    fn step(self, lent: &[u8], lib: TypeLib) -> Step<TypeInfoEntry, TypeInfoCursor> {
        self.step(lent, lib)
    }

    fn same_record(answers: &mut Answers, record: TypeInfoEntry) {
        answers.same(Ok(record));
    }
}

// The cursor along a chain, by its table and the offset of its next record.
impl Cursor for ImplTypeCursor {
    type Record = RefRecord;

    fn at(state: State) -> ImplTypeCursor {
        ImplTypeCursor {
            table: Place {
                at: state.pos,
                len: state.end,
            },
            next: state.next,
            yielded: state.count,
        }
    }

    fn state(self) -> State {
        State {
            pos: self.table.at,
            end: self.table.len,
            rest: 0,
            next: self.next,
            count: self.yielded,
        }
    }

    fn hint(self, _lib: TypeLib) -> Option<usize> {
        None
    }

    fn step(self, lent: &[u8], _lib: TypeLib) -> Step<RefRecord, ImplTypeCursor> {
        self.step(lent)
    }

    fn same_record(answers: &mut Answers, record: RefRecord) {
        answers.same(Ok(record));
    }
}

// One step of a cursor, and the cursor behind it.
pub(crate) fn step<C: Cursor>(answers: &mut Answers, lib: TypeLib, state: State) -> State {
    let cursor = C::at(state);
    if let Some(most) = cursor.hint(lib) {
        answers.same(Ok(most));
    }
    match cursor.step(answers.lent, lib) {
        Step::Record(record, number, next) => {
            let behind = next.state();
            C::same_record(answers, record);
            answers.same(Ok((number, behind.count)));
            behind
        }
        Step::Refused(refusal, next) => {
            let behind = next.state();
            answers.same::<Place>(Err(refusal));
            answers.noted(refusal != Refusal::NothingThere || behind == state);
            behind
        }
    }
}
