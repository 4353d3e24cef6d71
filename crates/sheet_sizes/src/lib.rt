// The figures of a sheet, before it is made: how long it will be, and how many functions, parameters, variables and references it will
// read (document 02, §5). This is the traversal of the emitters, but it makes no bytes and only counts, which takes a fraction of their
// time. The sheet call measures with its first figure.
//
// A count stops at the last place, 16,777,217 (`emit::PAST`). Where a part ends is a place of `emit`: a refusal stays in it.

#![tactic(auto)]

ghost use Rattle.std.specs.Prelude.{◌≡◌};
ghost use Rattle.records.specs.Answer.{value};
ghost use Rattle.description.specs.Sheet.{edition-one};
ghost use Rattle.describe.specs.Figures.{figures_of};
ghost use Rattle.emit.specs.Emit.{advance};
ghost use Rattle.sheet_bases.specs.Types.{names_bytes};
ghost use Rattle.sheet_sizes.specs.Counted.{header_bytes, library_counted, type_at_counted, type_counted, types_counted};
ghost use Rattle.sheet_sizes.specs.Counts.{Counting, CountingAll, Measured};
ghost use Rattle.sheet_sizes.specs.Told.{told_figures};
ghost use Rattle.typelib.specs.Header.{library};

use records::answer::Refusal;
use records::typeinfo::TypeInfoEntry;
use typelib::{Numbers, TypeInfoIndex, TypeLib, tables, typeinfos};

mod bases;
mod functions;
mod names;
mod parameters;
mod trees;
mod variables;

// The most types that a sheet has.
pub const MOST_TYPES: u32 = 65_535;

// Where the contents have the length of the first type's body.
pub const TYPE_LENGTHS: usize = 8;

// The sheet's length in bytes, and what it reads. A figure above 16,777,216 is given as 16,777,217.
#[derive(Clone, Copy)]
pub struct SheetFigures {
    pub length: u32,
    pub functions: u32,
    pub parameters: u32,
    pub variables: u32,
    pub references: u32,
}

// Where the parts so far end, and what they read.
#[derive(Clone, Copy)]
pub struct Count {
    pub to: usize,
    pub functions: usize,
    pub parameters: usize,
    pub variables: usize,
    pub references: usize,
}

// The same of a part that has neither functions nor parameters nor variables to count.
#[derive(Clone, Copy)]
pub struct Ends {
    pub to: usize,
    pub references: usize,
}

// The figures of the library's sheet, or the refusal that its sheet call gives whatever the output. (Never 12: there is no output.)
pub fn figures(s: &[u8]) -> Result<SheetFigures, Refusal>
    ensures { told_figures result ≡ figures_of edition-one s.now }
{
    let lib = TypeLib::parse(&*s)?;
    if MOST_TYPES < lib.count() {
        return Err(Refusal::TooManyTypes);
    }
    let whole = count_sheet(&*s, &lib.numbers);
    if emit::PAST < whole.to {
        return Err(emit::refusal(whole.to));
    }
    Ok(SheetFigures {
        length: whole.to as u32,
        functions: whole.functions as u32,
        parameters: whole.parameters as u32,
        variables: whole.variables as u32,
        references: whole.references as u32,
    })
}

// What the whole sheet comes to: its contents, the library's own body, and the types. (Where it is refused, `to` is past all places, as
// `emit` has it, and the other four mean nothing.)
pub fn count_sheet(s: &[u8], lib: &Numbers) -> Count
    ensures { CountingAll (library_counted s.now (library lib.now)) result }
{
    let start = ahead(0, TYPE_LENGTHS + 4 * (tables::count(lib) as usize));
    let to = after_header(&*s, lib, start);
    after_types(
        &*s,
        lib,
        Count {
            to,
            functions: 0,
            parameters: 0,
            variables: 0,
            references: 0,
        },
    )
}

// The library's own body: two words, the GUID and the name.
fn after_header(s: &[u8], lib: &Numbers, to: usize) -> usize
    ensures { Measured (value (header_bytes s.now (library lib.now))) to result }
{
    let t = ahead(to, 8);
    let t = names::after_guid(&*s, lib, emit::word_at(s, 0, 0x08), t);
    let names = sheet_trees::names::names_of(&*s, lib);
    names::after_name(&*s, lib, names, emit::word_at(s, 0, 0x38), t)
}

// All types of the library. (A refusal ends it at once: it stays.)
fn after_types(s: &[u8], lib: &Numbers, from: Count) -> Count
    ensures { Counting (types_counted s.now (library lib.now)) from result }
{
    let count = tables::count(lib) as usize;
    let mut c = from;
    for i in 0..count {
        if emit::PAST < c.to {
            return c;
        }
        c = after_type_of(&*s, lib, TypeInfoIndex(i), c);
    }
    c
}

// Type `index` of the library; refusal 6, 7 or 8 where there is none.
fn after_type_of(s: &[u8], lib: &Numbers, index: TypeInfoIndex, from: Count) -> Count
    ensures { Counting (type_counted s.now (library lib.now) index.0) from result }
{
    match typeinfos::typeinfo_at(lib, &*s, index) {
        Ok(ti) => after_type(&*s, lib, ti, from),
        Err(refusal) => moved(from, emit::put_refusal(from.to, refusal.number())),
    }
}

// A type.
fn after_type(s: &[u8], lib: &Numbers, ti: TypeInfoEntry, from: Count) -> Count
    ensures { Counting (type_at_counted s.now (library lib.now) ti) from result }
{
    let kind = util::bits(emit::word_at(s, ti.at, 0x00), 0, 4);
    // the kind, the flags and the version
    let t = ahead(from.to, 9);
    let t = after_names(&*s, lib, ti.at, t);
    let base = bases::after_base(
        &*s,
        lib,
        ti,
        kind,
        Ends {
            to: t,
            references: from.references,
        },
    );
    let c = functions::after_functions(&*s, lib, ti, ended(from, base));
    variables::after_variables(&*s, lib, ti, c)
}

// The GUID, the name, and how many functions and variables are declared.
fn after_names(s: &[u8], lib: &Numbers, at: usize, to: usize) -> usize
    ensures { Measured (value (names_bytes s.now (library lib.now) at)) to result }
{
    let t = names::after_guid(&*s, lib, emit::word_at(s, at, 0x2C), to);
    let names = sheet_trees::names::names_of(&*s, lib);
    let t = names::after_name(&*s, lib, names, emit::word_at(s, at, 0x34), t);
    ahead(t, 4)
}

// The same counts, at another place.
pub(crate) fn moved(c: Count, to: usize) -> Count
    ensures { result ≡ record { to = to; functions = c.functions; parameters = c.parameters; variables = c.variables; references = c.references } }
{
    Count { to, ..c }
}

// The same functions, parameters and variables, where a part without any ended.
pub(crate) fn ended(c: Count, e: Ends) -> Count
    ensures { result ≡ record { to = e.to; functions = c.functions; parameters = c.parameters; variables = c.variables; references = e.references } }
{
    Count {
        to: e.to,
        references: e.references,
        ..c
    }
}

// The place `n` bytes on, or a count with `n` more. It stops at the last place, and a refusal stays.
pub(crate) fn ahead(to: usize, n: usize) -> usize
    ensures { result ≡ advance to n }
{
    if n <= emit::PAST {
        if to <= emit::PAST - n {
            return to + n;
        }
    }
    to.max(emit::PAST)
}
