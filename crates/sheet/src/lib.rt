// The sheet of a library: its description laid out in bytes (document 01, "The sheet (added)"). Two sheets are equal exactly
// when the two libraries have the same description (`demand-3` of describe/specs/Demand3.antt, over this call's contract).

#![tactic(auto)]

ghost use Rattle.std.specs.Prelude.{◌^◌, ◌<◌, ◌≤◌};
ghost use Rattle.records.specs.Told.{told};
ghost use Rattle.description.specs.Sheet.{edition-one};
ghost use Rattle.describe.specs.Call.{Call};
ghost use Rattle.sheet.specs.Contents.{sheet_emitted, Answered, Made};
ghost use Rattle.typelib.specs.Header.{library, type_count};

use records::answer::Refusal;
use sheet_sizes::MOST_TYPES;
use typelib::{Numbers, TypeLib};

mod contents;

// The most bytes of a sheet. (As many as are read of a library, but no limit of reading.)
const LIMIT: usize = 16_777_216;

// The longest libraries whose sheets are made in memory of the call's own.
const SMALL: usize = 16_384;

const MEDIUM: usize = 131_072;

// Writes the sheet of the library `s` to the front of the output and replies how many bytes it has; or
// replies a refusal and writes nothing.
pub fn sheet(s: &[u8], out: &mut [u8]) -> Result<usize, Refusal>
    ensures { Call edition-one s.now out.old (told result) out.new }
{
    let lib = TypeLib::parse(&*s)?;
    if MOST_TYPES < lib.count() {
        return Err(Refusal::TooManyTypes);
    }
    write(&*s, &lib.numbers, out)
}

// A sheet is mostly shorter than its library: that of a short library is made in memory of the call's own, as long as the library may
// be, and copied when it is whole, so that it need not be measured first.
fn write(s: &[u8], lib: &Numbers, out: &mut [u8]) -> Result<usize, Refusal>
    requires { type_count (library lib.now) ≤ 65535 }
    ensures { Answered (sheet_emitted s.now (library lib.now)) out.old (told result) out.new }
{
    if s.len() <= SMALL {
        return write_with::<SMALL>(&*s, lib, out);
    }
    if s.len() <= MEDIUM {
        return write_with::<MEDIUM>(&*s, lib, out);
    }
    write_measured(&*s, lib, out)
}

// Writes the sheet through memory of `N` bytes. (As with every object in memory, that is fewer than 2 ^ 63.)
fn write_with<const N: usize>(s: &[u8], lib: &Numbers, out: &mut [u8]) -> Result<usize, Refusal>
    requires lib_bound { type_count (library lib.now) ≤ 65535 }
    requires memory { N < 2 ^ 63 }
    ensures { Answered (sheet_emitted s.now (library lib.now)) out.old (told result) out.new }
{
    let mut own = [0u8; N];
    write_through(&*s, lib, &mut own, out)
}

// (Where members share their bytes a sheet may be much longer than its library. Then it is measured after all, which is quicker than
// making it.)
fn write_through(s: &[u8], lib: &Numbers, own: &mut [u8], out: &mut [u8]) -> Result<usize, Refusal>
    requires { type_count (library lib.now) ≤ 65535 }
    ensures { Answered (sheet_emitted s.now (library lib.now)) out.old (told result) out.new }
{
    let size = contents::put_sheet(&*s, lib, own.len(), own);
    if size == emit::PAST {
        return write_measured(&*s, lib, out);
    }
    finish(&*s, lib, own, size, out)
}

// Measures first, so that nothing is written unless all of it will be.
fn write_measured(s: &[u8], lib: &Numbers, out: &mut [u8]) -> Result<usize, Refusal>
    requires { type_count (library lib.now) ≤ 65535 }
    ensures { Answered (sheet_emitted s.now (library lib.now)) out.old (told result) out.new }
{
    let none = [0u8; 0];
    finish(&*s, lib, &none, contents::end_of_sheet(&*s, lib), out)
}

// Replies for a sheet of that size. It is copied from `made`, or, where it is longer than that, made now.
fn finish(
    s: &[u8],
    lib: &Numbers,
    made: &[u8],
    size: usize,
    out: &mut [u8],
) -> Result<usize, Refusal>
    requires lib_bound { type_count (library lib.now) ≤ 65535 }
    requires made { Made (sheet_emitted s.now (library lib.now)) size made.now }
    ensures { Answered (sheet_emitted s.now (library lib.now)) out.old (told result) out.new }
{
    if emit::PAST < size {
        return Err(emit::refusal(size));
    }
    if LIMIT < size {
        return Err(Refusal::NoSpace);
    }
    if out.len() < size {
        return Err(Refusal::NoSpace);
    }
    if size <= made.len() {
        emit::put_bytes(&made[..size], &mut out[..size], 0);
    } else {
        contents::put_sheet(&*s, lib, emit::PAST, &mut out[..size]);
    }
    Ok(size)
}
