// The sheet of a library, and its figures.
ghost use Rattle.std.specs.Prelude.{◌≡◌};
ghost use Rattle.records.specs.Answer.{map};
ghost use Rattle.replies.specs.Call.{laid, outcome};
ghost use Rattle.rows.specs.Told.{told_row};
ghost use Rattle.rows.specs.Values.{figures};
ghost use Rattle.sheet_sizes.specs.Told.{told_figures};
ghost use Rattle.msft_typelib.specs.Rows.{figures_row};
ghost use Rattle.msft_typelib.specs.Sheets.{Sheeted};

use records::answer::Refusal;
use replies::reply;
use rows::row::Row;
use sheet_sizes::SheetFigures;

// Writes the library's sheet to the front of the output and replies how many bytes it has; or replies
// minus the refusal's number and writes nothing.
#[unsafe(no_mangle)]
pub extern "C" fn msft_sheet(s: &[u8], out: &mut [u8]) -> i64
    ensures { Sheeted s.now out.old result out.new }
{
    reply::of_written(sheet::sheet(s, out))
}

// How long the library's sheet is, and how many functions, parameters, variables and references it reads.
#[unsafe(no_mangle)]
pub extern "C" fn msft_sheet_figures(s: &[u8], out: &mut [u8]) -> i64
    ensures { outcome result out.new ≡ laid (figures_row s.now) out.old }
{
    reply::lay(of_figures(sheet_sizes::figures(s)), out)
}

// (Here and not among `rows`, which are below the sheet. Its contract tells the row by its bytes, as `reply::lay` asks for it.)
fn of_figures(answer: Result<SheetFigures, Refusal>) -> Result<Row, Refusal>
    ensures { told_row result ≡ map figures (told_figures answer) }
{
    let f = answer?;
    Ok(Row::Figures(
        f.length,
        f.functions,
        f.parameters,
        f.variables,
        f.references,
    ))
}
