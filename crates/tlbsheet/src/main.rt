// The sheet program (document 01, "Edges"): reads a library from standard input and prints its sheet in
// lower-case hex, or the number of its refusal, and a newline.

#![tactic(auto)]

mod hex;

ghost use Rattle.std.specs.Prelude.{◌≡◌, ◌≤◌, length, take, IfOk};
ghost use Rattle.records.specs.Told.{told};
ghost use Rattle.tlbsheet.specs.Program.{Replied};

use records::answer::Refusal;
use std::io::{self, Print, Read, Stdin};

// The most bytes of input. More fill the room for it, which has one byte more.
const MOST: usize = 65_536;

const INPUT_ROOM: usize = 65_537;

// The most bytes of a sheet. A line has two digits for each, and a newline.
const SHEET_ROOM: usize = 65_536;

const LINE_ROOM: usize = 131_073;

// (Nothing is allocated: the input, the sheet and its line stand in arrays on the stack.)
fn main(rt: HostRuntime) -> io::Result<()> {
    let mut input = [0u8; INPUT_ROOM];
    let mut output = [0u8; SHEET_ROOM];
    let size = fill(&mut rt.stdin(), &mut input)?;
    match answer_to(front(&input, size), &mut output) {
        Ok(size) => show_sheet(&rt, front(&output, size)),
        Err(refusal) => println!(rt; "refused {}", refusal.number()),
    }
}

// Reads standard input to its end or until the room is full, and replies how many bytes it has.
fn fill(stdin: &mut Stdin, input: &mut [u8; INPUT_ROOM]) -> io::Result<usize>
    ensures { IfOk result (λ size. size ≤ INPUT_ROOM) }
{
    let size = io::copy(&mut stdin.take(INPUT_ROOM as u64), &mut &mut input[..])?;
    Ok(INPUT_ROOM.min(size as usize))
}

// The sheet of the input, written to the front of the output: how many bytes it has.
fn answer_to(input: &[u8], output: &mut [u8]) -> Result<usize, Refusal>
    ensures { Replied input.now (length input.now) output.old (told result) output.new }
{
    if MOST < input.len() {
        return Err(Refusal::OverLong);
    }
    sheet::sheet(&*input, output)
}

// Prints a sheet as a line.
fn show_sheet(rt: &HostRuntime, sheet: &[u8]) -> io::Result<()>
    requires { length sheet.now ≤ SHEET_ROOM }
{
    let mut line = [0u8; LINE_ROOM];
    let size = hex::put_line(sheet, &mut line);
    rt.write_all(front(&line, size))
}

// The first `size` bytes; all of them where there are fewer.
fn front(s: &[u8], size: usize) -> &[u8]
    ensures { result.now ≡ take size s.now }
{
    s.get(..size).unwrap_or(s)
}
