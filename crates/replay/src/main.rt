// Asks the crates `records`, `typelib` and `sheet` the recorded questions, and compares their answers
// with those of the reference, the Rust crate. It is kept to its tables, as document 02 says; where it had nothing to
// cut, its answers are those that it gives as it is.
//
// Three files in the working folder hold the questions and the answers: `records` those about single
// records, `libraries` those about whole libraries, and `beside` those about a library that is read
// beside other bytes than it was parsed from. The Rust cannot hold such a one: these answers are by
// documents 01 and 02. compare/oracle/src/bin/record makes the files, and its file.rs describes them.
//
// (A kind is the byte that the files have for it, and kinds go by the first one and the end, as `count_libraries` asks for the first alone. The host
// goes beside the file's name, as functions of the library take it.)

#![tactic(auto)]

mod answers;
mod asked;
mod constant;
mod cursor;
mod descriptors;
mod entry;
mod header;
mod kinds;
mod library;
mod members;
mod progress;
mod recorded;
mod report;
mod sheets;
mod steps;
mod tables;
mod words;

ghost use Rattle.std.specs.Prelude.{◌≡◌, ◌≤◌, take, IfOk};

use answers::Answers;
use asked::{Asked, END, FIRST_READING};
use entry::{Item, Items, KEPT, LENT, Lent};
use progress::{Counts, Progress};
use std::fs::File;
use std::io::{self, Read};

// A file that fills all of this may be longer, and is not replayed.
const ROOM: usize = 2_097_152;

fn main(rt: HostRuntime) -> io::Result<()> {
    replay_file(&rt, "records", 0, FIRST_READING)?;
    replay_file(&rt, "libraries", FIRST_READING, END)?;
    replay_file(&rt, "beside", FIRST_READING, END)
}

// Replays a file, whose questions ask what is from `first` on and before `end`. (Nothing is allocated: the file stands in an array
// on the stack.)
fn replay_file(rt: &HostRuntime, file: &str, first: u8, end: u8) -> io::Result<()> {
    let Ok(mut opened) = File::open(rt, file) else {
        return report::trouble(rt, file, "cannot be opened");
    };
    let mut room = [0u8; ROOM];
    let size = fill(&mut opened, &mut room)?;
    if size == ROOM {
        return report::trouble(rt, file, "is too long");
    }
    match Items::of(front(&room, size), first, end) {
        Some(items) => {
            replay_kinds(rt, file, items, first, end)?;
            count_libraries(rt, file, items, first)
        }
        None => report::trouble(rt, file, "is cut off or malformed"),
    }
}

// Reads the file to its end or until the room is full, and replies how many bytes it has.
fn fill(file: &mut File, room: &mut [u8; ROOM]) -> io::Result<usize>
    ensures { IfOk result (λ size. size ≤ ROOM) }
{
    let size = io::copy(&mut file.take(ROOM as u64), &mut &mut room[..])?;
    Ok(ROOM.min(size as usize))
}

// The first `size` bytes; all of them where there are fewer.
fn front(s: &[u8], size: usize) -> &[u8]
    ensures { result.now ≡ take size s.now }
{
    s.get(..size).unwrap_or(s)
}

// Replays the questions kind by kind, with a line for each kind that is asked and one for the file.
fn replay_kinds(rt: &HostRuntime, file: &str, items: Items, first: u8, end: u8) -> io::Result<()> {
    let mut all = Counts::NONE;
    let mut shown = 0;
    for kind in first..end {
        let of_kind = replay_kind(items, kind, shown);
        report::kind_line(rt, kind, &of_kind, shown)?;
        all = all.plus(of_kind.counts);
        shown = of_kind.shown;
    }
    report::counts_line(rt, file, all)
}

// Prints how many libraries the file lends that the Rust reads as it is, and how many in which it is kept to its
// tables. The records of the first file are no libraries.
fn count_libraries(rt: &HostRuntime, file: &str, items: Items, first: u8) -> io::Result<()> {
    if first == 0 {
        return Ok(());
    }
    let as_they_are = items.filter(|item| item.kind == LENT).count();
    let kept = items.filter(|item| item.kind == KEPT).count();
    report::libraries_line(rt, file, as_they_are, kept)
}

// Replays the questions of one kind, wherever they stand, about the bytes that were lent last before
// each.
fn replay_kind(items: Items, kind: u8, shown: usize) -> Progress {
    let mut progress = Progress::start(shown);
    let mut lent = Lent::NOTHING;
    for (number, item) in items.enumerate() {
        lent = lent.behind(&item);
        if item.kind == kind {
            progress.asked(number);
            progress = replay_question(lent, &item, progress);
        }
    }
    progress
}

// Compares all answers to a question. What is left of the recorded bytes is a difference.
fn replay_question<'a>(lent: Lent<'a>, item: &Item<'a>, before: Progress) -> Progress {
    let mut answers = Answers {
        lent: lent.bytes,
        recorded: item.bytes,
        progress: before,
    };
    match asked::of_number(item.kind) {
        Some(Asked::Of(kind)) => kinds::replay(&mut answers, kind, item),
        Some(asked) => library::replay(&mut answers, lent.own, asked, item),
        None => {}
    }
    let is_all = answers.recorded.is_empty();
    answers.noted(is_all);
    answers.progress
}
