// What the program prints. (A kind is the byte that the files have for it.)
use crate::asked;
use crate::progress::{Counts, Progress};
use std::io::{self, Print};

// Why a file cannot be replayed.
pub(crate) fn trouble(rt: &HostRuntime, file: &str, what: &str) -> io::Result<()> {
    println!(rt; "the file {file} {what}")
}

// The differences of a kind that are to be printed, but for the first `before`, which others had; and its line. Of a kind that the file
// does not ask there is none. (The number behind the last answer's is that of the end of the recorded bytes.)
pub(crate) fn kind_line(
    rt: &HostRuntime,
    kind: u8,
    of_kind: &Progress,
    before: usize,
) -> io::Result<()> {
    if of_kind.counts.questions == 0 {
        return Ok(());
    }
    let name = asked::name(kind);
    for noted in of_kind.noted.iter().take(of_kind.shown).skip(before) {
        println!(rt;
            "item {}: {name}, answer {} differs",
            noted.item, noted.answer
        )?;
    }
    counts_line(rt, name, of_kind.counts)
}

// The line of a kind, or of a file.
pub(crate) fn counts_line(rt: &HostRuntime, name: &str, counts: Counts) -> io::Result<()> {
    let Counts {
        questions,
        answers,
        refusals,
        differences,
    } = counts;
    println!(rt;
        "{name}: {questions} questions, {answers} answers, {refusals} refusals, {differences} differences"
    )
}

// How many libraries of a file were lent of each kind.
pub(crate) fn libraries_line(
    rt: &HostRuntime,
    file: &str,
    as_they_are: usize,
    kept: usize,
) -> io::Result<()> {
    println!(rt;
        "{file}: {as_they_are} libraries as the Rust reads them, {kept} in which it is kept to its tables"
    )
}
