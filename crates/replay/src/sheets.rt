// The sheet of a library, and that a call leaves all other bytes of the output as they were.
use crate::answers::Answers;
use records::answer::Refusal;

// How many bytes the output has, of which some of the first are lent, and what each is before.
const ROOM: usize = 65_536;

const BEFORE: u8 = 0xa5;

// The question's number is how many bytes of the output are lent.
pub(crate) fn replay(answers: &mut Answers, room: usize) {
    let mut output = [BEFORE; ROOM];
    replay_in(answers, room, &mut output);
}

// (The output is no Vec: that may fail, and each comparison would reply a Result. An array is lent as an array first: the prover
// writes out the elements of one that is lent as a slice where it is made.)
fn replay_in(answers: &mut Answers, room: usize, output: &mut [u8; ROOM]) {
    let Some(answer) = ask(answers.lent, room, output) else {
        // An output longer than there is one is not asked for.
        answers.same(Ok(0usize));
        return;
    };
    answers.same(answer);
    match answer {
        Ok(size) => same_sheet(answers, output, size),
        Err(_) => answers.noted(is_as_before(output)),
    }
}

// (The room is the question's number, which may be more than the output has.)
fn ask(lent: &[u8], room: usize, output: &mut [u8]) -> Option<Result<usize, Refusal>> {
    let output = output.get_mut(..room)?;
    Some(sheet::sheet(lent, output))
}

// The first `size` bytes of the output, and those behind them. (The size is an answer to be judged: it may be more than the output has.)
fn same_sheet(answers: &mut Answers, output: &[u8], size: usize) {
    let (sheet, rest) = output.split_at_checked(size).unwrap_or((output, &[]));
    answers.same_bytes(sheet, is_as_before(rest));
}

fn is_as_before(output: &[u8]) -> bool {
    output.iter().all(|byte| *byte == BEFORE)
}
