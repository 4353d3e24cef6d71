// The answers to a question against the recorded ones.
//
// A recorded answer has a first byte, which is 0 for a value and else the number of the refusal, and behind a 0 the
// value (recorded.rt); or, of a text, a byte for its length and then its bytes; or, of a sheet, its bytes alone.
use crate::progress::Progress;
use crate::recorded::{Recorded, rest_from};
use records::answer::Refusal;

// A question's lent bytes, the recorded answers that are left, and what was counted. (Behind an answer the recorded bytes
// say where the next one is, so that a difference in one leaves the next ones to be compared.)
#[derive(Clone, Copy)]
pub struct Answers<'a> {
    pub lent: &'a [u8],
    pub recorded: &'a [u8],
    pub progress: Progress,
}

impl<'a> Answers<'a> {
    // Compares an answer, and goes behind it.
    pub(crate) fn same<T: Recorded>(&mut self, answer: Result<T, Refusal>) {
        let value = recorded_value(self.recorded);
        let rest = match value {
            Some(bytes) => T::behind(bytes),
            None => rest_from(self.recorded, 1),
        };
        match answer {
            Ok(x) => self.answered(value.is_some_and(|bytes| x.begins(bytes)), false, rest),
            Err(refusal) => self.answered(self.is_refused(refusal), true, rest),
        }
    }

    // Compares a text that was written to the front of `text`; the answer is its length.
    pub(crate) fn same_text(&mut self, text: &[u8], answer: Result<usize, Refusal>) {
        let value = recorded_value(self.recorded).and_then(<[u8]>::split_first);
        let is_same = match answer {
            Ok(len) => text.get(..len).is_some_and(|t| is_text(value, t)),
            Err(refusal) => self.is_refused(refusal),
        };
        let rest = match value {
            Some((len, letters)) => rest_from(letters, usize::from(*len)),
            None => rest_from(self.recorded, 1),
        };
        self.answered(is_same, answer.is_err(), rest);
    }

    // Compares bytes that are recorded alone, and are the answer where what is beside them is right, too.
    pub(crate) fn same_bytes(&mut self, bytes: &[u8], is_right: bool) {
        let value = recorded_value(self.recorded);
        let is_same = is_right && value.is_some_and(|recorded| recorded.starts_with(bytes));
        let rest = match value {
            Some(recorded) => rest_from(recorded, bytes.len()),
            None => rest_from(self.recorded, 1),
        };
        self.answered(is_same, false, rest);
    }

    // Counts a difference where there is one that is none of an answer.
    pub(crate) fn noted(&mut self, is_same: bool) {
        self.progress.noted(is_same);
    }

    fn is_refused(&self, refusal: Refusal) -> bool {
        self.recorded.first() == Some(&refusal.number())
    }

    fn answered(&mut self, is_same: bool, is_refusal: bool, rest: &'a [u8]) {
        self.progress.answered(is_same, is_refusal);
        self.recorded = rest;
    }
}

// The bytes behind the first of a recorded value; none where a refusal or nothing is recorded.
fn recorded_value(recorded: &[u8]) -> Option<&[u8]> {
    recorded.strip_prefix(&[0])
}

// Whether a text is recorded there, by the byte of its length and what is behind it.
fn is_text(value: Option<(&u8, &[u8])>, text: &[u8]) -> bool {
    value.is_some_and(|(len, letters)| usize::from(*len) == text.len() && letters.starts_with(text))
}
