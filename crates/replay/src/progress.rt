// How far the replay has come, and what it has counted.

// An answer that is not the recorded one, by the numbers of its question and of itself.
#[derive(Clone, Copy)]
pub struct Difference {
    pub item: usize,
    pub answer: u32,
}

// The most differences to print.
pub const MOST_SHOWN: usize = 10;

// No file holds so much that the counts wrap, and sums that may wrap need no proof.
#[derive(Clone, Copy)]
pub struct Counts {
    pub questions: u64,
    pub answers: u64,
    pub refusals: u64,
    pub differences: u64,
}

impl Counts {
    pub(crate) const NONE: Counts = Counts {
        questions: 0,
        answers: 0,
        refusals: 0,
        differences: 0,
    };

    pub(crate) fn plus(self, more: Counts) -> Counts {
        Counts {
            questions: self.questions.wrapping_add(more.questions),
            answers: self.answers.wrapping_add(more.answers),
            refusals: self.refusals.wrapping_add(more.refusals),
            differences: self.differences.wrapping_add(more.differences),
        }
    }
}

// The counts are of one kind.
#[derive(Clone, Copy)]
pub struct Progress {
    pub counts: Counts,
    // The question's number among the file's items, and the number of its next answer, each from 0 on.
    pub item: usize,
    pub answer: u32,
    // How many differences are to be printed, of all kinds, and those of this one among them, each at its number. (They are
    // no Vec: a push to one replies a Result, and so would each comparison.)
    pub shown: usize,
    pub noted: [Difference; MOST_SHOWN],
}

impl Progress {
    pub(crate) fn start(shown: usize) -> Progress {
        Progress {
            counts: Counts::NONE,
            item: 0,
            answer: 0,
            shown,
            noted: [Difference { item: 0, answer: 0 }; MOST_SHOWN],
        }
    }

    // Goes to the first answer of a question.
    pub(crate) fn asked(&mut self, item: usize) {
        self.item = item;
        self.answer = 0;
        self.counts.questions = self.counts.questions.wrapping_add(1);
    }

    // Counts an answer, and goes to the next one. (Both flags, here and below, are what is found: each is tested once, where it is counted.)
    pub(crate) fn answered(&mut self, is_same: bool, is_refusal: bool) {
        self.noted(is_same);
        self.answer = self.answer.wrapping_add(1);
        self.counts.answers = self.counts.answers.wrapping_add(1);
        if is_refusal {
            self.counts.refusals = self.counts.refusals.wrapping_add(1);
        }
    }

    // Counts a difference where there is one, and keeps it if it is among the first.
    pub(crate) fn noted(&mut self, is_same: bool) {
        if is_same {
            return;
        }
        self.counts.differences = self.counts.differences.wrapping_add(1);
        if self.shown < MOST_SHOWN {
            self.noted[self.shown] = Difference {
                item: self.item,
                answer: self.answer,
            };
            self.shown += 1;
        }
    }
}
