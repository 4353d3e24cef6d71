// The three texts: a GUID's text form, the word for a kind of type and the name of a type code. They stand over
// `records` as a crate of their own, so that an edit of a text is tried without the records.
//
// A text is written to the front of a lent output, and its length is replied; refusal 12 where the output is
// shorter. A refusal writes nothing. Nothing is asked of the caller.
// (By hand and not by `Display`: there is no heap, C lends the output as bytes, and the contracts say each byte of it.)

#![tactic(auto)]

pub mod guid;
mod text;
pub mod types;
