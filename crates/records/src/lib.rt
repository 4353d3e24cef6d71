// The records of an MSFT type library, each a place and a length in the lent bytes.
//
// A reading takes the record by value and the lent bytes, and replies the value or the number of a
// refusal from document 01: 9 where the record is not wholly inside the bytes or is shorter than
// its fixed part, 1 where more than 16,777,216 bytes are lent. Nothing is asked of the caller.
//
// Each reading of a field has a function of its own, since the source names it and C calls it so; all are one call of `Record`, by the
// field's offset. Each kind of record is a type of its own, so that no reading of one is asked of another.

#![tactic(auto)]

pub mod answer;
pub mod arraydesc;
pub mod field;
pub mod guid;
pub mod guidentry;
pub mod impfile;
pub mod impinfo;
pub mod name;
pub mod refrecord;
pub mod textcheck;
pub mod typeinfo;
pub mod types;
