// The exports for C: each reading of a library as a function on numbers and byte slices.
//
// A call that needs the header, the offset table or a segment begins with `parse`; one that reads a
// record, a text, a cursor or a member's words reads the lent bytes alone, which need be no library. A reading of
// one number of at most 32 bits replies it; any other lays its values into the output, at their own
// widths and little-endian, and replies how many bytes those are. A refusal replies minus its number and
// writes nothing; an output that is too short is 12, behind all other refusals.

#![tactic(auto)]

mod arraydesc;
mod descriptors;
mod func;
mod guid;
mod guidentry;
mod header;
mod impfile;
mod impinfo;
mod iterators;
mod name;
mod param;
mod refrecord;
mod sheets;
mod tables;
mod textcheck;
mod typeinfo;
mod typeinfos;
mod types;
mod var;
