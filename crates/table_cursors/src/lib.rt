// Cursors over a library's tables (iterators.rs of the source), and the search for members' names.

#![tactic(auto)]

pub mod iterators;
pub mod members;
