// Cursors over the members of a typeinfo and over a function's parameters (iterators.rs of the source).

#![tactic(auto)]

pub mod iterators;
