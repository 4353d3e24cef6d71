// The records of a type's members, functions, variables and parameters: places and lengths in the lent bytes, as those of `records`.
//
// As in `records`, a field's reading is a function of its own since the source names it and C calls it so, and each record is a type of its own.

#![tactic(auto)]

pub mod func;
pub mod param;
pub mod var;
