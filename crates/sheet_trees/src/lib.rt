// The parts of a sheet that a record's numbers name: GUIDs, names, references and trees.
//
// (The bytes, the library's numbers, the output and the place go in apart: a struct of them is handed on by way of memory, which made a sheet slower.
// Fields beside each other are put as one number, `1 + 256 * x`, so that they are stored by one move.)

#![tactic(auto)]

pub mod names;
pub mod references;
pub mod trees;
pub mod values;
