// The members of a type: its functions with their parameters, and its variables.

#![tactic(auto)]

pub mod functions;
pub mod parameters;
pub mod variables;
pub mod words;

// Where the members of a list end, and how many they are.
#[derive(Clone, Copy)]
pub struct Listed {
    pub to: usize,
    pub count: usize,
}
