// The description of a library and its sheet are definitions, in specs/: this crate has no code to run.

#![tactic(auto)]
