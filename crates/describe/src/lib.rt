// The description that a library's bytes have is a definition, in specs/: this crate has no code to run.

#![tactic(auto)]
