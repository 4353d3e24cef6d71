// What the exports for C share: a reply made of each kind of number, and rows of values laid into an output.

#![tactic(auto)]

pub mod reply;
#[cfg(test)]
mod tests;
