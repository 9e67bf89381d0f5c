//! The command `gen`: the last line of the replay of a capture that is made on the way.
#![tactic(auto)]

mod replaying;
#[cfg(test)]
mod tests;

pub use replaying::print_generated;
