//! The command `dump`: a line for each record of a capture.
#![tactic(auto)]

mod command;
mod line;
#[cfg(test)]
mod tests;

pub use command::dump_open;
