//! The bin: what becomes of a capture's records and a script's items, on one thread and without a
//! clock of its own. Times come in as arguments, and lines go out as values.
#![tactic(auto)]

mod agenda;
mod bin;
mod offsets;
mod requests;
mod room;
mod stage;
mod standings;
mod touched;
mod wakes;

pub use bin::{Bin, MAX_RECORDS};
pub use timeline::{BinLine, Lines, Word};

#[cfg(test)]
mod tests;
