//! The front: what a capture and a script bring to the lanes, step by step.
//!
//! A front looks for a packet of a session in each record. It lets the session hear it, finds the
//! lane of what the session gives on, restores what retransmissions carry, and tells what becomes of
//! each packet. What it answers is what `front_model` defines on the list of all that came to it:
//! records, report times, and the numbers that lanes asked for again.
#![tactic(auto)]

mod choices;
mod front;
mod intake;
pub mod laws;
mod notes;
mod reports;
mod requests;
mod sessions;
mod streams;

pub use front::Front;

#[cfg(test)]
mod tests;
