//! The command `sdp`, before its capture: a session description and a text with settings and timed
//! lines are read from files, and make the script of a replay.
#![tactic(auto)]

mod failure;
mod reading;
#[cfg(test)]
mod tests;

pub use failure::{Failure, stopped};
pub use reading::read_described;
