//! Runs the lanes of a plan with workers beside each other: one for the control, one for each
//! session, and a loop for each lane, which meet at the locks of the lanes.
#![tactic(auto)]

mod cell;
mod loops;
mod pushers;
mod run;
#[cfg(test)]
mod tests;

pub use cell::{Gate, Open, Place};
pub use run::run_lanes;
