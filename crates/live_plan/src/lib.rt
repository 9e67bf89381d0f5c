//! The plan of a run whose pushers work side by side, made of a script and a capture's records.
//!
//! The front runs over all records first, with no report times and no requests. What it gives each
//! lane, by pusher, and what the script does to it, is the lane's part of the plan.
#![tactic(auto)]

mod builder;
mod clock;
mod control;
mod draft;
pub mod laws;
#[cfg(test)]
mod tests;

pub use builder::{PlanBuilder, make_plan};
