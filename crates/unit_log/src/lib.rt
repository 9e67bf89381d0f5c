//! A log as the media units of its payloads.
//!
//! A `UnitLog` is given the lines of a replay's log one after the other. It joins the payloads
//! that leave each lane, for one payload format and one payload type. It tells a line for each
//! unit, for each packet or open unit that comes to none, and for the end. What is told is defined
//! in `specs/` over the whole list of log lines, cut by lane.
#![tactic(auto)]

mod given;
pub mod laws;
mod line;
mod log;
mod text;

pub use depay::{Cause, Format};
pub use line::UnitLine;
pub use log::UnitLog;
pub use text::line_text;

#[cfg(test)]
mod tests;
