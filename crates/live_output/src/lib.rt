//! The text of a run's histories: each lane's journal, the offsets of the lanes' clocks, and what
//! became of the packets.
#![tactic(auto)]

mod clocks;
mod text;
mod totals;

pub use text::print_live;
