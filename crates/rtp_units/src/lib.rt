//! Types and number functions that all crates share: owned bytes, want of memory, extended sequence
//! numbers and timestamps, units of time.
#![tactic(auto)]

mod blob;
mod memory;
mod numbers;
mod shared;

pub use blob::Blob;
pub use memory::OutOfMemory;
pub use numbers::{dlsr, extend16, extend32, held_to_time, ntp_middle, ntp_to_ns, ticks_to_ns};
pub use shared::{Address, Fid, Mode, RtxLine, SyncInfo};

#[cfg(test)]
mod tests;
