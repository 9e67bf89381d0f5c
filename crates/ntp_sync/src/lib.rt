//! Synchronisation of lanes that share a CNAME (RFC 3550, section 6.5.1): how far each lane's clock is
//! behind the one that is furthest ahead.
#![tactic(auto)]

pub mod laws;
mod offsets;
mod sync;

pub use sync::{LaneReport, LaneSync};

#[cfg(test)]
mod tests;
