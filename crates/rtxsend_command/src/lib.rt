//! The command `rtxsend`: a capture of the retransmissions that a capture's NACKs ask for.
#![tactic(auto)]

mod command;
#[cfg(test)]
mod tests;

pub use command::rtxsend_open;
