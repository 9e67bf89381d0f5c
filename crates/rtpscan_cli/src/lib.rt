//! The top call of `rtpscan`: words, files and sinks in, a status out.
#![tactic(auto)]

mod command;
#[cfg(test)]
mod tests;
mod tool;
mod words;

pub use command_core::Status;
pub use tool::run_scan;
