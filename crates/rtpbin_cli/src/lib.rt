//! The top call of `rtpbin`: words, files and sinks in, a status out.
#![tactic(auto)]

mod numbers;
#[cfg(test)]
mod tests;
mod tool;
mod words;

pub use command_core::Status;
pub use tool::run_tool;
