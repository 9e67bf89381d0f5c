//! The top call of `rtpbin live`: words, files and sinks in, a status out.
#![tactic(auto)]

mod live;
#[cfg(test)]
mod tests;
mod words;

pub use live::run_live;
