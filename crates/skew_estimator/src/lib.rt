//! The skew between a sender's clock and the arrivals of its packets, over a window of differences.
#![tactic(auto)]

mod means;
mod segment;
mod skew;
#[cfg(test)]
mod tests;
mod window;

#[doc(hidden)]
pub use segment::Segment;
pub use skew::Skew;
#[doc(hidden)]
pub use window::Window;
