//! Timers by number: a heap in which each timer is found by its number, so that it can be moved or taken out.
#![tactic(auto)]

mod heap;
mod queue;
mod steps;
#[cfg(test)]
mod tests;
mod timer;

pub use queue::TimerQueue;
pub use steps::Steps;
#[doc(hidden)]
pub use timer::Timer;
