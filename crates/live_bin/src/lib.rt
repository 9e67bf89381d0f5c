//! One lane of a run whose pushers work side by side: what the run has to do for it, its state, and
//! the journal that the state keeps.
#![tactic(auto)]

mod checking;
mod copying;
mod course;
mod entry;
mod history;
mod lane;
mod plan;
mod state;
#[cfg(test)]
mod tests;

pub use course::{Course, Route};
pub use entry::{Entry, Next};
pub use history::LaneHistory;
pub use plan::{ControlEvent, Delivery, Events, Lanes, Plan, PlanLane, Queue, Queues};
pub use state::{LaneState, Run};
