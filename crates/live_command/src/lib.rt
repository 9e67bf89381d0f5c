//! Reading a capture into the plan of a run whose pushers work side by side, and why such a run
//! stops.
#![tactic(auto)]

mod load;
mod reading;
mod stop;

pub use load::MAX_BYTES;
pub use reading::read_plan;
pub use stop::LiveStop;
