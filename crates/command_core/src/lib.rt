//! What the commands share: why a run stops, how it ends and with which text, an input that is held
//! whole, and the one loop over a capture's records.
#![tactic(auto)]

mod clock;
mod command;
mod ending;
mod input;
mod piece;
mod run;
mod script;
mod status;
mod stop;

pub use clock::{RecordClock, START, pass};
pub use command::Command;
pub use ending::{report, tell};
pub use input::read_input;
pub use piece::print_piece;
pub use run::run_command;
pub use script::read_script;
pub use status::Status;
pub use stop::Stop;
