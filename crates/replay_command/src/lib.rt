//! The command `replay`: what a bin tells of a capture's records and a script's items, as a log, or
//! as the media units of the packets that leave.
#![tactic(auto)]

mod command;
mod player;
mod rendering;

pub use command::{play_open, replay_open};
pub use player::Player;
pub use rendering::{Rendering, Style};
pub use unit_log::Format;
