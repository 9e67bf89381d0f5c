//! The language of replay scripts, both ways: sessions, payload types, retransmissions, settings and timed
//! lines. `docs/FORMATS.md` has the language in words, and `specs/Grammar.antt` has it exactly.
#![tactic(auto)]

mod draft;
mod entry;
mod fault;
mod form;
pub mod laws;
mod lookups;
mod numbers;
mod reading;
mod script;
mod setting;
#[cfg(test)]
mod tests;
mod text;
mod times;
mod writing;

pub use fault::{ScriptCause, ScriptFault};
pub use reading::{MAX_SCRIPT, read};
pub use script::{Action, Item, PtLine, Script, SessionLine};
pub use setting::ScriptSettings;
pub use times::read_times;
pub use writing::write;
