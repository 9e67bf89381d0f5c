//! Session descriptions (RFC 8866) in a profile for RTP over UDP: what one says of sessions,
//! payload types and retransmissions, as the lines of a script. `docs/FORMATS.md` has the profile
//! in words, and `specs/Descriptions.antt` has it exactly.
#![tactic(auto)]

mod attribute;
mod description;
mod draft;
mod fault;
mod format;
pub mod laws;
mod lines;
mod media;
mod numbers;
mod pairs;
mod reading;
mod script;
mod section;
#[cfg(test)]
mod tests;
mod text;

pub use description::Description;
pub use fault::{SdpCause, SdpFault};
pub use reading::{MAX_DESCRIPTION, read_description};
pub use script::read;
