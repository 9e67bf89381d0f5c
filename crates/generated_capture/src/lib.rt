//! A capture that is made, record by record, and a script for its replay.
//!
//! It has a packet of RTP each millisecond, of which one in a hundred is lost and one late, and half
//! of the lost ones come again as retransmissions (RFC 4588).
#![tactic(auto)]

mod capture;
mod deliveries;
mod delivery;
mod originals;
mod places;
mod script;
mod series;

pub use capture::Capture;
#[doc(hidden)]
pub use delivery::Delivery;
pub use script::replay_script;
