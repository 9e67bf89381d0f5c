//! RTP packets as bytes (RFC 3550, section 5.1).
//!
//! `read` tests the bytes of one packet, takes no memory and gives a view, which borrows the bytes and
//! has a getter for each field. `write` makes the bytes of a packet without padding. The numbers in
//! network order are there for the formats that stand on RTP.
#![tactic(auto)]

mod fault;
mod fields;
mod header;
pub mod laws;
mod network;
mod reading;
mod view;
mod writing;

pub use fault::RtpFault;
pub use fields::RtpFields;
pub use network::{push_u16, push_u32, u16_at, u32_at};
pub use reading::read;
pub use view::RtpView;
pub use writing::write;

#[cfg(test)]
mod tests;
