//! Answers to the generic NACKs of a capture (RFC 4585, section 6.2.1; RFC 4588).
//!
//! Each packet of RTP that a record carries to a session is remembered, and each number that a NACK
//! asks for is answered from what the records before it carried.
#![tactic(auto)]

mod answering;
mod request;

pub use answering::Answering;
pub use request::Request;
