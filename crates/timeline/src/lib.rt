//! What a bin tells: the lines of its log as plain data.
#![tactic(auto)]

mod dumped;
mod line;
mod word;

pub use dumped::{DumpLine, Ports, RtpFacts};
pub use line::{BinLine, Lines, Word};
pub use word::{BadPacket, rtcp_word, rtp_word, skip_word};
