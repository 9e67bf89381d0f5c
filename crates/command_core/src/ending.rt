//! The text that a run ends with.
ghost use Rattle.std.specs.Prelude.{◌≡◌, ◌<◌, ◌-◌, ◌^◌, List, ℕ, Some};
ghost use Rattle.command_core.specs.Reports.{Reports, Told};

use crate::status::Status;
use rtp_io::{Failed, Sink, write_piece};
use std::alloc::{AllocError, Global};
use std::fmt;

/// Writes the text of why a run ends with this status, and answers the status. Where a line could
/// not be written there is no text.
pub fn report<W: fmt::Display, E: Sink>(
    alloc: Global,
    status: Status,
    why: &W,
    err: &mut E,
) -> Status
    requires { E.faults err.old < 2 ^ 64 - 1 }
    ensures { (text : List ℕ) → W.output why.now ≡ Some text
        → Reports result status text (E.written err.old) (E.written err.new)
        (E.faults err.old) (E.faults err.new) }
{
    if status == Status::Write {
        return Status::Write;
    }
    match why.to_string(alloc) {
        Ok(text) => tell(status, text.as_bytes(), err),
        Err(AllocError) => tell(Status::Memory, b"rtpbin: out of memory\n", err),
    }
}

/// Writes a text for this status, and answers the status.
pub fn tell<E: Sink>(status: Status, text: &[u8], err: &mut E) -> Status
    requires { E.faults err.old < 2 ^ 64 - 1 }
    ensures { Told result status text.now (E.written err.old) (E.written err.new)
        (E.faults err.old) (E.faults err.new) }
{
    match write_piece(err, text) {
        Ok(()) => status,
        Err(Failed) => Status::Write,
    }
}
