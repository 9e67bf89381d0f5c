//! Why a run stops, with its text.
ghost use Rattle.std.specs.Prelude.{◌≡◌, Some};
ghost use Rattle.command_core.specs.Stops.{capture_text, status_of_stop, text_of};
ghost use Rattle.command_core.specs.Stops.{stop_of_fault, stop_of_script};

use crate::status::Status;
use capture_file::FileFault;
use rtp_units::OutOfMemory;
use script_lang::{ScriptCause, ScriptFault};
use std::alloc::AllocError;
use std::fmt;

#[derive(Clone, Copy, Debug, PartialEq, Eq)]
pub enum Stop {
    /// The words are of no form.
    Usage,
    /// The first bad line of the script, from 1, and what it has against it. Line 0 stands for the
    /// whole text.
    Script { line: u32, cause: ScriptCause },
    /// A file could not be opened or read.
    Read,
    /// The capture's fault.
    Capture(FileFault),
    /// A line could not be written.
    Write,
    /// Want of memory.
    Memory,
}

impl From<OutOfMemory> for Stop {
    ghost use Rattle.command_core.specs.declared.stop.Stop.TheVariants as stop;

    ghost from_gives = { λ _ e. e ≡ stop.Memory };

    fn from(_: OutOfMemory) -> Self {
        Stop::Memory
    }
}

impl From<AllocError> for Stop {
    ghost use Rattle.command_core.specs.declared.stop.Stop.TheVariants as stop;

    ghost from_gives = { λ _ e. e ≡ stop.Memory };

    fn from(_: AllocError) -> Self {
        Stop::Memory
    }
}

impl From<ScriptFault> for Stop {
    ghost from_gives = { λ fault e. e ≡ stop_of_script fault };

    fn from(fault: ScriptFault) -> Self {
        match fault {
            ScriptFault::Bad { line, cause } => Stop::Script { line, cause },
            ScriptFault::OutOfMemory => Stop::Memory,
        }
    }
}

impl From<FileFault> for Stop {
    ghost from_gives = { λ fault e. e ≡ stop_of_fault fault };

    fn from(fault: FileFault) -> Self {
        match fault {
            FileFault::ReadFault => Stop::Read,
            FileFault::OutOfMemory => Stop::Memory,
            fault => Stop::Capture(fault),
        }
    }
}

impl Stop {
    pub fn status(self) -> Status
        ensures { result ≡ status_of_stop self }
    {
        match self {
            Stop::Usage => Status::Usage,
            Stop::Script { .. } => Status::Script,
            Stop::Read => Status::Read,
            Stop::Capture(_) => Status::Capture,
            Stop::Write => Status::Write,
            Stop::Memory => Status::Memory,
        }
    }
}

#[derive(Drop)]
struct CapturePlace(FileFault);

impl fmt::Display for CapturePlace {
    ghost output = { λ place. Some (capture_text place.0) };

    fn fmt<W: fmt::Write>(&self, f: &mut fmt::Formatter<W>) -> fmt::Result {
        let offset = self.0.offset();
        let word = self.0.word();
        write!(f, "{offset}: {word}")
    }
}

impl fmt::Display for Stop {
    ghost output = { λ stop. Some (text_of stop) };

    fn fmt<W: fmt::Write>(&self, f: &mut fmt::Formatter<W>) -> fmt::Result {
        match self {
            Stop::Usage => write!(
                f,
                "rtpbin: usage: replay [-x] CAPTURE SCRIPT | dump CAPTURE | \
                 rtxsend CAPTURE SCRIPT | gen NUMBER COUNT | live [-x] CAPTURE SCRIPT | \
                 sdp CAPTURE SDP TIMES | depay FORMAT PT CAPTURE SCRIPT\n"
            ),
            Stop::Script { line, cause } => {
                let word = cause.word();
                write!(f, "rtpbin: script line {line}: {word}\n")
            }
            Stop::Read => write!(f, "rtpbin: read failed\n"),
            Stop::Capture(fault) => {
                let place = CapturePlace(*fault);
                write!(f, "rtpbin: capture at {place}\n")
            }
            Stop::Write => Ok(()),
            Stop::Memory => write!(f, "rtpbin: out of memory\n"),
        }
    }
}
