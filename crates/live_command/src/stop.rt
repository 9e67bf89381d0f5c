//! Why a run of `live` stops, with its text.
ghost use Rattle.std.specs.Prelude.{◌≡◌, Some};
ghost use Rattle.live_command.specs.Stops.{status_of_stop, text_of};
ghost use Rattle.live_command.specs.declared.stop.LiveStop.TheVariants.{Common};

use capture_file::FileFault;
use command_core::{Status, Stop};
use rtp_units::OutOfMemory;
use std::fmt;

#[derive(Clone, Copy, Debug, PartialEq, Eq)]
pub enum LiveStop {
    /// For a reason that other runs have too.
    Common(Stop),
    /// The records up to the one at this offset include more bytes than a run holds.
    TooMany { offset: u64 },
    /// The record at this offset has another link type than the first one.
    MixedLinks { offset: u64 },
}

impl LiveStop {
    pub fn status(self) -> Status
        ensures { result ≡ status_of_stop self }
    {
        match self {
            LiveStop::Common(why) => why.status(),
            LiveStop::TooMany { .. } | LiveStop::MixedLinks { .. } => Status::Capture,
        }
    }
}

impl From<Stop> for LiveStop {
    ghost from_gives = { λ why e. e ≡ Common why };

    fn from(why: Stop) -> Self {
        LiveStop::Common(why)
    }
}

impl From<OutOfMemory> for LiveStop {
    ghost use Rattle.command_core.specs.declared.stop.Stop.TheVariants as stop;

    ghost from_gives = { λ _ e. e ≡ Common stop.Memory };

    fn from(fault: OutOfMemory) -> Self {
        LiveStop::Common(Stop::from(fault))
    }
}

impl From<FileFault> for LiveStop {
    ghost use Rattle.command_core.specs.Stops.{stop_of_fault};

    ghost from_gives = { λ fault e. e ≡ Common (stop_of_fault fault) };

    fn from(fault: FileFault) -> Self {
        LiveStop::Common(Stop::from(fault))
    }
}

impl fmt::Display for LiveStop {
    ghost output = { λ stop. Some (text_of stop) };

    fn fmt<W: fmt::Write>(&self, f: &mut fmt::Formatter<W>) -> fmt::Result {
        match self {
            LiveStop::Common(why) => write!(f, "{why}"),
            LiveStop::TooMany { offset } => write!(f, "rtpbin: capture at {offset}: too-many\n"),
            LiveStop::MixedLinks { offset } => {
                write!(f, "rtpbin: capture at {offset}: mixed-links\n")
            }
        }
    }
}
