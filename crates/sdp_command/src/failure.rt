//! Why a run that may read a description stops, with its text.
ghost use Rattle.std.specs.Prelude.{◌≡◌, Some};
ghost use Rattle.sdp_command.specs.Failures.{failure_of_fault, status_of_failure, text_of_failure};
ghost use Rattle.sdp_command.specs.Failures.{as_failure};

use command_core::{Status, Stop};
use sdp_profile::{SdpCause, SdpFault};
use std::fmt;

#[derive(Clone, Copy, Debug, PartialEq, Eq)]
pub enum Failure {
    /// As a run that reads no description stops.
    Stopped(Stop),
    /// The first bad line of the description, from 1, and what it has against it. Line 0 stands for
    /// the whole text.
    Description { line: u32, cause: SdpCause },
}

/// The same run, as one that may read a description.
pub fn stopped(run: Result<(), Stop>) -> Result<(), Failure>
    ensures { result ≡ as_failure run }
{
    Ok(run?)
}

impl Failure {
    pub fn status(self) -> Status
        ensures { result ≡ status_of_failure self }
    {
        match self {
            Failure::Stopped(stop) => stop.status(),
            Failure::Description { .. } => Status::Script,
        }
    }
}

impl From<Stop> for Failure {
    ghost use Rattle.sdp_command.specs.declared.failure.Failure.TheVariants as failure;

    ghost from_gives = { λ stop e. e ≡ failure.Stopped stop };

    fn from(stop: Stop) -> Self {
        Failure::Stopped(stop)
    }
}

impl From<SdpFault> for Failure {
    ghost from_gives = { λ fault e. e ≡ failure_of_fault fault };

    fn from(fault: SdpFault) -> Self {
        match fault {
            SdpFault::Bad { line, cause } => Failure::Description { line, cause },
            SdpFault::Times { line, cause } => Failure::Stopped(Stop::Script { line, cause }),
            SdpFault::OutOfMemory => Failure::Stopped(Stop::Memory),
        }
    }
}

impl fmt::Display for Failure {
    ghost output = { λ failure. Some (text_of_failure failure) };

    fn fmt<W: fmt::Write>(&self, f: &mut fmt::Formatter<W>) -> fmt::Result {
        match self {
            Failure::Stopped(stop) => write!(f, "{stop}"),
            Failure::Description { line, cause } => {
                let word = cause.word();
                write!(f, "rtpbin: sdp line {line}: {word}\n")
            }
        }
    }
}
