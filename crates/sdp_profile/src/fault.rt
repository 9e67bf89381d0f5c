//! Why a text is no description.
ghost use Rattle.std.specs.Prelude.{◌≡◌};
ghost use Rattle.sdp_profile.specs.Causes.{sooner as sooner_of};
ghost use Rattle.sdp_profile.specs.Reading.{fault_in};

use rtp_units::OutOfMemory;
use script_lang::{ScriptCause, ScriptFault};
use std::alloc::AllocError;
use thiserror::Error;

/// What a line has against it: the first test that it fails.
#[derive(Clone, Copy, Debug, PartialEq, Eq, Drop, Error)]
pub enum SdpCause {
    /// The description has more bytes than a description may have.
    #[error("size")]
    Size,
    /// The first line that isn't empty isn't `v=0`, or there is none.
    #[error("version")]
    Version,
    /// A line doesn't begin with a lower-case letter and `=`.
    #[error("line")]
    Line,
    /// An `m=` line has fewer than four words, or no port from 0 to 65535, alone or with `/1`
    /// behind it.
    #[error("media")]
    Media,
    /// A payload type isn't 0 to 127, a clock rate isn't 1 to 1000000, a port for RTCP isn't 1 to
    /// 65535, or an SSRC isn't 0 to 4294967295.
    #[error("number")]
    Number,
    /// A ninth session.
    #[error("session")]
    Session,
    /// The port for RTCP is 65536, or an earlier session has one of the ports.
    #[error("port")]
    Port,
    /// A retransmission type doesn't name its original type, or one that the section doesn't have.
    #[error("apt")]
    Apt,
    /// The two SSRCs of a pair are equal, or an earlier pair of the section has one of them.
    #[error("ssrc")]
    Ssrc,
    /// One pair of SSRCs more than a script may have.
    #[error("many")]
    Many,
}

/// Why there is no description.
#[derive(Clone, Copy, Debug, PartialEq, Eq, Drop, Error)]
pub enum SdpFault {
    /// The first bad line, counted from 1, and what it has against it. Line 0 stands for the whole
    /// text.
    #[error("sdp line {line}: {cause}")]
    Bad { line: u32, cause: SdpCause },
    /// The first bad line of the settings and timed lines, counted from 1, and what it has against
    /// it. Line 0 stands for the whole text.
    #[error("script line {line}: {cause}")]
    Times { line: u32, cause: ScriptCause },
    /// Memory was refused.
    #[error("out of memory")]
    OutOfMemory,
}

/// A bad line, counted from 1, and what it has against it.
#[derive(Clone, Copy, Debug, PartialEq, Eq, Drop)]
pub(crate) struct Fault {
    pub line: u32,
    pub cause: SdpCause,
}

impl SdpCause {
    ghost use Rattle.sdp_profile.specs.Causes.{word_of};

    /// The program's word for the cause.
    pub fn word(&self) -> &'static str
        ensures { result.now ≡ word_of self.now }
    {
        match self {
            SdpCause::Size => "size",
            SdpCause::Version => "version",
            SdpCause::Line => "line",
            SdpCause::Media => "media",
            SdpCause::Number => "number",
            SdpCause::Session => "session",
            SdpCause::Port => "port",
            SdpCause::Apt => "apt",
            SdpCause::Ssrc => "ssrc",
            SdpCause::Many => "many",
        }
    }
}

/// The fault of the lower line.
pub(crate) fn sooner(first: Option<Fault>, second: Option<Fault>) -> Option<Fault>
    ensures { result ≡ sooner_of first second }
{
    match (first, second) {
        (None, second) => second,
        (Some(first), None) => Some(first),
        (Some(first), Some(second)) => {
            if second.line < first.line {
                Some(second)
            } else {
                Some(first)
            }
        }
    }
}

impl Fault {
    /// The same as an answer.
    pub fn bad(self) -> SdpFault
        ensures { result ≡ fault_in self }
    {
        SdpFault::Bad {
            line: self.line,
            cause: self.cause,
        }
    }
}

impl From<OutOfMemory> for SdpFault {
    ghost use Rattle.sdp_profile.specs.declared.fault.SdpFault.TheVariants as fault;

    ghost from_gives = { λ _ e. e ≡ fault.OutOfMemory };

    fn from(_: OutOfMemory) -> Self {
        SdpFault::OutOfMemory
    }
}

impl From<AllocError> for SdpFault {
    ghost use Rattle.sdp_profile.specs.declared.fault.SdpFault.TheVariants as fault;

    ghost from_gives = { λ _ e. e ≡ fault.OutOfMemory };

    fn from(_: AllocError) -> Self {
        SdpFault::OutOfMemory
    }
}

impl From<ScriptFault> for SdpFault {
    ghost use Rattle.sdp_profile.specs.Scripts.{times_fault};

    ghost from_gives = { λ fault e. e ≡ times_fault fault };

    fn from(fault: ScriptFault) -> Self {
        match fault {
            ScriptFault::Bad { line, cause } => SdpFault::Times { line, cause },
            ScriptFault::OutOfMemory => SdpFault::OutOfMemory,
        }
    }
}
