//! Why a text is no script.
ghost use Rattle.std.specs.Prelude.{◌≡◌};

use rtp_units::OutOfMemory;
use std::alloc::AllocError;
use thiserror::Error;

/// What a line has against it: the first test that it fails.
#[derive(Clone, Copy, Debug, PartialEq, Eq, Drop, Error)]
pub enum ScriptCause {
    /// The script has more bytes than a script may have.
    #[error("size")]
    Size,
    /// A byte is neither printable ASCII nor a tab.
    #[error("text")]
    Text,
    /// An unknown first word, action, name of a setting or value that is a word, or a wrong count of words.
    #[error("word")]
    Word,
    /// A line that isn't timed behind a timed one, or a time before that of an earlier line.
    #[error("order")]
    Order,
    /// An argument is no number, or out of its range.
    #[error("number")]
    Number,
    /// An argument isn't eight hexadecimal digits; or two equal SSRCs in a line, or one of an earlier line.
    #[error("ssrc")]
    Ssrc,
    /// A session is declared a second time, or isn't declared.
    #[error("session")]
    Session,
    /// An earlier session has the port.
    #[error("port")]
    Port,
    /// The session has the payload type already, or the original type has no `pt` line.
    #[error("pt")]
    Pt,
    /// The setting was set before.
    #[error("repeat")]
    Repeat,
    /// A flush begins in a flush, or ends without one, or isn't ended.
    #[error("flush")]
    Flush,
    /// One `fid` line or timed line more than a script may have.
    #[error("many")]
    Many,
}

/// Why there is no script.
#[derive(Clone, Copy, Debug, PartialEq, Eq, Drop, Error)]
pub enum ScriptFault {
    /// The first bad line, counted from 1, and what it has against it. Line 0 stands for the whole text.
    #[error("script line {line}: {cause}")]
    Bad { line: u32, cause: ScriptCause },
    /// Memory was refused.
    #[error("out of memory")]
    OutOfMemory,
}

impl ScriptCause {
    ghost use Rattle.script_lang.specs.Causes.{word_of};

    /// The program's word for the cause.
    pub fn word(&self) -> &'static str
        ensures { result.now ≡ word_of self.now }
    {
        match self {
            ScriptCause::Size => "size",
            ScriptCause::Text => "text",
            ScriptCause::Word => "word",
            ScriptCause::Order => "order",
            ScriptCause::Number => "number",
            ScriptCause::Ssrc => "ssrc",
            ScriptCause::Session => "session",
            ScriptCause::Port => "port",
            ScriptCause::Pt => "pt",
            ScriptCause::Repeat => "repeat",
            ScriptCause::Flush => "flush",
            ScriptCause::Many => "many",
        }
    }
}

impl From<OutOfMemory> for ScriptFault {
    ghost use Rattle.script_lang.specs.declared.fault.ScriptFault.TheVariants.{OutOfMemory as NoMemory};

    ghost from_gives = { λ _ e. e ≡ NoMemory };

    fn from(_: OutOfMemory) -> Self {
        ScriptFault::OutOfMemory
    }
}

impl From<AllocError> for ScriptFault {
    ghost use Rattle.script_lang.specs.declared.fault.ScriptFault.TheVariants.{OutOfMemory as NoMemory};

    ghost from_gives = { λ _ e. e ≡ NoMemory };

    fn from(_: AllocError) -> Self {
        ScriptFault::OutOfMemory
    }
}
