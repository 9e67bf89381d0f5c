//! Why a pcapng file could not be read.
use thiserror::Error;

/// What ends the reading of a pcapng file. A number is the offset of the block in the file.
#[derive(Clone, Copy, PartialEq, Eq, Debug, Drop, Error)]
pub enum NgFault {
    /// The file ends within the block.
    #[error("the block at {0} is cut")]
    CutBlock(u64),
    /// The magic of the section header is that of neither byte order.
    #[error("the section at {0} has no byte order")]
    Order(u64),
    /// The block's length can't be, or the two lengths of the block differ.
    #[error("the length of the block at {0} is wrong")]
    Block(u64),
    /// The section's major version isn't 1.
    #[error("the version of the section at {0} is not 1")]
    Version(u64),
    /// The interface's link type isn't one whose frames are understood.
    #[error("the link type of the interface at {0} is unknown")]
    Link(u64),
    /// An option of the interface passes its block, or has a wrong length.
    #[error("an option of the interface at {0} is wrong")]
    Options(u64),
    /// The interface's time resolution is unknown.
    #[error("the time resolution of the interface at {0} is unknown")]
    Resolution(u64),
    /// The section has more interfaces than a section may.
    #[error("the interface at {0} is one too many")]
    Many(u64),
    /// The packet's interface isn't there.
    #[error("the packet at {0} has no interface")]
    Interface(u64),
    /// The packet includes more bytes than a record may, or more than its block has.
    #[error("the packet at {0} is too long")]
    Length(u64),
    /// The packet's stamp is below 0 or too high.
    #[error("the stamp of the packet at {0} is out of range")]
    Time(u64),
    /// The file has more records or more blocks than it may.
    #[error("too many blocks, at {0}")]
    TooMany(u64),
    /// A read failed.
    #[error("a read failed")]
    ReadFault,
    /// Memory was refused.
    #[error("out of memory")]
    OutOfMemory,
}

impl NgFault {
    ghost use Rattle.std.specs.Prelude.{◌≡◌};
    ghost use Rattle.pcapng_file.specs.Faults.{word_of, offset_of};

    /// The program's word for the fault.
    pub fn word(&self) -> &'static str
        ensures { result.now ≡ word_of self.now }
    {
        match self {
            NgFault::CutBlock(_) => "cut-block",
            NgFault::Order(_) => "order",
            NgFault::Block(_) => "block",
            NgFault::Version(_) => "version",
            NgFault::Link(_) => "link",
            NgFault::Options(_) => "option",
            NgFault::Resolution(_) => "resolution",
            NgFault::Many(_) => "many",
            NgFault::Interface(_) => "interface",
            NgFault::Length(_) => "length",
            NgFault::Time(_) => "time",
            NgFault::TooMany(_) => "too-many",
            NgFault::ReadFault => "read-fault",
            NgFault::OutOfMemory => "out-of-memory",
        }
    }

    /// Where the fault is in the file: the offset of the block.
    pub fn offset(&self) -> u64
        ensures { result ≡ offset_of self.now }
    {
        match self {
            NgFault::CutBlock(offset)
            | NgFault::Order(offset)
            | NgFault::Block(offset)
            | NgFault::Version(offset)
            | NgFault::Link(offset)
            | NgFault::Options(offset)
            | NgFault::Resolution(offset)
            | NgFault::Many(offset)
            | NgFault::Interface(offset)
            | NgFault::Length(offset)
            | NgFault::Time(offset)
            | NgFault::TooMany(offset) => *offset,
            NgFault::ReadFault | NgFault::OutOfMemory => 0,
        }
    }
}
