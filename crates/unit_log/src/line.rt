//! Unit lines, before they are text.
use depay::Cause;
use rtp_units::Blob;

/// One line of a log of media units. Times and presentation times are nanoseconds of the virtual
/// clock.
#[derive(Debug, Drop)]
pub enum UnitLine {
    /// A whole unit of a lane: the numbers of its first and its last packet, the presentation time
    /// of the first, and its bytes. The time is that of its last packet.
    Unit {
        time: u64,
        lane: u8,
        first: u64,
        last: u64,
        pts: u64,
        bytes: Blob,
    },
    /// A packet that is no part of a unit, or for `Incomplete` an open unit that is not gone on
    /// with, by the number of its first packet.
    Broken {
        time: u64,
        lane: u8,
        number: u64,
        cause: Cause,
    },
    /// The end of the log: records read, lines of units, lines of broken ones.
    Done {
        records: u64,
        units: u64,
        broken: u64,
    },
}
