//! How a run ends.

/// The statuses, 0 to 6 in this order.
#[derive(Clone, Copy, Debug, PartialEq, Eq)]
pub enum Status {
    /// The input was read to its end, and the output is complete.
    Done,
    /// The script is not one.
    Script,
    /// The words are of no form.
    Usage,
    /// A file could not be opened or read.
    Read,
    /// The capture is not one.
    Capture,
    /// Output or error text could not be written.
    Write,
    /// Want of memory.
    Memory,
}
