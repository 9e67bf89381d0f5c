//! Probation: how many of the last packets have consecutive numbers.
ghost use Rattle.std.specs.Prelude.{◌≡◌};
ghost use Rattle.source_table.specs.Counting.{no_run, follows as is_next, run_next};

/// The packets since the last break in the numbers.
#[derive(Clone, Copy, Debug, PartialEq, Eq, Drop)]
pub struct Run {
    /// The last number; 0 where none came.
    pub last: u16,
    /// How many packets, held to 255; 0 where none came.
    pub length: u8,
}

impl Run {
    /// No packet so far.
    pub(crate) fn new() -> Run
        ensures { result ≡ no_run }
    {
        Run { last: 0, length: 0 }
    }

    /// Whether this number comes next.
    pub(crate) fn follows(self, seq: u16) -> bool
        ensures { result ≡ is_next self seq }
    {
        self.length != 0 && seq == self.last.wrapping_add(1)
    }

    /// The run with one packet more; a number that does not come next begins a new run.
    pub(crate) fn next(self, seq: u16) -> Run
        ensures { result ≡ run_next self seq }
    {
        let length = if self.follows(seq) {
            self.length.saturating_add(1)
        } else {
            1
        };
        Run { last: seq, length }
    }
}
