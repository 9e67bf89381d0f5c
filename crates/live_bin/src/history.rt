//! The journal of a lane that came to its End.

use crate::entry::Entry;

/// The journal of a lane that came to its End.
#[derive(Drop)]
pub struct LaneHistory {
    entries: Vec<Entry>,
}

impl LaneHistory {
    ghost use Rattle.std.specs.Prelude.{◌≡◌};

    pub(crate) fn of(entries: Vec<Entry>) -> LaneHistory
        ensures { result.entries ≡ entries }
    {
        LaneHistory { entries }
    }

    /// The entries, the oldest first.
    pub fn entries(&self) -> &[Entry]
        ensures { result.now ≡ self.now.entries.items }
    {
        self.entries.as_slice()
    }
}
