//! A timer, and which of two comes first.
ghost use Rattle.std.specs.Prelude.{IsTrue, IsFalse};
ghost use Rattle.jitter_timers.specs.Order.{IsNoLater};

/// When something is due, and for which number.
#[derive(Clone, Copy, Debug, PartialEq, Eq, Drop)]
pub struct Timer {
    pub(crate) time: u64,
    pub(crate) number: u64,
}

impl Timer {
    /// Whether it is due earlier than the other, or at the same time and for a lower number.
    pub(crate) fn is_before(&self, other: &Timer) -> bool
        ensures before { IsTrue result → IsNoLater self.now other.now }
        ensures not_before { IsFalse result → IsNoLater other.now self.now }
    {
        self.time < other.time || (self.time == other.time && self.number < other.number)
    }
}
