//! The log of a replay, defined on the whole lists of a capture's records and a script's items
//! (`specs/`), and the values that the definition shares with the program. The laws of the
//! definition are the contracts of [`laws`].
#![tactic(auto)]

pub mod laws;

/// Later than every wake: a presentation time is below 2^63 nanoseconds, a latency at most 600
/// seconds.
pub const END_OF_TIME: u64 = 9_224_497_936_761_618_431;

/// A time in nanoseconds at which the lane of this number wants a turn.
#[derive(Clone, Copy, Debug, PartialEq, Eq, Drop)]
pub struct Wake {
    pub time: u64,
    pub lane: usize,
}

/// What is due at a time in nanoseconds.
#[derive(Clone, Copy, Debug, PartialEq, Eq, Drop)]
pub enum Due {
    /// The reports of all sessions.
    Reports(u64),
    /// Turns of a lane.
    Turns(Wake),
}
