//! What the workers of a run share.

use live_bin::{LaneState, Run};
use std::sync::{Condvar, Mutex};

/// Where a worker is.
#[derive(Clone, Copy, Debug, PartialEq, Eq, Drop)]
pub enum Place {
    /// Before delivery number `k` of a session, counted from 0 over all lanes.
    Push { session: u8, k: u64 },
    /// After a packet left the lane.
    Output { lane: u8 },
    /// Before control event number `k` of the script, counted from 0.
    Control { k: u64 },
}

/// What the workers of a run pass, with no lock held.
pub trait Gate {
    fn pass(&self, place: Place);
}

/// A gate that holds nobody.
#[derive(Clone, Copy, Debug, Drop)]
pub struct Open;

impl Gate for Open {
    fn pass(&self, _place: Place) {}
}

/// A lane under its lock, and what wakes its loop.
#[derive(Drop)]
pub struct Cell<K: Run> {
    pub state: Mutex<LaneState<K>>,
    pub changed: Condvar,
}
