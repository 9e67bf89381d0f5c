//! One packet of the series, as it arrives.
ghost use Rattle.std.specs.Prelude.{◌≡◌, ◌<◌, ◌^◌};
ghost use Rattle.generated_capture.specs.Deliveries.{original as original_at, is_ahead};
ghost use Rattle.generated_capture.specs.Deliveries.{retransmission as retransmission_at};
ghost use Rattle.generated_capture.specs.Series.{precedes as precedes_by};

use crate::places::is_late;

/// In nanoseconds.
const MILLISECOND: u64 = 1_000_000;

/// When a packet arrives, in nanoseconds; whether it is a retransmission; and the place of the
/// original in the series, from 0.
#[derive(Clone, Copy, Debug, PartialEq, Eq, Drop)]
pub struct Delivery {
    pub(crate) time: u64,
    pub(crate) is_retransmission: bool,
    pub(crate) index: u32,
}

pub(crate) fn original(index: u32) -> Delivery
    ensures value { result ≡ original_at index }
    ensures small { result.time < 2 ^ 61 }
{
    let millisecond = u64::from(index);
    let wait = if is_late(index) { 5 } else { 0 };
    Delivery {
        time: (millisecond + wait) * MILLISECOND + 37 * millisecond % 900 * 1000,
        is_retransmission: false,
        index,
    }
}

pub(crate) fn retransmission(index: u32) -> Delivery
    ensures value { result ≡ retransmission_at index }
    ensures small { result.time < 2 ^ 61 }
{
    Delivery {
        time: (u64::from(index) + 40) * MILLISECOND,
        is_retransmission: true,
        index,
    }
}

impl Delivery {
    /// By the time, then originals before retransmissions, then by the place.
    pub(crate) fn is_ahead_of(&self, other: &Delivery) -> bool
        ensures { result ≡ is_ahead self.now other.now }
    {
        if self.time != other.time {
            return self.time < other.time;
        }
        if self.is_retransmission != other.is_retransmission {
            return other.is_retransmission;
        }
        self.index < other.index
    }
}

/// Whether the one is there, and the other isn't or comes later.
pub(crate) fn precedes(one: Option<Delivery>, other: Option<Delivery>) -> bool
    ensures { result ≡ precedes_by one other }
{
    match (one, other) {
        (Some(one), Some(other)) => one.is_ahead_of(&other),
        (Some(_), None) => true,
        (None, _) => false,
    }
}
