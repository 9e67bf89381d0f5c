//! The peaks of a segment, and which packet came first from a number on.

ghost use Rattle.std.specs.Prelude.{◌≡◌, ◌≤◌, ◌<◌, ◌^◌, ◌++◌, [], ◌∷◌, length, IfOk};
ghost use Rattle.std.specs.VecDeque.{deque_len, deque_capacity};
ghost use Rattle.std.specs.List.{AllWithin};
ghost use Rattle.std.specs.Option.{ForSome};
ghost use Rattle.jitter_core.specs.Peaks.{above, above_next, stamp_from, starts_past, ArePeaksBounded, ArePeaksRising};

use rtp_units::OutOfMemory;
use std::alloc::Global;
use std::collections::VecDeque;
use std::marker::Model;

// One more than the numbers of a window, which is the most peaks that are kept.
const ROOM: usize = 8_193;

/// An accepted packet that was greater than all accepted before it: its number and its stamp.
#[derive(Clone, Copy, Debug, Drop)]
pub struct Peak {
    pub number: u64,
    pub stamp: u64,
}

/// Peaks, the oldest first. Only `new` takes memory.
#[derive(Drop)]
pub struct Peaks {
    peaks: VecDeque<Peak>,
}

impl Model for Peaks {
    ghost use Rattle.std.specs.Prelude.{List, ◌≤◌};
    ghost use Rattle.std.specs.VecDeque.{deque_capacity};
    ghost use Rattle.jitter_core.specs.declared.peaks.Peak.{Peak};

    ghost Value = { List Peak };

    ghost view = { λ p. p.peaks.items };

    ghost invariant = { λ p. 8193 ≤ deque_capacity p.peaks };
}

/// Whether the first one isn't above a number.
fn is_past(peaks: &VecDeque<Peak>, number: u64) -> bool
    ensures { result ≡ starts_past number peaks.now.items }
{
    match peaks.front() {
        None => false,
        Some(peak) => peak.number <= number,
    }
}

/// Drops those before the first one that is above a number.
fn drop_to(peaks: &mut VecDeque<Peak>, number: u64)
    ensures items { peaks.new.items ≡ above number peaks.old.items }
    ensures capacity { deque_capacity peaks.new ≡ deque_capacity peaks.old }
{
    while is_past(peaks, number) {
        peaks.pop_front();
    }
}

/// How many are below a number. These are the first ones.
fn count_below(peaks: &VecDeque<Peak>, number: u64) -> usize
    requires { ArePeaksRising peaks.now.items }
    ensures most { result ≤ deque_len peaks.now }
    ensures below { AllWithin (λ p. p.number < number) peaks.now.items 0 result }
    ensures others { AllWithin (λ p. number ≤ p.number) peaks.now.items result
        (deque_len peaks.now) }
{
    peaks.partition_point(|peak| peak.number < number)
}

/// The stamp of the first one whose number is at least `number`.
fn stamp_of_first(peaks: &VecDeque<Peak>, number: u64) -> Option<u64>
    requires bounded { ArePeaksBounded peaks.now.items }
    requires rising { ArePeaksRising peaks.now.items }
    ensures value { result ≡ stamp_from peaks.now.items number }
    ensures small { ForSome result (λ t. t < 2 ^ 63) }
{
    let below = count_below(peaks, number);
    if below == peaks.len() {
        None
    } else {
        Some(peaks[below].stamp)
    }
}

impl Peaks {
    /// No peaks.
    pub fn new(alloc: Global) -> Result<Peaks, OutOfMemory>
        ensures { IfOk result (λ p. p ≡ []) }
    {
        Ok(Peaks {
            peaks: VecDeque::with_capacity(alloc, ROOM)?,
        })
    }

    /// Adds one, and drops those that no number from `next` on needs.
    pub fn add(&mut self, next: Option<u64>, peak: Peak)
        requires { length self.old ≤ 8192 }
        ensures { self.new ≡ above_next next (self.old ++ peak ∷ []) }
    {
        self.peaks.push_back_reserved(peak);
        if let Some(next) = next {
            drop_to(&mut self.peaks, next);
        }
    }

    /// Drops those that no number from `next` on needs.
    pub fn prune(&mut self, next: u64)
        ensures { self.new ≡ above next self.old }
    {
        drop_to(&mut self.peaks, next);
    }

    /// The stamp of the first packet that was accepted with a number from `number` on.
    pub fn first_from(&self, number: u64) -> Option<u64>
        requires bounded { ArePeaksBounded self.now }
        requires rising { ArePeaksRising self.now }
        ensures value { result ≡ stamp_from self.now number }
        ensures small { ForSome result (λ t. t < 2 ^ 63) }
    {
        stamp_of_first(&self.peaks, number)
    }

    /// Drops all.
    pub fn clear(&mut self)
        ensures { self.new ≡ [] }
    {
        self.peaks.clear();
    }
}
