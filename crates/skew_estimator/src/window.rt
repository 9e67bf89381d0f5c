//! `Window`: the last differences and the least of them. A clause sees the list of differences, the newest first.
ghost use Rattle.std.specs.Prelude.{◌≡◌, ◌-◌, ◌<◌, ◌≤◌, [], ◌∷◌, pos, length, take, slice_get, Some, IfOk};
ghost use Rattle.skew_model.specs.Skew.{least as least_of};
ghost use Rattle.skew_estimator.specs.Near.{IsNear};

use circular_buffer::HeapCircularBuffer;
use rtp_units::OutOfMemory;
use std::alloc::Global;
use std::marker::Model;

// As many differences as a window may have.
pub(crate) const MOST: usize = 512;

#[derive(Drop)]
pub struct Window {
    // The newest at the front.
    differences: HeapCircularBuffer<i128>,
    // The least of them, and 0 where there is none.
    least: i128,
}

impl Model for Window {
    ghost use Rattle.std.specs.Prelude.{◌≡◌, ◌≤◌, ℤ, List, length};

    ghost Value = { List ℤ };

    ghost use Rattle.skew_estimator.specs.Near.{AreNear};
    ghost use Rattle.skew_model.specs.Skew.{least as least_of};

    ghost view = { λ w. w.differences.items };

    ghost invariant = { λ w. (w.differences.capacity ≡ 512) × (length w.differences.items ≤ 512)
        × (w.least ≡ least_of w.differences.items) × AreNear w.differences.items };
}

fn difference_at(differences: &HeapCircularBuffer<i128>, index: usize) -> i128
    requires { index < length differences.now.items }
    ensures { slice_get differences.now.items index ≡ Some result }
{
    match differences.get(index) {
        Some(difference) => *difference,
        None => unreachable!(),
    }
}

/// The least of one difference and the first of the others, by a look at each.
fn search(differences: &HeapCircularBuffer<i128>, count: usize, difference: i128) -> i128
    requires { count ≤ length differences.now.items }
    ensures { result ≡ least_of (difference ∷ take count differences.now.items) }
{
    let mut least = difference;
    for index in 0..count {
        let other = difference_at(differences, index);
        least = least.min(other);
    }
    least
}

/// The least of one difference and all others but the last, which has become too old. Only where the last may have been the
/// least are the others looked at.
fn least_without_last(differences: &HeapCircularBuffer<i128>, least: i128, difference: i128) -> i128
    requires some { 0 < length differences.now.items }
    requires least { least ≡ least_of differences.now.items }
    ensures { result ≡ least_of
        (difference ∷ take (length differences.now.items - 1) differences.now.items) }
{
    if difference <= least {
        return difference;
    }
    let end = differences.len() - 1;
    let oldest = difference_at(differences, end);
    if oldest > least {
        return least;
    }
    search(differences, end, difference)
}

impl Window {
    /// A window with no difference.
    pub(crate) fn new(alloc: Global) -> Result<Window, OutOfMemory>
        ensures { IfOk result (λ w. w ≡ []) }
    {
        let differences = HeapCircularBuffer::with_capacity(alloc, MOST)?;
        Ok(Window {
            differences,
            least: 0,
        })
    }

    /// A window with one difference, 0.
    pub(crate) fn restart(&mut self)
        ensures { self.new ≡ pos 0 ∷ [] }
    {
        self.differences.clear();
        self.differences.push_front(0);
        self.least = 0;
    }

    /// Puts a difference in front, and keeps as many as `most` in all.
    pub(crate) fn add(&mut self, difference: i128, most: usize)
        requires near { IsNear difference }
        requires most { (0 < most) × (most ≤ 512) }
        requires few { (0 < length self.old) × (length self.old ≤ most) }
        ensures { self.new ≡ take most (difference ∷ self.old) }
    {
        let least = if self.differences.len() < most {
            self.least.min(difference)
        } else {
            least_without_last(&self.differences, self.least, difference)
        };
        self.differences.push_front(difference);
        self.differences.truncate_back(most);
        self.least = least;
    }

    /// The least difference.
    pub(crate) fn least(&self) -> i128
        ensures value { result ≡ least_of self.now }
        ensures near { IsNear result }
    {
        self.least
    }

    /// How many differences there are.
    pub(crate) fn len(&self) -> usize
        ensures { result ≡ length self.now }
    {
        self.differences.len()
    }
}
