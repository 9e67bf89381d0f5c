//! `Store`. A clause sees a store as the finite map from the held numbers to their values.
ghost use Rattle.std.specs.Prelude.{◌≡◌, ℕ, ◌+◌, ◌^◌, ◌<◌, ◌≤◌, ◌≢◌, is_some, IsSome, IfOk, MatchOption};
ghost use Rattle.std.specs.Ordering.{nat_cmp};
ghost use Rattle.std.specs.FinMap as map;
ghost use Rattle.slot_ring.specs.Ring.{ring};
ghost use Rattle.packet_store.specs.Bounds.{IsBounded, IsHeldWithin};
ghost use Rattle.packet_store.specs.Store.{IsLeast, IsGreatest, IsRun, IsWindow, Offered};

use rtp_units::OutOfMemory;
use slot_ring::SlotRing;
use std::alloc::Global;
use std::marker::Model;

// How many numbers a window has: as many as the ring has slots.
const WINDOW: u64 = 8_192;

const WINDOW_LOG2: u32 = 13;

/// What became of an offered value.
#[derive(Debug, Drop)]
pub enum Offer<T> {
    /// The store holds it.
    Held,
    /// The number was held before, and the value comes back.
    Duplicate(T),
    /// The number lies past the window, and the value comes back.
    Full(T),
}

/// Values under extended sequence numbers, all in one window of 8,192 numbers. The window begins where the caller of `offer`
/// says, so it moves on as values are taken. Only `new` takes memory, for as many values as a window has numbers.
#[derive(Drop)]
pub struct Store<T> {
    ring: SlotRing<T>,
    // No held number is below the lowest or above the highest. They move where that takes no
    // search, so a number that is missing costs nothing until the least or the greatest one is
    // asked for.
    lowest: u64,
    highest: u64,
}

impl<T> Model for Store<T> {
    ghost use Rattle.std.specs.Prelude.{◌≡◌};
    ghost use Rattle.std.specs.Ordering.{nat_cmp};
    ghost use Rattle.std.specs.FinMap as map;
    ghost use Rattle.std.specs.Coded.{coded_ℕ};

    ghost Value = { map.FinMap nat_cmp T };

    ghost coded = { map.code coded_ℕ T.code };

    ghost use Rattle.packet_store.specs.Bounds.{IsBounded};

    ghost view = { λ s. s.ring.held };

    ghost invariant = { λ s. (s.ring.capacity ≡ 8192) × IsBounded s.ring.held s.lowest s.highest };
}

fn is_held<T>(ring: &SlotRing<T>, number: u64) -> bool
    ensures { result ≡ is_some (map.get ring.now.held number) }
{
    ring.get(number).is_some()
}

/// The least held number from `from` on, where one up to `to` is held.
fn next_held<T>(ring: &SlotRing<T>, from: u64, to: u64) -> u64
    requires small { to < 2 ^ 63 }
    requires some { IsHeldWithin ring.now.held from to }
    ensures held { IsSome (map.get ring.now.held result) }
    ensures first { (q : ℕ) → from ≤ q → IsSome (map.get ring.now.held q) → result ≤ q }
{
    let mut number = from;
    while !is_held(ring, number) {
        number += 1;
    }
    number
}

/// The greatest held number up to `to`, where one from `from` on is held.
fn previous_held<T>(ring: &SlotRing<T>, from: u64, to: u64) -> u64
    requires { IsHeldWithin ring.now.held from to }
    ensures held { IsSome (map.get ring.now.held result) }
    ensures last { (q : ℕ) → q ≤ to → IsSome (map.get ring.now.held q) → q ≤ result }
{
    let mut number = to;
    while !is_held(ring, number) {
        number -= 1;
    }
    number
}

/// The bounds once a number of the window from `low` on is held too.
fn bounds_with<T>(
    ring: &SlotRing<T>,
    lowest: u64,
    highest: u64,
    low: u64,
    number: u64,
) -> (u64, u64)
    requires bounds { IsBounded ring.now.held lowest highest }
    requires window { IsWindow ring.now.held low }
    requires low { low ≤ number }
    requires small { number < 2 ^ 63 }
    ensures { (value : T) → IsBounded (map.insert ring.now.held number value) result.0 result.1 }
{
    if ring.len() == 0 {
        return (number, number);
    }
    (lowest.max(low).min(number), highest.max(number))
}

/// A bound below the numbers from `lowest` on but for this one.
fn lowest_without(lowest: u64, number: u64) -> u64
    requires { number < 2 ^ 63 }
    ensures { (q : ℕ) → lowest ≤ q → q ≢ number → result ≤ q }
{
    if number == lowest { number + 1 } else { lowest }
}

/// A bound above the numbers up to `highest` but for this one.
fn highest_without(highest: u64, number: u64) -> u64
    ensures above { (q : ℕ) → q ≤ highest → q ≢ number → q ≤ result }
    ensures least { result ≤ highest }
{
    if number == highest {
        number.saturating_sub(1)
    } else {
        highest
    }
}

impl<T> Store<T> {
    /// An empty store, or an error where there is no memory for its ring.
    pub fn new(alloc: Global) -> Result<Store<T>, OutOfMemory>
        ensures { IfOk result (λ s. s ≡ map.empty) }
    {
        let ring = SlotRing::with_capacity(alloc, WINDOW_LOG2)?;
        Ok(Store {
            ring,
            lowest: 0,
            highest: 0,
        })
    }

    /// The ring that holds the values.
    pub fn ring(&self) -> &SlotRing<T>
        ensures { result.now ≡ ring 8192 self.now }
    {
        &self.ring
    }

    /// Holds the value under the number, if the number lies in the window of 8,192 numbers from `low` on and is not held.
    pub fn offer(&mut self, low: u64, number: u64, value: T) -> Offer<T>
        requires low { low ≤ 2 ^ 62 }
        requires number { low ≤ number }
        requires window { IsWindow self.old low }
        ensures answer { Offered self.old low number value result self.new }
        ensures window { IsWindow self.new low }
    {
        if number >= low + WINDOW {
            return Offer::Full(value);
        }
        let (lowest, highest) = bounds_with(&self.ring, self.lowest, self.highest, low, number);
        if let Err(value) = self.ring.put(number, value) {
            return Offer::Duplicate(value);
        }
        self.lowest = lowest;
        self.highest = highest;
        Offer::Held
    }

    /// Takes the value under the number out of the store.
    pub fn take(&mut self, number: u64) -> Option<T>
        ensures value { result ≡ map.get self.old number }
        ensures after { self.new ≡ map.remove self.old number }
    {
        let value = self.ring.take(number)?;
        self.lowest = lowest_without(self.lowest, number);
        self.highest = highest_without(self.highest, number);
        Some(value)
    }

    /// Whether the number is held.
    pub fn has(&self, number: u64) -> bool
        ensures { result ≡ map.contains_key self.now number }
    {
        is_held(&self.ring, number)
    }

    /// The least held number. Looks through at most as many numbers as a window has.
    pub fn least(&self) -> Option<u64>
        ensures { MatchOption result (self.now ≡ map.empty) (λ n. IsLeast self.now n) }
    {
        if self.ring.len() == 0 {
            return None;
        }
        Some(next_held(&self.ring, self.lowest, self.highest))
    }

    /// The greatest held number. Looks through at most as many numbers as a window has.
    pub fn greatest(&self) -> Option<u64>
        ensures { MatchOption result (self.now ≡ map.empty) (λ n. IsGreatest self.now n) }
    {
        if self.ring.len() == 0 {
            return None;
        }
        Some(previous_held(&self.ring, self.lowest, self.highest))
    }

    /// How many consecutive numbers from this one on are held.
    pub fn next_run(&self, number: u64) -> u64
        ensures { IsRun self.now number result }
    {
        let mut count = 0;
        while is_held(&self.ring, number + count) {
            count += 1;
        }
        count
    }

    /// Drops the held values, and says how many there were.
    pub fn discard_all(&mut self) -> u32
    where
        T: Drop,
        ensures count { result ≡ map.len self.old }
        ensures after { self.new ≡ map.empty }
    {
        self.ring.clear()
    }
}
