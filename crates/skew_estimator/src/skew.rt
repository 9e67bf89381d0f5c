//! `Skew`. A clause sees an estimator as its rate, its mode, the count of heights and what it has estimated.
ghost use Rattle.std.specs.Prelude.{◌≡◌, ◌+◌, ◌<◌, ◌≤◌, ◌^◌, ℕ, Bool, true, false, None, [], ◌∷◌, List, IfOk};
ghost use Rattle.skew_model.specs.Skew.{Height};
ghost use Rattle.skew_estimator.specs.Estimator.{StandsFor, IsStarted, IsHeightTime, IsOtherTime, height};

use crate::segment::{Segment, advance, extended, time_of, with_latest};
use crate::window::Window;
use rtp_units::{Mode, OutOfMemory};
use std::alloc::Global;
use std::marker::Model;

/// The presentation times of a segment's packets, and the skew of its sender's clock.
///
/// A height is an original packet whose number is greater than all before it. The estimator is told each height, and
/// stands for the list of them. It keeps no such list: only the last differences, and the least of them, which is searched
/// for only when it leaves the window. Arrivals and presentation times are nanoseconds. Only `new` takes memory.
#[derive(Drop)]
pub struct Skew {
    rate: u32,
    mode: Mode,
    heights: u32,
    segment: Option<Segment>,
    window: Window,
}

impl Model for Skew {
    ghost use Rattle.std.specs.Prelude.{◌<◌, ◌≤◌, ◌^◌, ⊤, option_map, MatchOption};
    ghost use Rattle.skew_estimator.specs.Estimator.{Estimator, estimator, estimator_code};

    ghost Value = { Estimator };

    ghost coded = { estimator_code };

    ghost use Rattle.skew_estimator.specs.Segment.{estimate_of, IsKept};

    ghost view = { λ s. estimator s.rate s.mode s.heights
        (option_map (λ g. estimate_of g s.window) s.segment) };

    ghost invariant = { λ s. (0 < s.rate) × (s.heights ≤ 2 ^ 31)
        × MatchOption s.segment ⊤ (λ g. IsKept g s.window s.heights) };
}

impl Skew {
    /// An estimator that wasn't started, for a clock of `rate` ticks a second, or an error where there is no memory.
    pub fn new(alloc: Global, rate: u32, mode: Mode) -> Result<Skew, OutOfMemory>
        requires { 0 < rate }
        ensures stands { IfOk result (λ s. StandsFor s []) }
        ensures rate { IfOk result (λ s. s.rate ≡ rate) }
        ensures mode { IfOk result (λ s. s.mode ≡ mode) }
    {
        let window = Window::new(alloc)?;
        Ok(Skew {
            rate,
            mode,
            heights: 0,
            segment: None,
            window,
        })
    }

    /// Starts a segment at a height with this RTP timestamp. Answers its presentation time.
    pub fn first(&mut self, rtp: u32, arrival: u64) -> u64
        ensures stands { (is_next : Bool) → StandsFor self.new (height rtp arrival is_next ∷ []) }
        ensures time { (is_next : Bool) → IsHeightTime self.new
            (height rtp arrival is_next ∷ []) result }
        ensures started { IsStarted self.new }
        ensures heights { self.new.heights ≡ 0 }
        ensures rate { self.new.rate ≡ self.old.rate }
        ensures mode { self.new.mode ≡ self.old.mode }
    {
        let start = i64::from(rtp);
        let segment = Segment::started(arrival, start);
        self.window.restart();
        self.segment = Some(segment);
        self.heights = 0;
        time_of(&segment, self.rate, start)
    }

    /// Forgets the segment.
    pub fn reset(&mut self)
        ensures stands { StandsFor self.new [] }
        ensures rate { self.new.rate ≡ self.old.rate }
        ensures mode { self.new.mode ≡ self.old.mode }
    {
        self.segment = None;
        self.heights = 0;
    }

    /// How many heights came after the first of the segment.
    pub fn heights(&self) -> u32
        ensures { result ≡ self.now.heights }
    {
        self.heights
    }

    /// A height one above the one before it, with its arrival. Answers its presentation time.
    pub fn in_order(&mut self, rtp: u32, arrival: u64) -> u64
        requires started { IsStarted self.old }
        requires heights { self.old.heights < 2 ^ 31 }
        ensures stands { (heights : List Height) → StandsFor self.old heights
            → StandsFor self.new (height rtp arrival true ∷ heights) }
        ensures time { (heights : List Height) → StandsFor self.old heights
            → IsHeightTime self.new (height rtp arrival true ∷ heights) result }
        ensures started { IsStarted self.new }
        ensures heights { self.new.heights ≡ self.old.heights + 1 }
        ensures rate { self.new.rate ≡ self.old.rate }
        ensures mode { self.new.mode ≡ self.old.mode }
    {
        let Some(before) = self.segment else {
            unreachable!()
        };
        let timestamp = extended(before.latest, rtp);
        let after = advance(
            &before,
            &mut self.window,
            self.rate,
            self.mode,
            timestamp,
            arrival,
        );
        self.segment = Some(after);
        self.heights += 1;
        time_of(&after, self.rate, timestamp)
    }

    /// A height that isn't one above the one before it. Answers its presentation time.
    pub fn jump(&mut self, rtp: u32) -> u64
        requires started { IsStarted self.old }
        requires heights { self.old.heights < 2 ^ 31 }
        ensures stands { (heights : List Height) (arrival : ℕ) → StandsFor self.old heights
            → StandsFor self.new (height rtp arrival false ∷ heights) }
        ensures time { (heights : List Height) (arrival : ℕ) → StandsFor self.old heights
            → IsHeightTime self.new (height rtp arrival false ∷ heights) result }
        ensures started { IsStarted self.new }
        ensures heights { self.new.heights ≡ self.old.heights + 1 }
        ensures rate { self.new.rate ≡ self.old.rate }
        ensures mode { self.new.mode ≡ self.old.mode }
    {
        let Some(before) = self.segment else {
            unreachable!()
        };
        let timestamp = extended(before.latest, rtp);
        let after = with_latest(&before, timestamp);
        self.segment = Some(after);
        self.heights += 1;
        time_of(&after, self.rate, timestamp)
    }

    /// The presentation time of any other timestamp.
    pub fn other(&self, rtp: u32) -> u64
        requires { IsStarted self.now }
        ensures { (heights : List Height) → StandsFor self.now heights
            → IsOtherTime self.now heights rtp result }
    {
        let Some(segment) = self.segment else {
            unreachable!()
        };
        time_of(&segment, self.rate, extended(segment.latest, rtp))
    }
}
