//! The calls of a buffer that count steps, for a caller that doesn't: the same replies, with a count of their own.
ghost use Rattle.std.specs.Prelude.{◌≡◌, ◌<◌, ◌^◌, ◌+◌, ◌∷◌, max, true, false};
ghost use Rattle.jitter_model.specs.declared.Entry.TheVariants.{Push, Turned};
ghost use Rattle.jitter_model.specs.History.{History, is_pusher};
ghost use Rattle.jitter_model.specs.Laws.{IsLater};
ghost use Rattle.jitter_model.specs.Turns.{turn as reply_to_turn, is_quiet, wake_of, left};
ghost use Rattle.jitter_model.specs.Verdicts.{pushed as reply_to_push};
ghost use Rattle.jitter_core.specs.Words.{Stands, left_of, now_of, pushes_of, settings_of};

use crate::buffer::Buffer;
use jitter_model::{Arrival, Pushed, Turn};
use jitter_timers::Steps;
use std::marker::Brand;
use std::sync::ledger::{Blank, Ledger};

fn push_counted<L: Ledger>(buffer: &mut Buffer, a: Arrival, blank: Blank) -> Pushed
    requires name { blank.name ≡ L.name }
    requires parts { blank.parts ≡ L.parts }
    requires some { 0 < blank.parts }
    requires pusher { is_pusher (settings_of buffer.old).pushers a.pusher ≡ true }
    requires stamp { a.stamp < 2 ^ 63 }
    requires few { pushes_of buffer.old < 2 ^ 31 }
    ensures settings { settings_of buffer.new ≡ settings_of buffer.old }
    ensures count { pushes_of buffer.new ≡ pushes_of buffer.old + 1 }
    ensures time { now_of buffer.new ≡ max a.stamp (now_of buffer.old) }
    ensures value { (h : History) → Stands buffer.old h
        → result ≡ reply_to_push (settings_of buffer.old) h a }
    ensures stands { (h : History) → Stands buffer.old h
        → Stands buffer.new (Push a result.verdict result.number result.aside_dropped ∷ h) }
{
    let mut steps = Steps::<L>::new(blank);
    buffer.push(a, &mut steps)
}

/// Takes a packet in, as [`Buffer::push`] does.
pub fn push(buffer: &mut Buffer, a: Arrival) -> Pushed
    requires pusher { is_pusher (settings_of buffer.old).pushers a.pusher ≡ true }
    requires stamp { a.stamp < 2 ^ 63 }
    requires few { pushes_of buffer.old < 2 ^ 31 }
    ensures settings { settings_of buffer.new ≡ settings_of buffer.old }
    ensures count { pushes_of buffer.new ≡ pushes_of buffer.old + 1 }
    ensures time { now_of buffer.new ≡ max a.stamp (now_of buffer.old) }
    ensures value { (h : History) → Stands buffer.old h
        → result ≡ reply_to_push (settings_of buffer.old) h a }
    ensures stands { (h : History) → Stands buffer.old h
        → Stands buffer.new (Push a result.verdict result.number result.aside_dropped ∷ h) }
{
    push_counted::<Brand>(buffer, a, Blank::new(1))
}

fn turn_counted<L: Ledger>(buffer: &mut Buffer, blank: Blank) -> Turn
    requires name { blank.name ≡ L.name }
    requires parts { blank.parts ≡ L.parts }
    requires some { 0 < blank.parts }
    ensures settings { settings_of buffer.new ≡ settings_of buffer.old }
    ensures same { pushes_of buffer.new ≡ pushes_of buffer.old }
    ensures time { now_of buffer.new ≡ now_of buffer.old }
    ensures value { (h : History) → Stands buffer.old h
        → result ≡ reply_to_turn (settings_of buffer.old) h }
    ensures stands { (h : History) → Stands buffer.old h → Stands buffer.new (Turned result ∷ h) }
    ensures quiet { is_quiet result ≡ true → (h : History) → Stands buffer.old h
        → Stands buffer.new h }
    ensures measure { (h : History) → Stands buffer.old h
        → left_of buffer.old ≡ left (settings_of buffer.old) h }
    ensures left { is_quiet result ≡ false → left_of buffer.new < left_of buffer.old }
    ensures later { IsLater (now_of buffer.old) (wake_of result) }
{
    let mut steps = Steps::<L>::new(blank);
    buffer.turn(&mut steps)
}

/// Takes a turn, as [`Buffer::turn`] does.
pub fn turn(buffer: &mut Buffer) -> Turn
    ensures settings { settings_of buffer.new ≡ settings_of buffer.old }
    ensures same { pushes_of buffer.new ≡ pushes_of buffer.old }
    ensures time { now_of buffer.new ≡ now_of buffer.old }
    ensures value { (h : History) → Stands buffer.old h
        → result ≡ reply_to_turn (settings_of buffer.old) h }
    ensures stands { (h : History) → Stands buffer.old h → Stands buffer.new (Turned result ∷ h) }
    ensures quiet { is_quiet result ≡ true → (h : History) → Stands buffer.old h
        → Stands buffer.new h }
    ensures measure { (h : History) → Stands buffer.old h
        → left_of buffer.old ≡ left (settings_of buffer.old) h }
    ensures left { is_quiet result ≡ false → left_of buffer.new < left_of buffer.old }
    ensures later { IsLater (now_of buffer.old) (wake_of result) }
{
    turn_counted::<Brand>(buffer, Blank::new(1))
}
