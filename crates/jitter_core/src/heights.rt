//! The heights that a buffer keeps, and the expected times by them.

ghost use Rattle.std.specs.Prelude.{◌≡◌, ◌<◌, ◌≤◌, ◌^◌, ◌+◌, ◌*◌, Some, None, pos, negsuc, ◌+ℤ◌, ◌-ℤ◌, ◌*ℤ◌, ◌≤ℤ◌, int_div, length, [], ◌∷◌, IfOk, List};
ghost use Rattle.std.specs.VecDeque.{deque_len, deque_capacity};
ghost use Rattle.jitter_model.specs.Times.{expected, between};
ghost use Rattle.jitter_model.specs.Requests.{spacing};
ghost use Rattle.rtp_units.specs.Numbers.{hold};
ghost use Rattle.std.specs.Option.{ForSome};
ghost use Rattle.std.specs.List.{AllWithin};
ghost use Rattle.jitter_core.specs.Marks.{kept_two, before_another, is_next_mark, next_time, AreMarksBounded, AreMarksFalling};

use jitter_model::Mark;
use rtp_units::{OutOfMemory, held_to_time};
use std::alloc::Global;
use std::collections::VecDeque;
use std::marker::Model;

// One more than the numbers of a window, which is the most heights that are kept.
const ROOM: usize = 8_193;

// The longest spacing that tells when a packet is due: 10 seconds.
const LONGEST_SPACING: u64 = 10_000_000_000;

/// Heights, the greatest first, each with its presentation time. Only `new` takes memory.
#[derive(Drop)]
pub struct Heights {
    marks: VecDeque<Mark>,
}

impl Model for Heights {
    ghost use Rattle.std.specs.Prelude.{List, ◌≤◌};
    ghost use Rattle.std.specs.VecDeque.{deque_capacity};
    ghost use Rattle.jitter_model.specs.declared.Mark.{Mark};

    ghost Value = { List Mark };

    ghost view = { λ h. h.marks.items };

    ghost invariant = { λ h. 8193 ≤ deque_capacity h.marks };
}

/// How much later the second time is.
fn rise_of(from: u64, to: u64) -> i128
    ensures { result ≡ pos to -ℤ pos from }
{
    i128::from(to) - i128::from(from)
}

/// A part of a difference of times, cut towards zero.
fn part_of(rise: i128, part: u64, whole: u64) -> i128
    requires low { negsuc (2 ^ 63) ≤ℤ rise }
    requires high { rise ≤ℤ pos (2 ^ 63) }
    requires part { part ≤ 2 ^ 62 }
    requires whole { 0 < whole }
    ensures value { result ≡ int_div (rise *ℤ pos part) (pos whole) }
    ensures above { negsuc (2 ^ 126) ≤ℤ result }
    ensures below { result ≤ℤ pos (2 ^ 126) }
{
    rise * i128::from(part) / i128::from(whole)
}

/// A time moved by a difference, held to its range.
fn moved_by(time: u64, by: i128) -> u64
    requires low { negsuc (2 ^ 126) ≤ℤ by }
    requires high { by ≤ℤ pos (2 ^ 126) }
    ensures value { result ≡ hold (pos time +ℤ by) }
    ensures small { result < 2 ^ 63 }
{
    held_to_time(i128::from(time) + by)
}

/// The time at `n` on the line from `a` to `b`.
fn time_between(a: &Mark, b: &Mark, n: u64) -> u64
    requires from { a.now.number ≤ n }
    requires to { n < b.now.number }
    requires number { b.now.number ≤ 2 ^ 62 }
    requires a { a.now.pts < 2 ^ 63 }
    requires b { b.now.pts < 2 ^ 63 }
    ensures value { result ≡ between a.now b.now n }
    ensures small { result < 2 ^ 63 }
{
    let rise = rise_of(a.pts, b.pts);
    let part = part_of(rise, n - a.number, b.number - a.number);
    moved_by(a.pts, part)
}

/// How many heights are above a number. These are the first ones.
fn count_above(marks: &VecDeque<Mark>, n: u64) -> usize
    requires { AreMarksFalling marks.now.items }
    ensures most { result ≤ deque_len marks.now }
    ensures above { AllWithin (λ m. n < m.number) marks.now.items 0 result }
    ensures others { AllWithin (λ m. m.number ≤ n) marks.now.items result (deque_len marks.now) }
{
    marks.partition_point(|mark| n < mark.number)
}

/// The expected time of a number by these heights.
fn expected_by(marks: &VecDeque<Mark>, n: u64) -> u64
    requires bounded { AreMarksBounded marks.now.items }
    requires falling { AreMarksFalling marks.now.items }
    ensures value { result ≡ expected marks.now.items n }
    ensures small { result < 2 ^ 63 }
{
    if marks.is_empty() {
        return 0;
    }
    let above = count_above(marks, n);
    if above == 0 {
        return marks[0].pts;
    }
    let next = marks[above - 1];
    if above == marks.len() {
        return next.pts;
    }
    time_between(&marks[above], &next, n)
}

/// The time from one number to the next between two neighbouring heights, cut towards zero.
fn spacing_of(a: &Mark, b: &Mark) -> u64
    ensures { result ≡ spacing a.now b.now }
{
    if b.number <= a.number {
        return 0;
    }
    b.pts.saturating_sub(a.pts) / (b.number - a.number)
}

/// When the packet after `top` is due by the spacing of the last two heights, where `top` is the latest one.
fn time_after(marks: &VecDeque<Mark>, top: u64) -> Option<u64>
    requires { AreMarksBounded marks.now.items }
    ensures value { result ≡ next_time top marks.now.items }
    ensures small { ForSome result (λ t. t < 2 ^ 63 + 2 ^ 34) }
{
    if marks.len() < 2 {
        return None;
    }
    let latest = marks[0];
    let spacing = spacing_of(&marks[1], &latest);
    if latest.number == top && 1 <= spacing && spacing <= LONGEST_SPACING {
        Some(latest.pts + spacing)
    } else {
        None
    }
}

/// Drops all heights but the latest where that one isn't above `next`.
fn cut_to(marks: &mut VecDeque<Mark>, next: u64)
    ensures items { marks.new.items ≡ before_another (Some next) marks.old.items }
    ensures len { deque_len marks.new ≤ deque_len marks.old }
    ensures capacity { deque_capacity marks.new ≡ deque_capacity marks.old }
{
    let is_past = match marks.front() {
        None => false,
        Some(latest) => latest.number <= next,
    };
    if is_past {
        marks.truncate(1);
    }
}

/// Drops the heights that no number from `next` on needs, but for the last two. These are the least ones.
fn prune_to(marks: &mut VecDeque<Mark>, next: u64)
    requires { AreMarksFalling marks.old.items }
    ensures items { marks.new.items ≡ kept_two (Some next) marks.old.items }
    ensures capacity { deque_capacity marks.new ≡ deque_capacity marks.old }
{
    while 2 < marks.len() && marks[marks.len() - 2].number <= next {
        marks.pop_back();
    }
}

impl Heights {
    /// No heights.
    pub fn new(alloc: Global) -> Result<Heights, OutOfMemory>
        ensures { IfOk result (λ h. h ≡ []) }
    {
        Ok(Heights {
            marks: VecDeque::with_capacity(alloc, ROOM)?,
        })
    }

    /// Puts a height above all others in, and drops those that no number from `next` on needs.
    pub fn add(&mut self, next: Option<u64>, mark: Mark)
        requires { length self.old ≤ 8192 }
        ensures { self.new ≡ mark ∷ before_another next self.old }
    {
        if let Some(next) = next {
            cut_to(&mut self.marks, next);
        }
        self.marks.push_front_reserved(mark);
    }

    /// Whether a number is one above the latest height.
    pub fn is_next(&self, number: u64) -> bool
        requires { AreMarksBounded self.now }
        ensures { result ≡ is_next_mark self.now number }
    {
        match self.marks.front() {
            None => false,
            Some(mark) => number == mark.number + 1,
        }
    }

    /// The expected time of a number.
    pub fn expected(&self, n: u64) -> u64
        requires bounded { AreMarksBounded self.now }
        requires falling { AreMarksFalling self.now }
        ensures value { result ≡ expected self.now n }
        ensures small { result < 2 ^ 63 }
    {
        expected_by(&self.marks, n)
    }

    /// When the packet after `top` is due by the spacing of the last two heights, where `top` is the latest one.
    pub fn next_time(&self, top: u64) -> Option<u64>
        requires { AreMarksBounded self.now }
        ensures value { result ≡ next_time top self.now }
        ensures small { ForSome result (λ t. t < 2 ^ 63 + 2 ^ 34) }
    {
        time_after(&self.marks, top)
    }

    /// Drops the heights that no number from `next` on needs, but for the last two.
    pub fn prune(&mut self, next: u64)
        requires { AreMarksFalling self.old }
        ensures { self.new ≡ kept_two (Some next) self.old }
    {
        prune_to(&mut self.marks, next);
    }

    /// Drops all.
    pub fn clear(&mut self)
        ensures { self.new ≡ [] }
    {
        self.marks.clear();
    }
}
