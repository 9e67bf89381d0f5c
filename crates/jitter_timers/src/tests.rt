ghost use Rattle.std.specs.Prelude.{◌≡◌, ◌<◌};
ghost use Rattle.jitter_timers.specs.Tests.{IsLow};

use crate::{Steps, TimerQueue};
use rtp_units::OutOfMemory;
use std::alloc::Global;
use std::marker::Brand;
use std::sync::ledger::{Blank, Ledger};
use std::test::*;

fn set_low<L: Ledger>(queue: &mut TimerQueue, number: u64, time: u64, steps: &mut Steps<L>)
    requires queue { IsLow queue.old }
    requires number { number < 16 }
    ensures { IsLow queue.new }
{
    queue.set(number, time, steps);
}

fn cancel_low<L: Ledger>(queue: &mut TimerQueue, number: u64, steps: &mut Steps<L>) -> bool
    requires { IsLow queue.old }
    ensures { IsLow queue.new }
{
    queue.cancel(number, steps)
}

fn pop_low<L: Ledger>(queue: &mut TimerQueue, steps: &mut Steps<L>) -> Option<(u64, u64)>
    requires { IsLow queue.old }
    ensures { IsLow queue.new }
{
    queue.pop(steps)
}

/// The least pair, by a look at all numbers.
fn plain_first(times: &[Option<u64>; 16]) -> Option<(u64, u64)> {
    let mut first = None;
    for number in 0..16 {
        let Some(time) = times[number] else {
            continue;
        };
        let pair = (time, number as u64);
        first = match first {
            Some(least) if least < pair => Some(least),
            _ => Some(pair),
        };
    }
    first
}

/// One generated call on a queue and on a table of times: whether both answer alike.
fn call_both<L: Ledger>(
    queue: &mut TimerQueue,
    times: &mut [Option<u64>; 16],
    seed: u32,
    steps: &mut Steps<L>,
) -> bool
    requires { IsLow queue.old }
    ensures { IsLow queue.new }
{
    let number = (seed / 268_435_456) as usize;
    let call = seed / 8_388_608 % 16;
    if call < 9 {
        let time = u64::from(seed / 65_536 % 32);
        times[number] = Some(time);
        set_low(queue, number as u64, time, steps);
        return true;
    }
    if call < 12 {
        let was = times[number].is_some();
        times[number] = None;
        return cancel_low(queue, number as u64, steps) == was;
    }
    let least = plain_first(times);
    if let Some((_, number)) = least {
        if number < 16 {
            times[number as usize] = None;
        }
    }
    pop_low(queue, steps) == least
}

/// Generated calls on a queue and on a table of times: how many answers differ.
fn runs_beside_a_table<L: Ledger>(alloc: Global, blank: Blank) -> Result<u32, OutOfMemory>
    requires name { blank.name ≡ L.name }
    requires parts { blank.parts ≡ L.parts }
    requires some { 0 < blank.parts }
{
    let mut steps = Steps::<L>::new(blank);
    let mut queue = TimerQueue::with_capacity(alloc, 16)?;
    let mut times = [None; 16];
    let mut seed = 1u32;
    let mut differ = 0u32;
    for _ in 0..3000 {
        seed = seed.wrapping_mul(1_664_525).wrapping_add(1_013_904_223);
        let same = call_both(&mut queue, &mut times, seed, &mut steps);
        if !same || queue.first() != plain_first(&times) {
            differ = differ.wrapping_add(1);
        }
    }
    Ok(differ)
}

#[test]
fn a_queue_runs_beside_a_table(rt: HostRuntime) -> Result<(), Fail> {
    assert_eq!(rt; runs_beside_a_table::<Brand>(rt.alloc(), Blank::new(1))?, 0);
    Ok(())
}

/// Two numbers that are due at one time, and one that is cancelled: whether it was there, the first, and whether it was
/// there once more.
fn ties<L: Ledger>(
    alloc: Global,
    blank: Blank,
) -> Result<(bool, Option<(u64, u64)>, bool), OutOfMemory>
    requires name { blank.name ≡ L.name }
    requires parts { blank.parts ≡ L.parts }
    requires some { 0 < blank.parts }
{
    let mut steps = Steps::<L>::new(blank);
    let mut queue = TimerQueue::with_capacity(alloc, 8)?;
    queue.set(7, 30, &mut steps);
    queue.set(5, 30, &mut steps);
    queue.set(9, 10, &mut steps);
    let found = queue.cancel(9, &mut steps);
    let first = queue.first();
    let found_again = queue.cancel(9, &mut steps);
    queue.clear();
    Ok((found && queue.len() == 0, first, found_again))
}

#[test]
fn the_lower_of_two_numbers_comes_first(rt: HostRuntime) -> Result<(), Fail> {
    let answers = ties::<Brand>(rt.alloc(), Blank::new(1))?;
    assert_eq!(rt; answers, (true, Some((30, 5)), false));
    Ok(())
}
