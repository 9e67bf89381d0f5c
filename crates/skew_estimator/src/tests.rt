ghost use Rattle.skew_estimator.specs.Estimator.{IsStarted};

use crate::Skew;
use rtp_units::Mode;
use std::alloc::AllocError;
use std::test::*;

/// A height one above the one before it. Nothing where too many came before.
fn next(skew: &mut Skew, rtp: u32, arrival: u64) -> u64
    requires { IsStarted skew.old }
    ensures { IsStarted skew.new }
{
    if skew.heights() >= 2_147_483_648 {
        return 0;
    }
    skew.in_order(rtp, arrival)
}

#[test]
fn the_skew_follows_the_least_difference(rt: HostRuntime) -> Result<(), Fail> {
    let mut skew = Skew::new(rt.alloc(), 90_000, Mode::Slave)?;
    assert_eq!(rt; skew.first(0, 0), 0);
    assert_eq!(rt; next(&mut skew, 1_800, 21_000_000), 20_000_000);
    assert_eq!(rt; next(&mut skew, 3_600, 39_000_000), 39_999_600);
    assert_eq!(rt; skew.other(1_800), 19_999_600);
    assert_eq!(rt; skew.heights(), 2);
    assert_eq!(rt; skew.jump(9_000), 99_999_600);
    skew.reset();
    assert_eq!(rt; skew.first(4_294_967_290, 7_000), 7_000);
    assert_eq!(rt; next(&mut skew, 84, 1_007_000), 1_007_000, "round 2^32");
    Ok(())
}

#[test]
fn a_mode_without_skew(rt: HostRuntime) -> Result<(), Fail> {
    let mut skew = Skew::new(rt.alloc(), 90_000, Mode::Plain)?;
    assert_eq!(rt; skew.first(0, 5), 5);
    assert_eq!(rt; next(&mut skew, 1_800, 9_000_000_000), 20_000_005);
    Ok(())
}

/// The presentation times of the last two of 514 heights, a millisecond apart, all but the first late by 125 microseconds.
fn fills_a_window(skew: &mut Skew) -> (u64, u64) {
    skew.first(0, 0);
    let mut times = (0, 0);
    for i in 1..514u32 {
        times = (
            times.1,
            next(skew, 90 * i, u64::from(i) * 1_000_000 + 125_000),
        );
    }
    times
}

#[test]
fn the_first_difference_leaves_the_window(rt: HostRuntime) -> Result<(), Fail> {
    let mut skew = Skew::new(rt.alloc(), 90_000, Mode::Slave)?;
    assert_eq!(rt; fills_a_window(&mut skew), (512_001_000, 513_001_992));
    Ok(())
}

/// The same rule with all differences kept, and a search of the window at each height.
#[derive(Drop)]
struct Plain {
    base: i128,
    start: i128,
    skew: i128,
    differences: Vec<i128>,
    // 0 until the window is filled.
    size: usize,
}

fn least_of_last(differences: &[i128], count: usize) -> i128 {
    let mut least = i128::MAX;
    for difference in differences.iter().rev().take(count) {
        least = least.min(*difference);
    }
    least
}

impl Plain {
    fn next(&mut self, ticks: i128, arrival: i128) -> Result<i128, AllocError> {
        let sent = ticks.wrapping_sub(self.start).wrapping_mul(1_000_000_000) / 90_000;
        let difference = arrival.wrapping_sub(self.base).wrapping_sub(sent);
        let off = difference.wrapping_sub(self.skew);
        if off > 1_000_000_000 || off < -1_000_000_000 {
            self.base = arrival;
            self.start = ticks;
            self.skew = 0;
            self.size = 0;
            self.differences.clear();
            self.differences.push(0)?;
            return Ok(arrival);
        }
        self.differences.push(difference)?;
        let count = self.differences.len();
        if self.size > 0 {
            let least = least_of_last(&self.differences, self.size);
            self.skew = least.wrapping_add(self.skew.wrapping_mul(124)) / 125;
        } else {
            let least = least_of_last(&self.differences, count);
            if count >= 512 || sent >= 2_000_000_000 {
                self.size = count;
                self.skew = least;
            } else {
                let by_time = sent.max(0).wrapping_mul(100) / 2_000_000_000;
                let percent = by_time.max((count as i128).wrapping_mul(100) / 512);
                let square = percent.wrapping_mul(percent);
                let rest = 10_000i128.wrapping_sub(square).wrapping_mul(self.skew);
                self.skew = square.wrapping_mul(least).wrapping_add(rest) / 10_000;
            }
        }
        Ok(self.base.wrapping_add(sent).wrapping_add(self.skew))
    }
}

/// Generated heights, through both: how many presentation times differ.
fn runs_beside_a_plain_search(skew: &mut Skew, plain: &mut Plain) -> Result<u32, AllocError> {
    skew.first(0, 0);
    let mut seed = 1u32;
    let mut ticks = 0u64;
    let mut arrival = 0u64;
    let mut differ = 0u32;
    for _ in 0..4000 {
        seed = seed.wrapping_mul(1_664_525).wrapping_add(1_013_904_223);
        ticks = ticks.wrapping_add(u64::from(seed / 65_536 % 400));
        let pause = if seed / 1_024 % 1_500 == 0 {
            3_000_000_000
        } else {
            0
        };
        arrival = arrival
            .wrapping_add(u64::from(seed / 256 % 4_400_000))
            .wrapping_add(pause);
        let expected = plain.next(i128::from(ticks), i128::from(arrival))?.max(0);
        if i128::from(next(skew, (ticks % 4_294_967_296) as u32, arrival)) != expected {
            differ = differ.wrapping_add(1);
        }
    }
    Ok(differ)
}

#[test]
fn the_tracked_least_is_that_of_a_plain_search(rt: HostRuntime) -> Result<(), Fail> {
    let mut skew = Skew::new(rt.alloc(), 90_000, Mode::Slave)?;
    let mut plain = Plain {
        base: 0,
        start: 0,
        skew: 0,
        differences: Vec::from_elem(rt.alloc(), 0, 1)?,
        size: 0,
    };
    assert_eq!(rt; runs_beside_a_plain_search(&mut skew, &mut plain)?, 0);
    Ok(())
}
