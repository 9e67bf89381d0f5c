//! The arithmetic of the skew. All divisions cut towards zero.
ghost use Rattle.std.specs.Prelude.{◌≡◌, ◌<◌, ◌≤◌, ◌^◌, ◌*◌, ◌-◌, ◌+◌, ℤ, pos, negsuc, ◌+ℤ◌, ◌*ℤ◌, ◌≤ℤ◌, neg_ℤ, int_div};
ghost use Rattle.skew_model.specs.Skew.{is_apart, fills, percent, filling_mean, filled_mean};
ghost use Rattle.skew_estimator.specs.Near.{IsNear};

/// Whether a difference is more than a second away from the skew.
pub(crate) fn is_apart(difference: i128, skew: i128) -> bool
    requires difference { IsNear difference }
    requires skew { IsNear skew }
    ensures { result ≡ is_apart difference skew }
{
    let off = difference - skew;
    off > 1_000_000_000 || off < -1_000_000_000
}

/// Whether so many differences, or so much of the sender's time, fill the window.
pub(crate) fn fills(count: u64, sent: i128) -> bool
    ensures { result ≡ fills count sent }
{
    count >= 512 || sent >= 2_000_000_000
}

/// How far a window is filled that isn't yet, of 100.
fn percent(count: u64, sent: i128) -> u64
    requires few { count < 512 }
    requires early { sent ≤ℤ pos 1999999999 }
    ensures value { result ≡ percent count sent }
    ensures small { result < 100 }
{
    let by_time = if sent < 0 {
        0
    } else {
        sent as u64 * 100 / 2_000_000_000
    };
    by_time.max(count * 100 / 512)
}

/// A multiple of a number.
fn product(factor: u64, x: i128) -> i128
    requires factor { factor ≤ 10000 }
    requires near { IsNear x }
    ensures { result ≡ pos factor *ℤ x }
{
    i128::from(factor) * x
}

/// A multiple of a number, with its bounds.
fn times(factor: u64, x: i128) -> i128
    requires factor { factor ≤ 10000 }
    requires near { IsNear x }
    ensures value { result ≡ pos factor *ℤ x }
    ensures above { neg_ℤ (pos (factor * (2 ^ 95 + 1))) ≤ℤ result }
    ensures below { result ≤ℤ pos (factor * 2 ^ 95) }
{
    product(factor, x)
}

/// The square of a number below 100.
fn square(percent: u64) -> u64
    requires { percent < 100 }
    ensures value { result ≡ percent * percent }
    ensures small { result ≤ 10000 }
{
    percent * percent
}

/// A ten-thousandth of a sum.
fn ten_thousandth(a: i128, b: i128) -> i128
    requires from { negsuc (10000 * 2 ^ 95 + 9999) ≤ℤ (a +ℤ b) }
    requires to { (a +ℤ b) ≤ℤ pos (10000 * 2 ^ 95) }
    requires a_from { negsuc (2 ^ 110) ≤ℤ a }
    requires a_to { a ≤ℤ pos (2 ^ 110) }
    requires b_from { negsuc (2 ^ 110) ≤ℤ b }
    requires b_to { b ≤ℤ pos (2 ^ 110) }
    ensures value { result ≡ int_div (a +ℤ b) (pos 10000) }
    ensures near { IsNear result }
{
    let sum = a + b;
    sum / 10_000
}

/// A hundred and twenty-fifth of a number.
fn hundred_twenty_fifth(sum: i128) -> i128
    requires from { negsuc (125 * 2 ^ 95 + 124) ≤ℤ sum }
    requires to { sum ≤ℤ pos (125 * 2 ^ 95) }
    ensures value { result ≡ int_div sum (pos 125) }
    ensures near { IsNear result }
{
    sum / 125
}

// The least difference is that of the packets that the network delayed least, so it is what the two
// clocks differ by. The first few tell little of it: the least counts by the square of how far the window
// is filled. Later the skew follows slowly, so that one early packet moves no presentation time by much.

/// The skew while the window fills: the mean of the least difference and the skew before.
pub(crate) fn filling_mean(count: u64, sent: i128, least: i128, skew: i128) -> i128
    requires few { count < 512 }
    requires early { sent ≤ℤ pos 1999999999 }
    requires least { IsNear least }
    requires skew { IsNear skew }
    ensures value { result ≡ filling_mean (percent count sent) least skew }
    ensures near { IsNear result }
{
    let weight = square(percent(count, sent));
    let least = times(weight, least);
    let skew = times(10_000 - weight, skew);
    ten_thousandth(least, skew)
}

/// The skew where the window was filled before: the mean of the least difference and the skew before.
pub(crate) fn filled_mean(least: i128, skew: i128) -> i128
    requires least { IsNear least }
    requires skew { IsNear skew }
    ensures value { result ≡ filled_mean least skew }
    ensures near { IsNear result }
{
    let sum = least + 124 * skew;
    hundred_twenty_fifth(sum)
}
