//! Extended numbers and units of time.
ghost use Rattle.std.specs.Prelude.{◌≡◌, ◌+◌, ◌*◌, ◌%◌, ◌/◌, ◌<◌, ◌≤◌, ◌^◌, ℤ, pos, negsuc, ◌+ℤ◌, ◌≤ℤ◌, min};
ghost use Rattle.rtp_units.specs.Numbers.{ext16, ext32, low32, nanoseconds, hold, ntp_time, ntp_middle_bits, delay_units};

/// The extended sequence number (RFC 3550, appendix A.1) of the 16 bits `low`: the number congruent to
/// `low` modulo 2^16 whose distance from `reference` is from -32768 to 32767.
pub fn extend16(reference: u64, low: u16) -> u64
    requires from { 32768 ≤ reference }
    requires to { reference ≤ 2 ^ 62 }
    ensures value { result ≡ ext16 reference low }
    ensures congruent { result % 65536 ≡ low }
    ensures above { reference ≤ result + 32768 }
    ensures below { result ≤ reference + 32767 }
{
    let here = reference % 65536;
    let low = u64::from(low);
    let same = reference - here + low;
    if low + 32768 < here {
        same + 65536
    } else if here + 32767 < low {
        same - 65536
    } else {
        same
    }
}

/// The extended timestamp of the 32 bits `low`: the number congruent to `low` modulo 2^32 whose distance
/// from `reference` is from -2^31 to 2^31 - 1.
pub fn extend32(reference: i64, low: u32) -> i64
    requires from { negsuc 4611686018427387903 ≤ℤ reference }
    requires to { reference ≤ℤ pos 4611686018427387904 }
    ensures value { result ≡ ext32 reference low }
    ensures congruent { low32 result ≡ low }
    ensures above { reference ≤ℤ (result +ℤ pos 2147483648) }
    ensures below { result ≤ℤ (reference +ℤ pos 2147483647) }
{
    let distance = (u64::from(low) + 6442450944 - low_bits(reference)) % 4294967296;
    reference + distance as i64 - 2147483648
}

fn low_bits(x: i64) -> u64
    ensures low { result ≡ low32 x }
    ensures small { result < 4294967296 }
{
    (i128::from(x) + 9223372036854775808) as u64 % 4294967296
}

/// Ticks of a media clock of `rate` ticks a second, in nanoseconds, cut towards zero.
pub fn ticks_to_ns(ticks: i128, rate: u32) -> i128
    requires rate { 0 < rate }
    requires from { negsuc 18446744073709551615 ≤ℤ ticks }
    requires to { ticks ≤ℤ pos 18446744073709551616 }
    ensures value { result ≡ nanoseconds ticks rate }
    ensures above { negsuc 19807040628566084398385987584 ≤ℤ result }
    ensures below { result ≤ℤ pos 19807040628566084398385987584 }
{
    // A product of 64 bits is divided at once. One of 128 bits takes a call of some fifty instructions.
    if -9_000_000_000 <= ticks && ticks <= 9_000_000_000 {
        i128::from(ticks as i64 * 1_000_000_000 / i64::from(rate))
    } else {
        ticks * 1_000_000_000 / i128::from(rate)
    }
}

/// A time in nanoseconds, held to the range from 0 to 2^63 - 1.
pub fn held_to_time(t: i128) -> u64
    ensures value { result ≡ hold t }
    ensures small { result < 2 ^ 63 }
{
    if t < 0 {
        0
    } else if t > 9223372036854775807 {
        9223372036854775807
    } else {
        t as u64
    }
}

/// An NTP timestamp (RFC 3550, section 4), seconds and 2^-32 seconds, in nanoseconds, rounded down.
pub fn ntp_to_ns(seconds: u32, fraction: u32) -> u64
    ensures value { result ≡ ntp_time seconds fraction }
    ensures small { result < 2 ^ 63 }
{
    u64::from(seconds) * 1_000_000_000 + u64::from(fraction) * 1_000_000_000 / 4294967296
}

/// The middle 32 bits of an NTP timestamp, as the field LSR of a report block carries them: the low 16
/// bits of the seconds, then the high 16 bits of the fraction.
pub fn ntp_middle(seconds: u32, fraction: u32) -> u32
    ensures value { result ≡ ntp_middle_bits seconds fraction }
{
    seconds % 65536 * 65536 + fraction / 65536
}

/// A delay in nanoseconds as the field DLSR of a report block carries it: in units of 2^-16 seconds,
/// rounded down and held to 2^32 - 1.
pub fn dlsr(ns: u64) -> u32
    ensures value { result ≡ delay_units ns }
{
    let units = u128::from(ns) * 65536 / 1_000_000_000;
    if units > 4294967295 {
        4294967295
    } else {
        units as u32
    }
}
