//! Interarrival jitter (RFC 3550, appendix A.8).
ghost use Rattle.std.specs.Prelude.{◌≡◌, ◌<◌, ◌≤◌, ◌^◌, ◌*◌, ◌/◌, ◌%◌};
ghost use Rattle.source_table.specs.Counting.{no_jitter, transit_of, apart, step_of, jitter_next};

/// The jitter of a source in 16ths of a tick, and the transit of its last counted packet with a rate.
#[derive(Clone, Copy, Debug, PartialEq, Eq, Drop)]
pub struct Jitter {
    pub transit: Option<u32>,
    pub sixteenths: u64,
}

impl Jitter {
    /// Before the first packet.
    pub(crate) fn new() -> Jitter
        ensures { result ≡ no_jitter }
    {
        Jitter {
            transit: None,
            sixteenths: 0,
        }
    }

    /// The jitter after a counted packet that arrived at `now` nanoseconds.
    pub(crate) fn next(self, now: u64, timestamp: u32, rate: Option<u32>) -> Jitter
        ensures { result ≡ jitter_next self now timestamp rate }
    {
        let Some(rate) = rate else {
            return self;
        };
        let here = transit(now, timestamp, rate);
        let sixteenths = match self.transit {
            None => self.sixteenths,
            Some(before) => stepped(self.sixteenths, distance(here, before)),
        };
        Jitter {
            transit: Some(here),
            sixteenths,
        }
    }
}

/// One step towards the distance of two transits.
fn stepped(sixteenths: u64, distance: u32) -> u64
    requires { distance ≤ 2 ^ 31 }
    ensures { result ≡ step_of sixteenths distance }
{
    let old = u128::from(sixteenths);
    (old + u128::from(distance) - (old + 8) / 16) as u64
}

/// The arrival in ticks, cut down, less the timestamp, modulo 2^32.
fn transit(now: u64, timestamp: u32, rate: u32) -> u32
    ensures { result ≡ transit_of now timestamp rate }
{
    ((ticks(now, rate) + 4294967296 - u64::from(timestamp)) % 4294967296) as u32
}

/// A time in ticks, cut down, modulo 2^32.
fn ticks(now: u64, rate: u32) -> u64
    ensures value { result ≡ now * rate / 1000000000 % 4294967296 }
    ensures small { result < 2 ^ 32 }
{
    // A product of 64 bits is divided at once. One of 128 bits takes a call of some fifty instructions.
    let product = u128::from(now) * u128::from(rate);
    match u64::try_from(product) {
        Ok(product) => product / 1_000_000_000 % 4294967296,
        Err(_) => (product / 1_000_000_000 % 4294967296) as u64,
    }
}

/// How far two transits lie apart as signed numbers of 32 bits.
fn distance(here: u32, before: u32) -> u32
    ensures value { result ≡ apart here before }
    ensures small { result ≤ 2 ^ 31 }
{
    let ahead = (u64::from(here) + 4294967296 - u64::from(before)) % 4294967296;
    ahead.min(4294967296 - ahead) as u32
}
