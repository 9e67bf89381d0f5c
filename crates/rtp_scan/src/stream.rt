//! What is told of the packets of one port and SSRC.
ghost use Rattle.std.specs.Prelude.{◌≡◌};
ghost use Rattle.rtp_scan.specs.Streams.{follows as follows_in, is_stream as is_stream_of};
ghost use Rattle.rtp_scan.specs.Steps.{told_next};

use crate::sight::Arrival;

/// The fewest packets of a stream.
const MIN_PACKETS: u64 = 3;

/// The packets of one port and SSRC.
#[derive(Clone, Copy, Debug, PartialEq, Eq, Drop)]
pub struct Stream {
    /// How many packets there are, at most 2^64 - 1.
    pub packets: u64,
    pub first: Arrival,
    pub latest: Arrival,
    /// A packet has the number behind that of the packet before it.
    pub consecutive: bool,
}

impl Stream {
    /// With a packet more behind what was told before it, if there were any.
    pub fn next(known: Option<Stream>, arrival: Arrival) -> Stream
        ensures { result ≡ told_next known arrival }
    {
        match known {
            Some(stream) => Stream {
                packets: stream.packets.saturating_add(1),
                first: stream.first,
                latest: arrival,
                consecutive: stream.consecutive || follows(&stream.latest, &arrival),
            },
            None => Stream {
                packets: 1,
                first: arrival,
                latest: arrival,
                consecutive: false,
            },
        }
    }

    /// The packets are a stream: at least three, two of them consecutive, to a port that a script
    /// may name.
    pub fn is_stream(&self) -> bool
        ensures { result ≡ is_stream_of self.now }
    {
        self.packets >= MIN_PACKETS && self.consecutive && self.first.port >= 1
    }
}

// The number of the second packet comes right behind that of the first.
fn follows(a: &Arrival, b: &Arrival) -> bool
    ensures { result ≡ follows_in a.now b.now }
{
    a.seq.wrapping_add(1) == b.seq
}
