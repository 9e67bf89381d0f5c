//! What a log line gives the joining of a lane.
ghost use Rattle.std.specs.Prelude.{◌≡◌, ◌==◌, option_map};
ghost use Rattle.unit_log.specs.Lines.{call_of, call_of_out, given_by as given_in};
ghost use Rattle.unit_log.specs.Standing.{call_seen, given_seen};

use rtp_units::Blob;
use rtp_wire::laws::packets_are_their_bytes;
use rtp_wire::read;
use timeline::BinLine;

/// A packet of the payload type, or anything else that leaves a lane or begins it anew.
#[derive(Clone, Copy)]
pub(crate) enum LaneCall<'a> {
    Packet {
        number: u64,
        rtp: u32,
        pts: u64,
        payload: &'a [u8],
    },
    Gap,
}

/// What a log line gives a lane, and when.
#[derive(Clone, Copy)]
pub(crate) struct Given<'a> {
    pub(crate) time: u64,
    pub(crate) lane: u8,
    pub(crate) call: LaneCall<'a>,
}

/// What this line gives a lane where packets of this payload type are joined.
pub(crate) fn given_by(line: &BinLine, pt: u8) -> Option<Given<'_>>
    ensures { option_map given_seen result ≡ given_in pt line.now }
{
    match line {
        BinLine::Out {
            time,
            lane,
            number,
            pts,
            pt: type_out,
            bytes,
            ..
        } => Some(Given {
            time: *time,
            lane: *lane,
            call: call_out(*type_out == pt, *number, *pts, bytes),
        }),
        BinLine::Lost { time, lane, .. }
        | BinLine::Flush { time, lane, .. }
        | BinLine::Restart { time, lane, .. }
        | BinLine::End { time, lane } => Some(Given {
            time: *time,
            lane: *lane,
            call: LaneCall::Gap,
        }),
        _ => None,
    }
}

// A packet that leaves, of the payload type or of another.
fn call_out(joins: bool, number: u64, pts: u64, bytes: &Blob) -> LaneCall<'_>
    ensures { call_seen result ≡ call_of_out joins number pts bytes.now }
{
    if joins {
        packet_call(number, pts, bytes)
    } else {
        LaneCall::Gap
    }
}

fn packet_call(number: u64, pts: u64, bytes: &Blob) -> LaneCall<'_>
    ensures { call_seen result ≡ call_of number pts bytes.now }
{
    // A law for the proof; the call does nothing.
    packets_are_their_bytes();
    match read(bytes.bytes()) {
        Ok(packet) => LaneCall::Packet {
            number,
            rtp: packet.timestamp(),
            pts,
            payload: packet.payload(),
        },
        Err(_) => LaneCall::Gap,
    }
}
