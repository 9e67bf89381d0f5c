//! A worked series of turns, driven through a lane, and the calls of a list of lanes.
ghost use Rattle.std.specs.Prelude.{◌≡◌, ◌<◌};
ghost use Rattle.jitter_core.specs.Words.{settings_of};

use crate::{Lane, control, done_line, open};
use front_model::{Opening, SenderReport};
use jitter_model::{Arrival, Origin, Packet, Settings};
use rtp_units::{Blob, Mode, OutOfMemory};
use script_lang::{Action, Item};
use std::alloc::Global;
use std::test::*;
use timeline::{BinLine, Lines};

const OPENING: Opening = Opening {
    lane: 0,
    session: 0,
    ssrc: 7,
    settings: Settings {
        rate: 90_000,
        mode: Mode::Slave,
        latency: 100_000_000,
        rtx: true,
        rtx_delay: 20_000_000,
        rtx_retry: 40_000_000,
        rtx_max: 3,
        reorder: 3,
        dropout: 3000,
        misorder: 100,
        faststart: 0,
        pushers: 257,
    },
};

#[derive(Clone, Copy, Debug, PartialEq, Eq)]
enum Shown {
    Out(u64, u64),
    Request(u64, u8),
    Sync(u64),
    Flush(u32),
    Flushed,
    End,
    Done(u64, u64, u64, u64, u64),
    Other,
}

fn told(line: &BinLine) -> Shown {
    match line {
        BinLine::Out { number, pts, .. } => Shown::Out(*number, *pts),
        BinLine::Request { number, k, .. } => Shown::Request(*number, *k),
        BinLine::Sync { local, .. } => Shown::Sync(*local),
        BinLine::Flush { count, .. } => Shown::Flush(*count),
        BinLine::Flushed { .. } => Shown::Flushed,
        BinLine::End { .. } => Shown::End,
        BinLine::Done {
            records,
            lanes,
            out,
            lost,
            refused,
        } => Shown::Done(*records, *lanes, *out, *lost, *refused),
        _ => Shown::Other,
    }
}

/// Whether these lines show this.
fn show(lines: &Lines, want: &[Shown]) -> bool {
    let lines = lines.lines();
    if lines.len() != want.len() {
        return false;
    }
    for i in 0..want.len() {
        if told(&lines[i]) != want[i] {
            return false;
        }
    }
    true
}

/// A call. Times are in nanoseconds.
#[derive(Clone, Copy)]
enum Call {
    /// An original: its sequence number, stamp and timestamp.
    Push(u16, u32, u32),
    /// The same of a retransmission.
    Again(u16, u32, u32),
    /// A sender report with this timestamp.
    Report(u32),
    Tick(u32),
    End(u8),
}

/// A packet comes, unless many came.
fn arrive(
    lane: &mut Lane,
    origin: Origin,
    stamp: u64,
    packet: Packet,
    lines: &mut Lines,
) -> Result<(), OutOfMemory>
    requires pushers { (settings_of lane.old.buffer).pushers ≡ 257 }
    requires stamp { stamp < 1000000000000 }
    ensures { (settings_of lane.new.buffer).pushers ≡ 257 }
{
    if lane.buffer.pushed() >= 1000 {
        return Ok(());
    }
    let arrival = Arrival {
        pusher: 0,
        k: 0,
        stamp,
        origin,
        packet,
    };
    lane.push(stamp, arrival, lines)
}

fn packet(alloc: Global, seq: u16, rtp: u32) -> Result<Packet, OutOfMemory> {
    Ok(Packet {
        seq,
        rtp,
        pt: 96,
        marker: false,
        payload: 4,
        bytes: Blob::copy_of(alloc, &[1, 2, 3, 4])?,
    })
}

/// Makes a call, and answers the first number that is asked for.
fn take(
    alloc: Global,
    lane: &mut Lane,
    call: Call,
    lines: &mut Lines,
) -> Result<Option<u16>, OutOfMemory>
    requires { (settings_of lane.old.buffer).pushers ≡ 257 }
    ensures { (settings_of lane.new.buffer).pushers ≡ 257 }
{
    match call {
        Call::Push(seq, stamp, rtp) => {
            let packet = packet(alloc, seq, rtp)?;
            arrive(lane, Origin::Original, u64::from(stamp), packet, lines)?;
            Ok(None)
        }
        Call::Again(seq, stamp, rtp) => {
            let packet = packet(alloc, seq, rtp)?;
            arrive(
                lane,
                Origin::Retransmission,
                u64::from(stamp),
                packet,
                lines,
            )?;
            Ok(None)
        }
        Call::Report(rtp) => {
            let report = SenderReport {
                pusher: 0,
                k: 0,
                ntp_ns: 1,
                rtp,
            };
            lane.sync(0, &report, lines)?;
            Ok(None)
        }
        Call::Tick(time) => Ok(lane.tick(alloc, u64::from(time), lines)?.first().copied()),
        Call::End(pusher) => {
            if pusher < 9 && lane.has_pusher(pusher) {
                return Ok(lane.end(alloc, pusher, 0, lines)?.first().copied());
            }
            Ok(None)
        }
    }
}

/// Makes these calls, and tells whether each answers this and the lines show this.
fn answers(
    alloc: Global,
    calls: &[(Call, Option<u16>)],
    want: &[Shown],
) -> Result<bool, OutOfMemory> {
    let mut lines = Lines::new(alloc);
    let mut lane = Lane::new(alloc, &OPENING)?;
    for call in calls {
        if take(alloc, &mut lane, call.0, &mut lines)? != call.1 {
            return Ok(false);
        }
    }
    Ok(show(&lines, want))
}

#[test]
fn a_lane_of_a_list(rt: HostRuntime) -> Result<(), Fail> {
    let alloc = rt.alloc();
    let mut lines = Lines::new(alloc);
    let mut lanes = Vec::new(alloc);
    open(&mut lanes, alloc, 1, &OPENING, 5_000_000, true, &mut lines)?;
    let item = Item {
        time: 2,
        action: Action::FlushStop(0),
    };
    control(&mut lanes, &item, &mut lines)?;
    assert_eq!(rt; lanes[0].wake, None);
    lines.push(done_line(&lanes, 5))?;
    let want = [Shown::Flush(0), Shown::Flushed, Shown::Done(5, 1, 0, 0, 0)];
    assert!(rt; show(&lines, &want));
    Ok(())
}

const CALLS: [(Call, Option<u16>); 12] = [
    (Call::Push(1, 0, 0), None),
    (Call::Tick(0), None),
    (Call::Push(2, 20_000_000, 1_800), None),
    (Call::Tick(20_000_000), None),
    (Call::Report(1_800), None),
    (Call::Tick(60_000_000), Some(3)),
    (Call::Push(4, 60_000_000, 5_400), None),
    (Call::Tick(60_000_000), None),
    (Call::Again(3, 70_000_000, 3_600), None),
    (Call::Tick(100_000_000), Some(5)),
    (Call::End(0), None),
    (Call::End(8), None),
];

const WANT: [Shown; 8] = [
    Shown::Sync(20_000_000),
    Shown::Request(65_539, 0),
    Shown::Request(65_541, 0),
    Shown::Out(65_537, 0),
    Shown::Out(65_538, 20_000_000),
    Shown::Out(65_539, 40_000_000),
    Shown::Out(65_540, 60_000_000),
    Shown::End,
];

#[test]
fn a_lane_asks_and_gives(rt: HostRuntime) -> Result<(), Fail> {
    assert!(rt; answers(rt.alloc(), &CALLS, &WANT)?);
    Ok(())
}
