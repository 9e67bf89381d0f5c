//! The worked rows, driven through a buffer.

ghost use Rattle.std.specs.Prelude.{◌≡◌, ◌<◌, ◌≤◌, ◌+◌};
ghost use Rattle.jitter_model.specs.Runs.{IsValid};
ghost use Rattle.jitter_core.specs.Words.{settings_of, pushes_of};

use crate::{Buffer, rows};
use jitter_model::{Arrival, Origin, Packet, Pushed, Settings, Turn, Verdict};
use jitter_timers::Steps;
use rtp_units::{Blob, Mode, OutOfMemory, SyncInfo};
use std::alloc::Global;
use std::marker::Brand;
use std::sync::ledger::{Blank, Ledger};
use std::test::*;

const SETTINGS: Settings = Settings {
    rate: 90_000,
    mode: Mode::Slave,
    latency: 100_000_000,
    rtx: false,
    rtx_delay: 20_000_000,
    rtx_retry: 40_000_000,
    rtx_max: 3,
    reorder: 3,
    dropout: 3000,
    misorder: 100,
    faststart: 0,
    pushers: 257,
};

/// A call. Stamps and latencies are in milliseconds, clock times in nanoseconds.
#[derive(Clone, Copy)]
pub enum Call {
    /// An original: its sequence number, stamp, timestamp and payload's length.
    Push(u16, u16, u32, u16),
    /// The same of a retransmission.
    Again(u16, u16, u32, u16),
    Clock(u32),
    Turn,
    FlushStart,
    FlushStop,
    Latency(u16),
    EndAll,
}

/// What a call answers.
#[derive(Clone, Copy, Debug, PartialEq, Eq)]
pub enum Answer {
    /// The verdict, the number, and how many packets that were put aside it dropped.
    Pushed(Verdict, u64, u8),
    /// The number, the presentation time and the payload's length.
    Packet(u64, u64, u16),
    /// The first number, how many, their time and their duration.
    Lost(u64, u32, u64, u64),
    /// The number, and which request it is.
    Request(u64, u8),
    End,
    Idle(Option<u64>),
    Flushing,
    Dropped(u32),
    Nothing,
}

fn told(turn: Turn) -> Answer {
    match turn {
        Turn::Packet {
            number,
            pts,
            packet,
        } => Answer::Packet(number, pts, packet.payload),
        Turn::Lost {
            number,
            count,
            pts,
            duration,
        } => Answer::Lost(number, count, pts, duration),
        Turn::Request { number, k } => Answer::Request(number, k),
        Turn::End => Answer::End,
        Turn::Idle { wake } => Answer::Idle(wake),
        Turn::Flushing => Answer::Flushing,
    }
}

fn packet(alloc: Global, seq: u16, rtp: u32, payload: u16) -> Result<Packet, OutOfMemory> {
    Ok(Packet {
        seq,
        rtp,
        pt: 96,
        marker: false,
        payload,
        bytes: Blob::copy_of(alloc, &[1, 2, 3, 4])?,
    })
}

/// Pushes a packet, in at most 192 steps.
fn push<L: Ledger>(buffer: &mut Buffer, a: Arrival, steps: &mut Steps<L>) -> Pushed
    requires pushers { (settings_of buffer.old).pushers ≡ 257 }
    requires pusher { a.pusher ≡ 0 }
    requires stamp { a.stamp < 1000000000000 }
    requires few { pushes_of buffer.old < 10000 }
    ensures pushers { (settings_of buffer.new).pushers ≡ 257 }
    ensures count { pushes_of buffer.new ≡ pushes_of buffer.old + 1 }
    ensures quick { steps.new ≤ steps.old + 192 }
{
    buffer.push(a, steps)
}

fn arrive<L: Ledger>(
    buffer: &mut Buffer,
    origin: Origin,
    stamp: u64,
    packet: Packet,
    steps: &mut Steps<L>,
) -> Answer
    requires pushers { (settings_of buffer.old).pushers ≡ 257 }
    requires stamp { stamp < 1000000000000 }
    ensures { (settings_of buffer.new).pushers ≡ 257 }
{
    if buffer.pushed() >= 1000 {
        return Answer::Nothing;
    }
    let arrival = Arrival {
        pusher: 0,
        k: 0,
        stamp,
        origin,
        packet,
    };
    let pushed = push(buffer, arrival, steps);
    Answer::Pushed(pushed.verdict, pushed.number, pushed.aside_dropped)
}

fn take<L: Ledger>(
    alloc: Global,
    buffer: &mut Buffer,
    call: Call,
    steps: &mut Steps<L>,
) -> Result<Answer, OutOfMemory>
    requires { (settings_of buffer.old).pushers ≡ 257 }
    ensures { (settings_of buffer.new).pushers ≡ 257 }
{
    match call {
        Call::Push(seq, ms, rtp, payload) => {
            let packet = packet(alloc, seq, rtp, payload)?;
            Ok(arrive(
                buffer,
                Origin::Original,
                u64::from(ms) * 1_000_000,
                packet,
                steps,
            ))
        }
        Call::Again(seq, ms, rtp, payload) => {
            let packet = packet(alloc, seq, rtp, payload)?;
            Ok(arrive(
                buffer,
                Origin::Retransmission,
                u64::from(ms) * 1_000_000,
                packet,
                steps,
            ))
        }
        Call::Clock(ns) => {
            buffer.clock(u64::from(ns));
            Ok(Answer::Nothing)
        }
        Call::Turn => Ok(told(buffer.turn(steps))),
        Call::FlushStart => Ok(Answer::Dropped(buffer.flush_start())),
        Call::FlushStop => {
            buffer.flush_stop();
            Ok(Answer::Nothing)
        }
        Call::Latency(ms) => {
            buffer.set_latency(u64::from(ms) * 1_000_000);
            Ok(Answer::Nothing)
        }
        Call::EndAll => {
            buffer.end(0);
            buffer.end(8);
            Ok(Answer::Nothing)
        }
    }
}

/// The place of the first row that is answered otherwise.
fn first_wrong<L: Ledger>(
    alloc: Global,
    settings: Settings,
    rows: &[(Call, Answer)],
    blank: Blank,
) -> Result<Option<usize>, OutOfMemory>
    requires name { blank.name ≡ L.name }
    requires parts { blank.parts ≡ L.parts }
    requires some { 0 < blank.parts }
    requires settings { IsValid settings }
    requires pushers { settings.pushers ≡ 257 }
{
    let mut steps = Steps::<L>::new(blank);
    let mut buffer = Buffer::new(alloc, &settings)?;
    for (place, row) in rows.iter().enumerate() {
        if take(alloc, &mut buffer, row.0, &mut steps)? != row.1 {
            return Ok(Some(place));
        }
    }
    Ok(None)
}

/// The place of the first row that is answered otherwise.
fn first_other(
    alloc: Global,
    settings: Settings,
    rows: &[(Call, Answer)],
) -> Result<Option<usize>, OutOfMemory>
    requires settings { IsValid settings }
    requires pushers { settings.pushers ≡ 257 }
{
    first_wrong::<Brand>(alloc, settings, rows, Blank::new(1))
}

#[test]
fn packets_in_order(rt: HostRuntime) -> Result<(), Fail> {
    let alloc = rt.alloc();
    assert_eq!(rt; first_other(alloc, SETTINGS, &rows::IN_ORDER)?, None);
    assert_eq!(rt; first_other(alloc, SETTINGS, &rows::WRAP)?, None);
    assert_eq!(rt; first_other(alloc, SETTINGS, &rows::OLDER)?, None);
    assert_eq!(rt; first_other(alloc, SETTINGS, &rows::SKEWED)?, None);
    Ok(())
}

#[test]
fn lost_late_and_twice(rt: HostRuntime) -> Result<(), Fail> {
    let alloc = rt.alloc();
    assert_eq!(rt; first_other(alloc, SETTINGS, &rows::LOST)?, None);
    assert_eq!(rt; first_other(alloc, SETTINGS, &rows::LATE)?, None);
    assert_eq!(rt; first_other(alloc, SETTINGS, &rows::DUPLICATE)?, None);
    assert_eq!(rt; first_other(alloc, SETTINGS, &rows::SENT_AGAIN)?, None);
    Ok(())
}

#[test]
fn far_packets(rt: HostRuntime) -> Result<(), Fail> {
    let alloc = rt.alloc();
    let wide = Settings {
        dropout: 30_000,
        ..SETTINGS
    };
    assert_eq!(rt; first_other(alloc, SETTINGS, &rows::RESTARTED)?, None);
    assert_eq!(rt; first_other(alloc, SETTINGS, &rows::AT_DROPOUT)?, None);
    assert_eq!(rt; first_other(alloc, SETTINGS, &rows::ASIDE_DROPPED)?, None);
    assert_eq!(rt; first_other(alloc, wide, &rows::FULL)?, None);
    assert_eq!(rt; first_other(alloc, SETTINGS, &rows::FLUSHED)?, None);
    Ok(())
}

#[test]
fn requests(rt: HostRuntime) -> Result<(), Fail> {
    let alloc = rt.alloc();
    let asking = Settings {
        rtx: true,
        ..SETTINGS
    };
    let in_order = Settings {
        reorder: 0,
        ..asking
    };
    let once = Settings {
        rtx_max: 1,
        ..asking
    };
    assert_eq!(rt; first_other(alloc, in_order, &rows::REQUESTED)?, None);
    assert_eq!(rt;
        first_other(alloc, asking, &rows::REQUESTED_IN_ORDER)?,
        None
    );
    assert_eq!(rt; first_other(alloc, asking, &rows::REORDERED)?, None);
    assert_eq!(rt; first_other(alloc, once, &rows::LONGER)?, None);
    Ok(())
}

/// Takes turns, and notes the presentation times of two packets.
fn note_times<L: Ledger>(
    buffer: &mut Buffer,
    times: &mut (Option<u64>, Option<u64>),
    steps: &mut Steps<L>,
)
    requires { (settings_of buffer.old).pushers ≡ 257 }
    ensures { (settings_of buffer.new).pushers ≡ 257 }
{
    for _ in 0..128 {
        match told(buffer.turn(steps)) {
            Answer::Packet(66_049, pts, _) => times.0 = Some(pts),
            Answer::Packet(66_050, pts, _) => times.1 = Some(pts),
            _ => {}
        }
    }
}

/// The presentation times of the two packets after a full window of differences: a packet each millisecond, of which
/// all but the first come 125 microseconds later.
fn after_the_window<L: Ledger>(
    alloc: Global,
    blank: Blank,
) -> Result<(Option<u64>, Option<u64>), OutOfMemory>
    requires name { blank.name ≡ L.name }
    requires parts { blank.parts ≡ L.parts }
    requires some { 0 < blank.parts }
{
    let mut steps = Steps::<L>::new(blank);
    let mut buffer = Buffer::new(alloc, &SETTINGS)?;
    let mut times = (None, None);
    for i in 0..600u16 {
        let stamp = u64::from(i) * 1_000_000 + if i == 0 { 0 } else { 125_000 };
        let packet = packet(alloc, i + 1, u32::from(i) * 90, 4)?;
        arrive(&mut buffer, Origin::Original, stamp, packet, &mut steps);
        note_times(&mut buffer, &mut times, &mut steps);
    }
    Ok(times)
}

#[test]
fn the_window_forgets_its_first_difference(rt: HostRuntime) -> Result<(), Fail> {
    let times = after_the_window::<Brand>(rt.alloc(), Blank::new(1))?;
    assert_eq!(rt; times, (Some(512_001_000), Some(513_001_992)));
    Ok(())
}

/// What a buffer answers, and what it shows.
#[derive(Debug, PartialEq, Eq, Drop)]
struct Shown {
    turns: [Answer; 4],
    /// Whether the packet that was given out and the one after it are held, after the first was given out.
    held: (bool, bool),
    /// The first timer after an idle turn.
    timer: Option<(u64, u64)>,
    report: Option<SyncInfo>,
    /// Whether all pushers ended, before and after they did.
    ended: (bool, bool),
}

/// The output begins with two consecutive packets, long before the latency has passed.
fn fast_start<L: Ledger>(alloc: Global, blank: Blank) -> Result<Shown, OutOfMemory>
    requires name { blank.name ≡ L.name }
    requires parts { blank.parts ≡ L.parts }
    requires some { 0 < blank.parts }
{
    let settings = Settings {
        rtx: true,
        reorder: 0,
        faststart: 2,
        ..SETTINGS
    };
    let mut steps = Steps::<L>::new(blank);
    let mut buffer = Buffer::new(alloc, &settings)?;
    take(alloc, &mut buffer, Call::Push(1, 0, 0, 4), &mut steps)?;
    let waits = take(alloc, &mut buffer, Call::Turn, &mut steps)?;
    take(alloc, &mut buffer, Call::Push(2, 20, 1_800, 4), &mut steps)?;
    let first = take(alloc, &mut buffer, Call::Turn, &mut steps)?;
    let held = (buffer.store().has(65_537), buffer.store().has(65_538));
    let second = take(alloc, &mut buffer, Call::Turn, &mut steps)?;
    let rests = take(alloc, &mut buffer, Call::Turn, &mut steps)?;
    let timer = buffer.timers().first();
    let report = buffer.sender_report(5, 2_700);
    let before = buffer.all_ended();
    take(alloc, &mut buffer, Call::EndAll, &mut steps)?;
    Ok(Shown {
        turns: [waits, first, second, rests],
        held,
        timer,
        report,
        ended: (before, buffer.all_ended()),
    })
}

#[test]
fn a_fast_start(rt: HostRuntime) -> Result<(), Fail> {
    let shown = fast_start::<Brand>(rt.alloc(), Blank::new(1))?;
    let wanted = Shown {
        turns: [
            Answer::Idle(Some(100_000_000)),
            Answer::Packet(65_537, 0, 4),
            Answer::Packet(65_538, 20_000_000, 4),
            Answer::Idle(Some(60_000_000)),
        ],
        held: (false, true),
        timer: Some((60_000_000, 65_539)),
        report: Some(SyncInfo {
            ntp_ns: 5,
            local: 30_000_000,
        }),
        ended: (false, true),
    };
    assert_eq!(rt; shown, wanted);
    Ok(())
}
