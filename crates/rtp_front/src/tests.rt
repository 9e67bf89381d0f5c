//! Records through a front: what their steps tell.
use crate::Front;
use front_model::Step;
use pcap_file::PcapRecord;
use rtp_units::Blob;
use script_lang::read;
use std::alloc::Global;
use std::process::Abort;
use std::test::Fail;
use timeline::{BinLine, Word};

/// A link type whose frames begin with the IPv4 header.
const IPV4: u16 = 228;

/// A datagram from port 40000 of a host.
#[derive(Clone, Copy)]
struct Sent<'a> {
    time: u64,
    host: u8,
    port: [u8; 2],
    payload: &'a [u8],
}

/// The steps of a front of this script, of these datagrams and of a report time.
fn run(
    rt: &impl Abort,
    alloc: Global,
    script: &[u8],
    datagrams: &[Sent<'_>],
) -> Result<Vec<Step>, Fail> {
    let script = read(alloc, script)?;
    let mut front = Front::new(alloc, &script)?;
    let mut steps = Vec::new(alloc);
    for sent in datagrams {
        take(rt, alloc, &mut front, sent, &mut steps)?;
    }
    front.report(alloc, 50, &mut steps)?;
    Ok(steps)
}

fn take(
    rt: &impl Abort,
    alloc: Global,
    front: &mut Front,
    sent: &Sent<'_>,
    steps: &mut Vec<Step>,
) -> Result<(), Fail> {
    assert!(rt; front.taken() < 1000);
    let captured = record(rt, alloc, sent.host, sent.port, sent.payload)?;
    front.take(alloc, sent.time, IPV4, &captured, steps)?;
    Ok(())
}

/// The record of a datagram of a host to this port.
fn record(
    rt: &impl Abort,
    alloc: Global,
    from: u8,
    port: [u8; 2],
    payload: &[u8],
) -> Result<PcapRecord, Fail> {
    assert!(rt; payload.len() < 200);
    let size = payload.len() as u8;
    let [p0, p1] = port;
    let header = [
        0x45,
        0,
        0,
        28 + size,
        0,
        0,
        0,
        0,
        64,
        17,
        0,
        0,
        10,
        0,
        0,
        from,
        10,
        0,
        0,
        9,
        0x9c,
        0x40,
        p0,
        p1,
        0,
        8 + size,
        0,
        0,
    ];
    let mut frame = Vec::from_slice(alloc, &header)?;
    frame.extend_from_slice(payload)?;
    Ok(PcapRecord {
        offset: 0,
        stamp: 0,
        original: 28 + u32::from(size),
        bytes: Blob::copy_of(alloc, frame.as_slice())?,
    })
}

/// A letter for each step.
fn outline(alloc: Global, steps: &[Step]) -> Result<String, Fail> {
    let mut text = String::new(alloc);
    for step in steps {
        text.push(letter(step))?;
    }
    Ok(text)
}

fn letter(step: &Step) -> char {
    match step {
        Step::Tell(BinLine::Skip { .. }) => 'k',
        Step::Tell(BinLine::RtcpBad { .. }) => 'b',
        Step::Tell(BinLine::Hold { .. }) => 'h',
        Step::Tell(BinLine::Drop { cause, .. }) => dropped(*cause),
        Step::Tell(BinLine::Pt { .. }) => 'p',
        Step::Tell(BinLine::Lane { .. }) => 'l',
        Step::Tell(BinLine::Cname { .. }) => 'c',
        Step::Tell(BinLine::Sr { .. }) => 's',
        Step::Tell(BinLine::Report { .. }) => 'r',
        Step::Tell(_) => '?',
        Step::Open(_) => 'O',
        Step::Push { .. } => 'P',
        Step::Sync { .. } => 'S',
    }
}

fn dropped(cause: Word) -> char {
    match cause {
        Word::Own => 'o',
        Word::Collision => 'x',
        _ => 'd',
    }
}

/// The lane, the pusher's count, the time and the number of a pushed packet.
fn pushed(step: Option<&Step>) -> Option<(u8, u64, u64, u16)> {
    match step {
        Some(Step::Push { lane, arrival }) => {
            Some((*lane, arrival.k, arrival.stamp, arrival.packet.seq))
        }
        _ => None,
    }
}

/// The port of RTP and that of RTCP.
const RTP: [u8; 2] = [0x13, 0x8c];

const RTCP: [u8; 2] = [0x13, 0x8d];

/// A packet of this type, number and SSRC.
fn packet(pt: u8, seq: u8, ssrc: u8) -> [u8; 15] {
    [0x80, pt, 0, seq, 0, 0, 0, 0, 0, 0, 0, ssrc, 0, 3, 9]
}

fn datagram(time: u64, host: u8, port: [u8; 2], payload: &[u8]) -> Sent<'_> {
    Sent {
        time,
        host,
        port,
        payload,
    }
}

#[test]
fn a_run_waits_for_its_source(rt: HostRuntime) -> Result<(), Fail> {
    let alloc = rt.alloc();
    // Then another host comes with the same SSRC, and the SSRC that the program has.
    let steps = run(
        &rt,
        alloc,
        b"session 0 5004 5005\npt 0 96 90000\n",
        &[
            datagram(10, 1, RTP, &packet(96, 7, 5)),
            datagram(20, 1, RTP, &packet(96, 8, 5)),
            datagram(30, 2, RTP, &packet(96, 9, 5)),
            datagram(40, 1, RTP, &packet(96, 9, 1)),
        ],
    )?;
    assert!(rt; outline(alloc, steps.as_slice())?.as_str() == "hplOPPxor");
    assert!(rt; pushed(steps.get(4)) == Some((0, 0, 10, 7)));
    assert!(rt; pushed(steps.get(5)) == Some((0, 1, 20, 8)));
    Ok(())
}

#[test]
fn rtcp_comes_to_a_shared_port(rt: HostRuntime) -> Result<(), Fail> {
    let alloc = rt.alloc();
    let compound = [
        0x80, 200, 0, 6, 0, 0, 0, 5, 0, 0, 0, 1, 0, 0, 0, 0, 0, 0, 0, 0, 0, 0, 0, 1, 0, 0, 0, 4,
        0x81, 202, 0, 3, 0, 0, 0, 5, 1, 3, 0x61, 0x40, 0x62, 0, 0, 0,
    ];
    let steps = run(
        &rt,
        alloc,
        b"session 0 5004 5004\npt 0 96 90000\nset probation 0\n",
        &[
            datagram(10, 1, RTP, &packet(96, 7, 5)),
            datagram(20, 1, RTP, &compound),
            datagram(30, 1, RTP, &[0x80, 200, 0, 9]),
            datagram(40, 1, RTCP, &compound),
        ],
    )?;
    assert!(rt; outline(alloc, steps.as_slice())?.as_str() == "plOPcsSbkr");
    Ok(())
}

#[test]
fn a_retransmission_goes_to_its_lane(rt: HostRuntime) -> Result<(), Fail> {
    let alloc = rt.alloc();
    let steps = run(
        &rt,
        alloc,
        b"session 0 5004 5005\npt 0 96 90000\nrtx 0 97 0 96\nfid 0 00000005 00000006\n",
        &[
            datagram(10, 1, RTP, &packet(97, 0, 6)),
            datagram(20, 1, RTP, &packet(96, 4, 5)),
            datagram(30, 1, RTP, &packet(97, 1, 6)),
        ],
    )?;
    assert!(rt; outline(alloc, steps.as_slice())?.as_str() == "dplOPPr");
    assert!(rt; pushed(steps.get(5)) == Some((0, 1, 30, 3)));
    Ok(())
}
