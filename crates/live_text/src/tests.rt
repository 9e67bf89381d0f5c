//! Entries and their lines.
use crate::entry;
use jitter_core::{Origin, Packet, Verdict};
use live_bin::Entry;
use rtp_units::{Blob, OutOfMemory};
use std::alloc::Global;
use std::test::*;

fn is_line(alloc: Global, index: u64, of: &Entry, line: &[u8]) -> Result<bool, OutOfMemory> {
    Ok(entry(alloc, index, of, true)?.bytes() == line)
}

#[test]
fn a_push(rt: HostRuntime) -> Result<(), Fail> {
    let of = Entry::Push {
        pusher: 1,
        k: 7,
        stamp: 20_000_000,
        seq: 2,
        origin: Origin::Retransmission,
        verdict: Verdict::Restart(3),
        number: 65538,
        aside_dropped: 0,
    };
    let line = b"4 push 1 7 20000000 2 r restart 65538 3 0\n";
    assert!(rt; is_line(rt.alloc(), 4, &of, line)?);
    Ok(())
}

#[test]
fn a_packet_with_its_bytes(rt: HostRuntime) -> Result<(), Fail> {
    let alloc = rt.alloc();
    let of = Entry::Packet {
        number: 65537,
        pts: 0,
        packet: Packet {
            seq: 1,
            rtp: 0,
            pt: 96,
            marker: true,
            payload: 1,
            bytes: Blob::copy_of(alloc, &[128, 10])?,
        },
    };
    assert!(rt; is_line(alloc, 0, &of, b"0 out 65537 0 96 1 1 800a\n")?);
    Ok(())
}

#[test]
fn a_report_without_a_time(rt: HostRuntime) -> Result<(), Fail> {
    let of = Entry::Report {
        pusher: 0,
        k: 2,
        ntp_ns: 9,
        rtp: 5,
        local: None,
    };
    assert!(rt; is_line(rt.alloc(), 12, &of, b"12 report 0 2 9 5 none\n")?);
    Ok(())
}
