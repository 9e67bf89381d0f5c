//! Retransmissions that were worked out by hand, both ways.
ghost use Rattle.std.specs.Prelude.{IfOk};
ghost use Rattle.rtx.specs.Pairs.{AreTypes};

use super::*;
use rtp_units::{Fid, RtxLine};
use rtp_wire::read;
use std::alloc::{AllocError, Global};
use std::test::Fail;

const LINE: RtxLine = RtxLine {
    session: 0,
    pt: 97,
    osession: 0,
    apt: 96,
};

const FID: Fid = Fid {
    session: 0,
    ssrc: 0x1122_3344,
    rtx_ssrc: 0x5566_7788,
};

/// The map of one line, by which type 97 of a session repeats type 96 of session 0.
fn map_of(alloc: Global, session: u8, fids: &[Fid]) -> Result<Map, AllocError>
    ensures { IfOk result (λ map. AreTypes map.lines.items) }
{
    let line = RtxLine { session, ..LINE };
    Ok(Map {
        lines: Vec::from_slice(alloc, &[line])?,
        fids: Vec::from_slice(alloc, fids)?,
    })
}

fn receiver_of(alloc: Global, fids: &[Fid], by_request: bool) -> Result<Receiver, Fail> {
    let map = map_of(alloc, 0, fids)?;
    Ok(Receiver::new(alloc, &map, by_request)?)
}

fn history_of(alloc: Global, session: u8, fids: &[Fid], per_stream: u16) -> Result<History, Fail> {
    let map = map_of(alloc, session, fids)?;
    Ok(History::new(alloc, per_stream, &map)?)
}

/// Type 97, number 0, timestamp 3600, SSRC 55667788, payload 00 03 aa bb.
fn retransmission() -> [u8; 16] {
    [
        0x80, 0x61, 0, 0, 0, 0, 0x0e, 0x10, 0x55, 0x66, 0x77, 0x88, 0, 3, 0xaa, 0xbb,
    ]
}

/// What it carries of stream 11223344: type 96, number 3, payload aa bb.
fn original() -> [u8; 14] {
    [
        0x80, 0x60, 0, 3, 0, 0, 0x0e, 0x10, 0x11, 0x22, 0x33, 0x44, 0xaa, 0xbb,
    ]
}

/// The same with two bytes of padding in place of the payload behind the number.
fn padded_number() -> [u8; 16] {
    [
        0xa0, 0x61, 0, 0, 0, 0, 0x0e, 0x10, 0x55, 0x66, 0x77, 0x88, 0, 3, 0, 2,
    ]
}

/// The retransmission in another session, under the SSRC of the original.
fn other_retransmission() -> [u8; 16] {
    [
        0x80, 0x61, 0, 0, 0, 0, 0x0e, 0x10, 0x11, 0x22, 0x33, 0x44, 0, 3, 0xaa, 0xbb,
    ]
}

fn restored(
    receiver: &mut Receiver,
    alloc: Global,
    session: u8,
    bytes: &[u8],
) -> Result<Restored, RtxFault> {
    match read(bytes) {
        Ok(view) => receiver.restore(alloc, session, &view),
        Err(_) => Err(RtxFault::Short),
    }
}

#[test]
fn ambiguous_requests(rt: HostRuntime) -> Result<(), Fail> {
    let alloc = rt.alloc();
    let mut receiver = receiver_of(alloc, &[], true)?;
    receiver.note_request(0, 0x1122_3344, 3);
    receiver.note_request(0, 0x2233_4455, 3);
    receiver.note_request(0, 0x1122_3344, 3);
    let answer = restored(&mut receiver, alloc, 0, &retransmission());
    assert_eq!(rt;
        answer.err(),
        Some(RtxFault::Ambiguous {
            first: 0x1122_3344,
            second: 0x2233_4455
        })
    );
    // After 1,022 more requests the first one is gone, and its stream has a later one.
    for _ in 0..1022 {
        receiver.note_request(1, 0, 0);
    }
    let answer = restored(&mut receiver, alloc, 0, &retransmission());
    assert_eq!(rt;
        answer.err(),
        Some(RtxFault::Ambiguous {
            first: 0x2233_4455,
            second: 0x1122_3344
        })
    );
    // And after one more the second stream has none.
    receiver.note_request(1, 0, 0);
    let packet = restored(&mut receiver, alloc, 0, &retransmission())?;
    assert_eq!(rt; packet.ssrc, 0x1122_3344);
    Ok(())
}

#[test]
fn sixty_four_associations(rt: HostRuntime) -> Result<(), Fail> {
    let alloc = rt.alloc();
    let mut receiver = receiver_of(alloc, &[], true)?;
    receiver.note_request(0, 0x1122_3344, 3);
    let mut packet = retransmission();
    for rtx_ssrc in 0..65u8 {
        packet[11] = rtx_ssrc;
        assert!(rt; restored(&mut receiver, alloc, 0, &packet).is_ok());
    }
    packet[13] = 9;
    packet[11] = 63;
    assert!(rt; restored(&mut receiver, alloc, 0, &packet).is_ok());
    packet[11] = 64;
    let answer = restored(&mut receiver, alloc, 0, &packet);
    assert_eq!(rt; answer.err(), Some(RtxFault::UnknownSsrc));
    Ok(())
}

fn remembered(history: &mut History, alloc: Global, bytes: &[u8]) -> Result<bool, Fail> {
    let view = read(bytes)?;
    Ok(history.remember(alloc, 0, &view)?)
}

/// A history with one packet of a stream that is paired with a retransmission stream.
fn history_of_one(alloc: Global) -> Result<History, Fail> {
    let mut history = history_of(alloc, 0, &[FID], 256)?;
    remembered(&mut history, alloc, &original())?;
    Ok(history)
}

/// A packet with a marker, two CSRCs, an extension of one word, number 65535, a payload of three bytes and
/// two bytes of padding.
fn padded() -> [u8; 33] {
    [
        0xb2, 0xe0, 0xff, 0xff, 0xff, 0xff, 0xff, 0xf0, 0x11, 0x22, 0x33, 0x44, 0x01, 0x02, 0x03,
        0x04, 0xa0, 0xb0, 0xc0, 0xd0, 0xbe, 0xde, 0x00, 0x01, 0x01, 0x02, 0x03, 0x04, 0x09, 0x08,
        0x07, 0x00, 0x02,
    ]
}

/// The same without padding.
fn unpadded() -> [u8; 31] {
    [
        0x92, 0xe0, 0xff, 0xff, 0xff, 0xff, 0xff, 0xf0, 0x11, 0x22, 0x33, 0x44, 0x01, 0x02, 0x03,
        0x04, 0xa0, 0xb0, 0xc0, 0xd0, 0xbe, 0xde, 0x00, 0x01, 0x01, 0x02, 0x03, 0x04, 0x09, 0x08,
        0x07,
    ]
}

/// Its retransmission.
fn repeated() -> [u8; 33] {
    [
        0x92, 0xe1, 0x00, 0x00, 0xff, 0xff, 0xff, 0xf0, 0x55, 0x66, 0x77, 0x88, 0x01, 0x02, 0x03,
        0x04, 0xa0, 0xb0, 0xc0, 0xd0, 0xbe, 0xde, 0x00, 0x01, 0x01, 0x02, 0x03, 0x04, 0xff, 0xff,
        0x09, 0x08, 0x07,
    ]
}

#[test]
fn sixty_four_streams(rt: HostRuntime) -> Result<(), Fail> {
    let alloc = rt.alloc();
    let mut history = history_of(alloc, 0, &[FID], 2)?;
    let mut packet = original();
    for ssrc in 0..64u8 {
        packet[11] = ssrc;
        assert!(rt; remembered(&mut history, alloc, &packet)?);
    }
    packet[11] = 64;
    assert!(rt; !remembered(&mut history, alloc, &packet)?);
    packet[11] = 63;
    assert!(rt; remembered(&mut history, alloc, &packet)?);
    Ok(())
}

/// Whether a packet is restored to these bytes.
fn restores(
    receiver: &mut Receiver,
    alloc: Global,
    packet: &[u8],
    wanted: &[u8],
) -> Result<bool, Fail> {
    let answer = restored(receiver, alloc, 0, packet)?;
    Ok(answer.bytes.bytes() == wanted)
}

/// Whether a request for a number is answered by these bytes.
fn answers(history: &mut History, alloc: Global, seq: u16, wanted: &[u8]) -> Result<bool, Fail> {
    match history.answer(alloc, 0, 0x1122_3344, seq)? {
        Some(answer) => Ok(answer.bytes.bytes() == wanted),
        None => Ok(false),
    }
}

#[test]
fn restored_by_a_pair(rt: HostRuntime) -> Result<(), Fail> {
    let alloc = rt.alloc();
    let mut receiver = receiver_of(alloc, &[FID], false)?;
    assert!(rt; restores(&mut receiver, alloc, &retransmission(), &original())?);
    // Padding goes, and a number alone is an empty packet.
    assert!(rt; restores(&mut receiver, alloc, &padded_number(), &original()[..12])?);
    Ok(())
}

#[test]
fn answered_by_a_pair(rt: HostRuntime) -> Result<(), Fail> {
    let alloc = rt.alloc();
    let mut history = history_of_one(alloc)?;
    assert!(rt; answers(&mut history, alloc, 3, &retransmission())?);
    let mut second = retransmission();
    second[3] = 1;
    assert!(rt; answers(&mut history, alloc, 3, &second)?);
    assert!(rt; !answers(&mut history, alloc, 4, &second)?);
    Ok(())
}

// Of two packets with one number the latest is sent again.
#[test]
fn the_latest_is_answered(rt: HostRuntime) -> Result<(), Fail> {
    let alloc = rt.alloc();
    let mut history = history_of_one(alloc)?;
    let mut later = original();
    later[13] = 0xcc;
    assert!(rt; remembered(&mut history, alloc, &later)?);
    let mut wanted = retransmission();
    wanted[15] = 0xcc;
    assert!(rt; answers(&mut history, alloc, 3, &wanted)?);
    Ok(())
}

#[test]
fn fields_both_ways(rt: HostRuntime) -> Result<(), Fail> {
    let alloc = rt.alloc();
    let mut history = history_of(alloc, 0, &[FID], 256)?;
    assert!(rt; remembered(&mut history, alloc, &padded())?);
    assert!(rt; answers(&mut history, alloc, 65535, &repeated())?);
    let mut receiver = receiver_of(alloc, &[FID], false)?;
    assert!(rt; restores(&mut receiver, alloc, &repeated(), &unpadded())?);
    Ok(())
}

#[test]
fn answered_in_another_session(rt: HostRuntime) -> Result<(), Fail> {
    let alloc = rt.alloc();
    let mut history = history_of(alloc, 1, &[], 1)?;
    assert!(rt; remembered(&mut history, alloc, &original())?);
    assert!(rt; answers(&mut history, alloc, 3, &other_retransmission())?);
    Ok(())
}
