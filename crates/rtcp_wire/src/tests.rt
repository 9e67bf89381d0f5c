//! Worked datagrams: what they read as, their faults, and a NACK that is written.
ghost use Rattle.std.specs.Prelude.{◌≤◌, length};

use super::*;
use rtp_units::{Blob, OutOfMemory};
use std::alloc::Global;
use std::test::Fail;

/// A receiver report with one block, and a description with one name.
const REPORT: [u8; 52] = [
    0x81, 0xc9, 0, 7, 0, 0, 0, 1, 0x11, 0x22, 0x33, 0x44, 0x40, 0, 0, 1, 0, 0, 0, 4, 0, 0, 0, 0, 0,
    0, 0, 0, 0, 0, 0, 0, 0x81, 0xca, 0, 4, 0, 0, 0, 1, 1, 6, 0x72, 0x74, 0x70, 0x62, 0x69, 0x6e, 0,
    0, 0, 0,
];

#[test]
fn a_report(rt: HostRuntime) -> Result<(), Fail> {
    let packets = read_compound(rt.alloc(), &REPORT)?;
    match packets.as_slice() {
        [Rtcp::Rr { ssrc, blocks, .. }, Rtcp::Sdes { chunks }] => {
            assert_eq!(rt; *ssrc, 1);
            let block = ReportBlock {
                ssrc: 0x11223344,
                fraction: 64,
                lost: 1,
                greatest: 4,
                ..ReportBlock::default()
            };
            assert_eq!(rt; blocks.as_slice(), [block].as_slice());
            for chunk in chunks.as_slice() {
                for item in chunk.items.as_slice() {
                    assert_eq!(rt; item.kind, 1);
                    assert_eq!(rt; item.text.bytes(), b"rtpbin".as_slice());
                }
            }
        }
        _ => panic!(rt; "other packets"),
    }
    Ok(())
}

#[test]
fn first_faults(rt: HostRuntime) {
    let body = |offset, kind| RtcpFault::Body { offset, kind };
    let rows: [(&[u8], RtcpFault); 8] = [
        (&[], RtcpFault::Short(0)),
        (&[0x40, 0xc9, 0, 1, 0, 0, 0, 1], RtcpFault::Version(0)),
        (&[0xa0, 0xc9, 0, 1, 0, 0, 0, 0], RtcpFault::Padding(0)),
        (&[0x80, 0xcf, 0, 0], RtcpFault::First(0)),
        (&[0x80, 0xc8, 0, 1, 0, 0, 0, 2], body(0, 200)),
        (
            &[
                0x80, 0xc9, 0, 1, 0, 0, 0, 2, 0x81, 0xca, 0, 1, 17, 34, 51, 68,
            ],
            body(8, 202),
        ),
        (
            &[
                0x80, 0xc9, 0, 1, 0, 0, 0, 2, 0x81, 0xca, 0, 0xff, 0, 0, 0, 2,
            ],
            RtcpFault::Length(8),
        ),
        (
            &[0x80, 0xc8, 0, 1, 0, 0, 0, 2, 0x40, 0xca, 0, 0],
            RtcpFault::Version(8),
        ),
    ];
    for (bytes, fault) in rows {
        assert_eq!(rt; read_compound(rt.alloc(), bytes).err(), Some(fault));
    }
}

/// A datagram that asks for these numbers.
fn nack_datagram(alloc: Global, numbers: &[u16]) -> Result<Blob, OutOfMemory>
    requires { length numbers.now ≤ 8192 }
{
    let list = Items::from_vec(nacks(alloc, numbers)?);
    let packet = Rtcp::Nacks {
        sender: 1,
        media: 0x11223344,
        list,
    };
    write_compound(alloc, &[packet])
}

#[test]
fn missing_numbers(rt: HostRuntime) -> Result<(), Fail> {
    let entries = nacks(rt.alloc(), &[65535, 0, 16])?;
    assert_eq!(rt;
        entries.as_slice(),
        [Nack { pid: 65535, blp: 1 }, Nack { pid: 16, blp: 0 }].as_slice()
    );
    let bytes = nack_datagram(rt.alloc(), &[3, 4, 6])?;
    let wanted = [
        0x81, 0xcd, 0, 3, 0, 0, 0, 1, 0x11, 0x22, 0x33, 0x44, 0, 3, 0, 5,
    ];
    assert_eq!(rt; bytes.bytes(), wanted.as_slice());
    Ok(())
}
