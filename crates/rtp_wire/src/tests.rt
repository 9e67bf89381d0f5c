//! Packets of GStreamer, cut to a short payload, and the tests of a padding count.
ghost use Rattle.rtp_wire.specs.Written.{IsWritable};

use super::*;
use rtp_units::{Blob, OutOfMemory};
use std::alloc::Global;
use std::test::Fail;

/// A marked packet with one CSRC.
const WITH_CSRC: [u8; 18] = [
    0x81, 0x80, 0x7e, 0x5f, 0xdb, 0xfa, 0x33, 0x6f, 0x0d, 0x9d, 0xdd, 0xe8, 0x23, 0x82, 0xca, 0x87,
    0xff, 0x9e,
];

/// A packet with an extension of three words.
const WITH_EXTENSION: [u8; 30] = [
    0x90, 0x00, 0x32, 0xeb, 0x26, 0x6a, 0xc3, 0xac, 0x9c, 0x43, 0x6b, 0xe3, 0xbe, 0xde, 0x00, 0x03,
    0x17, 0xee, 0xb8, 0x6e, 0x16, 0x4c, 0x81, 0x54, 0x60, 0x00, 0x00, 0x00, 0xff, 0xff,
];

#[test]
fn fields_of_packets(rt: HostRuntime) -> Result<(), Fail> {
    let view = read(&WITH_CSRC)?;
    assert!(rt; view.marker());
    assert_eq!(rt; view.pt(), 0);
    assert_eq!(rt; view.seq(), 32351);
    assert_eq!(rt; view.timestamp(), 3690607471);
    assert_eq!(rt; view.ssrc(), 0x0d9ddde8);
    assert_eq!(rt; view.csrcs().as_slice(), [0x2382ca87].as_slice());
    assert!(rt; view.extension().is_none());
    assert_eq!(rt; view.payload(), [0xff, 0x9e].as_slice());
    assert_eq!(rt; view.padding(), 0);

    let (profile, words) = read(&WITH_EXTENSION)?.extension().ok_or("no extension")?;
    assert_eq!(rt; profile, 0xbede);
    assert_eq!(rt; words.len(), 12);
    Ok(())
}

#[test]
fn padding_counts(rt: HostRuntime) {
    let packet = |count: u8| [0xa0, 0x60, 0, 1, 0, 0, 0, 0, 17, 34, 51, 68, 1, 2, 3, count];
    for (count, wanted) in [(0, None), (1, Some(3)), (4, Some(0)), (5, None)] {
        let bytes = packet(count);
        let length = read(&bytes).ok().map(|view| view.payload().len());
        assert_eq!(rt; length, wanted, "at {count}");
    }
}

/// The bytes of the fields, and that reading them gives the same number and SSRC, by the contracts of the two
/// calls alone.
fn written(alloc: Global, fields: &RtpFields<'_>) -> Result<Blob, OutOfMemory>
    requires { IsWritable fields.now }
{
    let blob = write(alloc, fields)?;
    match read(blob.bytes()) {
        Ok(view) => {
            let same = view.seq() == fields.seq && view.ssrc() == fields.ssrc;
            prove!(same);
        }
        Err(_) => unreachable!(),
    }
    Ok(blob)
}

#[test]
fn written_again(rt: HostRuntime) -> Result<(), Fail> {
    for bytes in [WITH_CSRC.as_slice(), WITH_EXTENSION.as_slice()] {
        let view = read(bytes)?;
        let fields = RtpFields {
            marker: view.marker(),
            pt: view.pt(),
            seq: view.seq(),
            timestamp: view.timestamp(),
            ssrc: view.ssrc(),
            csrcs: view.csrcs(),
            extension: view.extension(),
            payload: view.payload(),
        };
        assert_eq!(rt; written(rt.alloc(), &fields)?.bytes(), bytes);
    }
    Ok(())
}
