//! A scan of a worked case.
use crate::report_of;
use crate::scan::Scan;
use crate::sight::{Arrival, Sight};
use rtp_units::OutOfMemory;
use std::alloc::Global;
use std::test::Fail;

// PCMU to port 5004, of which the second packet was lost and the fourth follows the third.
fn speech(time: u64, seq: u16) -> Sight {
    Sight::Rtp(Arrival {
        time,
        port: 5004,
        ssrc: 0x1122_3344,
        pt: 0,
        seq,
        timestamp: 1000,
    })
}

// Frames of a dynamic type to port 5006, 40 ms apart, with a clock of 90 kHz.
fn picture(time: u64, seq: u16, timestamp: u32) -> Sight {
    Sight::Rtp(Arrival {
        time,
        port: 5006,
        ssrc: 0xabc,
        pt: 96,
        seq,
        timestamp,
    })
}

fn sights() -> [Sight; 9] {
    [
        speech(0, 65_534),
        picture(5_000_000, 7, 0xffff_fff0),
        speech(40_000_000, 0),
        picture(45_000_000, 8, 3584),
        Sight::Compound(5006),
        speech(60_000_000, 1),
        picture(85_000_000, 9, 7184),
        Sight::Nothing,
        picture(125_000_000, 10, 10_784),
    ]
}

const LINES: &str = "stream 5004 11223344 0 3 0 60000000 8000 PCMU\n\
                     stream 5006 00000abc 96 4 5000000 125000000 90000 guessed\n";

// The picture has more packets, and RTCP comes to its own port.
const SCRIPT: &str = "session 0 5006 5006\n\
                      session 1 5004 5005\n\
                      pt 1 0 8000\n\
                      pt 0 96 90000\n";

fn scanned(alloc: Global) -> Result<Scan, OutOfMemory> {
    let mut scan = Scan::new(alloc)?;
    for sight in sights() {
        if scan.left_out() < u64::MAX {
            scan.note(sight)?;
        }
    }
    Ok(scan)
}

#[test]
fn streams_and_their_script(rt: HostRuntime) -> Result<(), Fail> {
    let alloc = rt.alloc();
    let scan = scanned(alloc)?;
    let text = report_of(alloc, &scan, false)?;
    let script = report_of(alloc, &scan, true)?;
    assert!(rt; text.bytes().starts_with(LINES.as_bytes()));
    assert!(rt; script.bytes().starts_with(SCRIPT.as_bytes()));
    assert!(rt; text.bytes().ends_with(script.bytes()));
    assert_eq!(rt; scan.left_out(), 0);
    Ok(())
}
