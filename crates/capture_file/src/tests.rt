//! Files of either form whose bytes come from outside.
use crate::CaptureFile;
use rtp_io::{Files, MemoryFiles, Pull};
use std::alloc::Global;
use std::test::Fail;

// A pcap capture with frames of IPv4: a record of two bytes, and one of none.
const PCAP: [u8; 58] = [
    0xd4, 0xc3, 0xb2, 0xa1, 2, 0, 4, 0, 0, 0, 0, 0, 0, 0, 0, 0, 0, 0, 4, 0, 228, 0, 0, 0, 1, 0, 0,
    0, 2, 0, 0, 0, 2, 0, 0, 0, 9, 0, 0, 0, 0x45, 1, 3, 0, 0, 0, 0, 0, 0, 0, 0, 0, 0, 0, 0, 0, 0, 0,
];

// A pcapng file: a section header, interfaces of IPv4 and of raw frames, and a packet of each, of
// one byte and of none.
const NG: [u8; 136] = [
    0x0a, 0x0d, 0x0d, 0x0a, 28, 0, 0, 0, 0x4d, 0x3c, 0x2b, 0x1a, 1, 0, 0, 0, 255, 255, 255, 255,
    255, 255, 255, 255, 28, 0, 0, 0, 1, 0, 0, 0, 20, 0, 0, 0, 228, 0, 0, 0, 0, 0, 4, 0, 20, 0, 0,
    0, 1, 0, 0, 0, 20, 0, 0, 0, 101, 0, 0, 0, 0, 0, 4, 0, 20, 0, 0, 0, 6, 0, 0, 0, 36, 0, 0, 0, 0,
    0, 0, 0, 0, 0, 0, 0, 7, 0, 0, 0, 1, 0, 0, 0, 9, 0, 0, 0, 0x45, 0, 0, 0, 36, 0, 0, 0, 6, 0, 0,
    0, 32, 0, 0, 0, 1, 0, 0, 0, 0, 0, 0, 0, 8, 0, 0, 0, 0, 0, 0, 0, 0, 0, 0, 0, 32, 0, 0, 0,
];

// What the records of a file tell together, and the word and place of its fault.
#[derive(Debug, Drop, PartialEq, Eq)]
struct Summary {
    records: u64,
    link: u16,
    stamp: u64,
    offset: u64,
    word: &'static str,
    place: u64,
}

fn outcome(alloc: Global, bytes: &[u8]) -> Result<Summary, Fail> {
    let mut files = MemoryFiles::new(alloc)?;
    files.add(alloc, "capture", bytes)?;
    files.set_step(7);
    files.open_file("capture")?;
    let mut pull = Pull::new(alloc)?;
    let mut seen = Summary {
        records: 0,
        link: 0,
        stamp: 0,
        offset: 0,
        word: "",
        place: 0,
    };
    let mut file = match CaptureFile::open(alloc, &mut files, &mut pull) {
        Ok(file) => file,
        Err(fault) => {
            seen.word = fault.word();
            seen.place = fault.offset();
            return Ok(seen);
        }
    };
    for count in 0..9 {
        match file.next(alloc, &mut files, &mut pull) {
            Ok(Some(record)) => {
                seen.link = record.link;
                seen.stamp = record.rec.stamp;
                seen.offset = record.rec.offset;
            }
            Ok(None) => {
                seen.records = count;
                return Ok(seen);
            }
            Err(fault) => {
                seen.records = count;
                seen.word = fault.word();
                seen.place = fault.offset();
                return Ok(seen);
            }
        }
    }
    Err(Fail::from("too many records"))
}

#[test]
fn whole_files(rt: HostRuntime) -> Result<(), Fail> {
    let alloc = rt.alloc();
    let pcap = outcome(alloc, &PCAP)?;
    assert_eq!(rt;
        pcap,
        Summary {
            records: 2,
            link: 228,
            stamp: 3_000_000_000,
            offset: 42,
            word: "",
            place: 0
        }
    );
    let ng = outcome(alloc, &NG)?;
    assert_eq!(rt;
        ng,
        Summary {
            records: 2,
            link: 101,
            stamp: 8_000,
            offset: 104,
            word: "",
            place: 0
        }
    );
    Ok(())
}

#[test]
fn cut_files(rt: HostRuntime) -> Result<(), Fail> {
    let alloc = rt.alloc();
    let pcap = outcome(alloc, &PCAP[..57])?;
    assert_eq!(rt;
        pcap,
        Summary {
            records: 1,
            link: 228,
            stamp: 1_000_002_000,
            offset: 24,
            word: "cut-record",
            place: 42
        }
    );
    let ng = outcome(alloc, &NG[..135])?;
    assert_eq!(rt;
        ng,
        Summary {
            records: 1,
            link: 228,
            stamp: 7_000,
            offset: 68,
            word: "cut-block",
            place: 104
        }
    );
    let head = outcome(alloc, &NG[..23])?;
    assert_eq!(rt; (head.word, head.place), ("cut-header", 0));
    Ok(())
}
