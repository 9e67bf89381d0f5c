//! A dump of a capture in memory.
ghost use Rattle.std.specs.Prelude.{◌<◌};

use crate::dump_open;
use rtp_io::{Files, MemoryFiles, MemorySink};
use std::test::Fail;

// A packet of source 11223344 to port 5004, and 20 ms later a record that is no IP packet.
const CAPTURE: &[u8] = &[
    0xd4, 0xc3, 0xb2, 0xa1, 2, 0, 4, 0, 0, 0, 0, 0, 0, 0, 0, 0, 0, 0, 4, 0, 1, 0, 0, 0, 7, 0, 0, 0,
    0, 0, 0, 0, 58, 0, 0, 0, 58, 0, 0, 0, 2, 0, 0, 0, 0, 2, 2, 0, 0, 0, 0, 1, 8, 0, 0x45, 0, 0, 44,
    0, 0, 0, 0, 64, 17, 0, 0, 10, 0, 0, 1, 10, 0, 0, 2, 0x9c, 0x40, 0x13, 0x8c, 0, 24, 0, 0, 0x80,
    96, 0, 1, 0, 0, 0, 0, 0x11, 0x22, 0x33, 0x44, 1, 2, 3, 4, 7, 0, 0, 0, 0x20, 0x4e, 0, 0, 14, 0,
    0, 0, 14, 0, 0, 0, 2, 0, 0, 0, 0, 2, 2, 0, 0, 0, 0, 1, 8, 6,
];

const LINES: &[u8] =
    b"1 0 rtp 40000 5004 96 1 0 11223344 0 0 0 0 4\n2 20000000 skip not-ip\ndone 2\n";

#[test]
fn dumps(rt: HostRuntime) -> Result<(), Fail> {
    let alloc = rt.alloc();
    let mut files = MemoryFiles::new(alloc)?;
    files.add(alloc, "c", CAPTURE)?;
    let mut out = MemorySink::with_room(alloc, 200)?;
    assert!(rt; files.open_file("c").is_ok());
    assert!(rt; dump_open(alloc, &mut files, &mut out).is_ok());
    assert_eq!(rt; out.bytes(), LINES);
    Ok(())
}
