//! Each call once, and the text of each kind of line.

use super::*;
use rtp_units::{Blob, OutOfMemory};
use std::alloc::Global;
use std::test::Fail;
use timeline::BinLine;

fn packet(alloc: Global, payload: &[u8]) -> Result<Blob, OutOfMemory> {
    let mut bytes = vec![in alloc; 0x80, 96, 0, 1, 0, 0, 0, 0, 0, 0, 0, 1]?;
    bytes.extend_from_slice(payload)?;
    Ok(Blob::from_vec(bytes))
}

fn out(alloc: Global, time: u64, number: u64, payload: &[u8]) -> Result<BinLine, OutOfMemory> {
    Ok(BinLine::Out {
        time,
        lane: 0,
        number,
        pts: time,
        pt: 96,
        marker: false,
        len: 0,
        bytes: packet(alloc, payload)?,
    })
}

#[test]
fn a_payload_is_a_line(rt: HostRuntime) -> Result<(), Fail> {
    let alloc = rt.alloc();
    let mut log = UnitLog::new(alloc, Format::Pcmu, 96);
    let lines = log.take(alloc, &out(alloc, 7, 65537, &[1, 2, 0xff])?)?;
    assert_eq!(rt; lines.len(), 1);
    let text = line_text(alloc, &lines[0])?;
    assert_eq!(rt; text.bytes(), b"7 unit 0 65537 65537 7 0102ff\n".as_slice());
    Ok(())
}

#[test]
fn a_loss_breaks_an_open_unit(rt: HostRuntime) -> Result<(), Fail> {
    let alloc = rt.alloc();
    let mut log = UnitLog::new(alloc, Format::H264, 96);
    let begun = log.take(alloc, &out(alloc, 7, 65537, &[0x7c, 0x85, 0xaa])?)?;
    assert_eq!(rt; begun.len(), 0);
    let lost = BinLine::Lost {
        time: 9,
        lane: 0,
        number: 65538,
        count: 1,
        pts: 8,
        duration: 1,
    };
    let lines = log.take(alloc, &lost)?;
    assert_eq!(rt; lines.len(), 1);
    let text = line_text(alloc, &lines[0])?;
    assert_eq!(rt; text.bytes(), b"9 broken 0 65537 incomplete\n".as_slice());
    Ok(())
}
