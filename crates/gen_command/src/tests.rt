//! The last lines of two series, and a write that fails.
use crate::print_generated;
use command_core::Stop;
use rtp_io::MemorySink;
use std::test::Fail;

#[test]
fn one_packet(rt: HostRuntime) -> Result<(), Fail> {
    let alloc = rt.alloc();
    let mut out = MemorySink::with_room(alloc, 100)?;
    let ended = print_generated(alloc, 0, 1, &mut out);
    assert_eq!(rt; ended, Ok(()));
    assert_eq!(rt; out.bytes(), b"done 1 1 1 0 0\n".as_slice());
    Ok(())
}

// Packet 50 is lost, and packet 150 comes again.
#[test]
fn a_lost_and_a_repeated_packet(rt: HostRuntime) -> Result<(), Fail> {
    let alloc = rt.alloc();
    let mut out = MemorySink::with_room(alloc, 100)?;
    let ended = print_generated(alloc, 7, 191, &mut out);
    assert_eq!(rt; ended, Ok(()));
    assert_eq!(rt; out.bytes(), b"done 190 1 190 1 0\n".as_slice());
    Ok(())
}

#[test]
fn a_failed_write(rt: HostRuntime) -> Result<(), Fail> {
    let alloc = rt.alloc();
    let mut out = MemorySink::with_room(alloc, 100)?;
    out.fail_at(1)?;
    let ended = print_generated(alloc, 0, 1, &mut out);
    assert_eq!(rt; ended, Err(Stop::Write));
    Ok(())
}
