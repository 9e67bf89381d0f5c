//! Worked values of the number functions, and that a copy of bytes can be had.

use super::*;
use std::test::Fail;

#[test]
fn extended_numbers(rt: HostRuntime) {
    assert_eq!(rt; extend16(65536, 65535), 65535);
    assert_eq!(rt; extend16(98304, 0), 65536);
    assert_eq!(rt; extend32(4294967295, 0), 4294967296);
    assert_eq!(rt; extend32(0, 4294967295), -1);
}

#[test]
fn units_of_time(rt: HostRuntime) {
    assert_eq!(rt; ticks_to_ns(-1, 90000), -11111);
    assert_eq!(rt; ticks_to_ns(90000, 90000), 1_000_000_000);
    assert_eq!(rt; held_to_time(-1), 0);
    assert_eq!(rt; ntp_to_ns(1000, 2147483648), 1_000_500_000_000);
    assert_eq!(rt; ntp_middle(0x0001_0002, 0x8000_0000), 0x0002_8000);
    assert_eq!(rt; dlsr(1_500_000_000), 98304);
    assert_eq!(rt; dlsr(u64::MAX), u32::MAX);
}

#[test]
fn copies_of_bytes(rt: HostRuntime) -> Result<(), Fail> {
    let blob = Blob::copy_of(rt.alloc(), &[1, 2, 3])?;
    assert_eq!(rt; blob.bytes(), [1u8, 2, 3].as_slice());
    Ok(())
}
