//! Offsets of lanes whose clocks are known, and of a lane that reports again.

use super::*;
use rtp_units::SyncInfo;
use std::test::Fail;

#[test]
fn offsets_by_name(rt: HostRuntime) -> Result<(), Fail> {
    let mut sync = LaneSync::new(rt.alloc())?;
    let at = |ntp_ns: u64, local: u64| SyncInfo { ntp_ns, local };
    sync.report(rt.alloc(), 0, b"a@b", at(1_000_000_000_000, 0))?;
    let offsets = sync.offsets(rt.alloc(), b"a@b")?;
    assert_eq!(rt; offsets.as_slice(), [(0u8, 0u64)].as_slice());

    // Half a second later by NTP, and 0.4 s by its own clock.
    sync.report(rt.alloc(), 1, b"a@b", at(1_000_500_000_000, 400_000_000))?;
    sync.report(rt.alloc(), 2, b"c@d", at(0, 0))?;
    let offsets = sync.offsets(rt.alloc(), b"a@b")?;
    assert_eq!(rt;
        offsets.as_slice(),
        [(0u8, 0u64), (1, 100_000_000)].as_slice()
    );

    // The last report of a lane counts.
    sync.report(
        rt.alloc(),
        0,
        b"a@b",
        at(1_000_000_000_000, 1_000_000_000_000),
    )?;
    let offsets = sync.offsets(rt.alloc(), b"a@b")?;
    assert_eq!(rt;
        offsets.as_slice(),
        [(0u8, 0u64), (1, 1_000_100_000_000)].as_slice()
    );
    sync.report(rt.alloc(), 0, b"", at(9_223_372_036_854_775_807, 0))?;
    sync.report(rt.alloc(), 3, b"", at(0, 9_223_372_036_854_775_807))?;
    let offsets = sync.offsets(rt.alloc(), b"")?;
    assert_eq!(rt;
        offsets.as_slice(),
        [(0u8, 18_446_744_073_709_551_614u64), (3, 0)].as_slice()
    );
    assert_eq!(rt; sync.offsets(rt.alloc(), b"nobody")?.len(), 0);
    Ok(())
}
