//! Each call once: fragments that become a unit, and single units. More worked cases are theorems by
//! computation, in `proofs/Worked.antt`.

use super::*;
use std::test::Fail;

#[test]
fn fragments_become_one_unit(rt: HostRuntime) -> Result<(), Fail> {
    let alloc = rt.alloc();
    let mut depay = Depay::new(alloc, Format::H264)?;
    assert_eq!(rt;
        depay.take(alloc, 65537, 0, 0, &[0x7c, 0x85, 0xaa])?.len(),
        0
    );
    assert_eq!(rt;
        depay.take(alloc, 65538, 0, 3, &[0x7c, 0x05, 0xbb])?.len(),
        0
    );
    let outcomes = depay.take(alloc, 65539, 0, 7, &[0x7c, 0x45, 0xcc])?;
    assert_eq!(rt; outcomes.len(), 1);
    if let Outcome::Unit {
        first,
        last,
        pts,
        bytes,
    } = &outcomes[0]
    {
        assert_eq!(rt; (*first, *last, *pts), (65537, 65539, 0));
        assert_eq!(rt; bytes.bytes(), [0x65u8, 0xaa, 0xbb, 0xcc].as_slice());
    } else {
        assert!(rt; false);
    }
    assert_eq!(rt; depay.gap(), None);
    Ok(())
}

#[test]
fn a_payload_of_pcmu_is_a_unit(rt: HostRuntime) -> Result<(), Fail> {
    let alloc = rt.alloc();
    let mut depay = Depay::new(alloc, Format::Pcmu)?;
    let all = depay.take(alloc, 65537, 0, 0, &[1, 2, 3, 4])?;
    assert_eq!(rt; all.len(), 1);
    assert!(rt; matches!(all[0], Outcome::Unit { .. }));
    Ok(())
}
