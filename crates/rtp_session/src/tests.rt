//! Each call once.
use super::*;
use rtp_units::Address;
use rtp_wire::read;
use std::alloc::Global;
use std::process::Abort;
use std::test::Fail;

const HOME: Address = Address {
    family: 4,
    ip: [10, 0, 0, 1, 0, 0, 0, 0, 0, 0, 0, 0, 0, 0, 0, 0],
    port: 40000,
};

/// A packet of SSRC 0x11223344, with its number.
fn packet(seq: u8) -> [u8; 13] {
    [0x80, 0x60, 0, seq, 0, 0, 0, 0, 0x11, 0x22, 0x33, 0x44, 5]
}

fn hear(
    rt: &impl Abort,
    alloc: Global,
    session: &mut Session,
    now: u64,
    seq: u8,
) -> Result<SessionOut, Fail> {
    assert!(rt; session.heard() < 1_000_000);
    let bytes = packet(seq);
    let view = read(&bytes)?;
    Ok(session.rtp(alloc, now, HOME, &view, Some(90000))?)
}

/// How many packets waited, and when the last one came, where they go on.
fn released(out: &SessionOut) -> Option<(usize, u64)> {
    match out {
        SessionOut::Released { waited, packet } => Some((waited.len(), packet.stamp())),
        SessionOut::Held { .. } | SessionOut::Dropped(_) => None,
    }
}

#[test]
fn a_run_waits_and_goes_on(rt: HostRuntime) -> Result<(), Fail> {
    let alloc = rt.alloc();
    let mut session = Session::new(alloc, 1, 2, &[])?;
    assert_eq!(rt; released(&hear(&rt, alloc, &mut session, 0, 7)?), None);
    assert_eq!(rt;
        released(&hear(&rt, alloc, &mut session, 20, 8)?),
        Some((1, 20))
    );
    assert_eq!(rt;
        released(&hear(&rt, alloc, &mut session, 40, 9)?),
        Some((0, 40))
    );
    Ok(())
}
