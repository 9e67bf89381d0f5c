//! The worked reports of a source: a loss, and then a packet that comes again after 30 ms.

use super::*;
use rtp_units::Address;
use rtp_wire::read;
use std::process::Abort;
use std::test::Fail;

const HOME: Address = Address {
    family: 4,
    ip: [10, 0, 0, 1, 0, 0, 0, 0, 0, 0, 0, 0, 0, 0, 0, 0],
    port: 40000,
};

const SSRC: u32 = 0x1122_3344;

/// Hears a packet with this number and timestamp, at a clock of 90,000.
fn hear_of(
    rt: &impl Abort,
    table: &mut SourceTable,
    now: u64,
    from: Address,
    ssrc: u32,
    seq: u16,
    timestamp: u32,
) -> Result<Heard, Refuse> {
    assert!(rt; table.heard() < 100_000);
    let [s0, s1] = seq.to_be_bytes();
    let [t0, t1, t2, t3] = timestamp.to_be_bytes();
    let [a, b, c, d] = ssrc.to_be_bytes();
    match read(&[0x80, 0x60, s0, s1, t0, t1, t2, t3, a, b, c, d]) {
        Ok(view) => table.hear_rtp(now, from, &view, Some(90000), false),
        Err(_) => Err(Refuse::OutOfMemory),
    }
}

fn hear(
    rt: &impl Abort,
    table: &mut SourceTable,
    now: u64,
    from: Address,
    seq: u16,
    timestamp: u32,
) -> Result<Heard, Refuse> {
    hear_of(rt, table, now, from, SSRC, seq, timestamp)
}

#[test]
fn blocks_of_a_source(rt: HostRuntime) -> Result<(), Fail> {
    let mut table = SourceTable::new(rt.alloc(), 1, 2)?;
    let ssrc = SSRC;
    let waiting = Ok(Heard::Waiting { broken: false });
    assert_eq!(rt; hear(&rt, &mut table, 0, HOME, 1, 0), waiting);
    assert_eq!(rt;
        hear(&rt, &mut table, 20_000_000, HOME, 2, 1800),
        Ok(Heard::NowValid)
    );
    assert_eq!(rt;
        hear(&rt, &mut table, 60_000_000, HOME, 4, 5400),
        Ok(Heard::Valid)
    );
    let block = table.block(ssrc, 70_000_000).ok_or("no block")?;
    assert_eq!(rt; block.lost, 1);
    assert_eq!(rt; block.greatest, 4);
    assert_eq!(rt; block.fraction, 85);
    assert_eq!(rt; table.block(ssrc, 80_000_000), None);

    let other = Address {
        port: 40001,
        ..HOME
    };
    assert_eq!(rt;
        hear(&rt, &mut table, 90_000_000, other, 5, 0),
        Err(Refuse::Collision {
            kept: HOME,
            new: other
        })
    );
    assert_eq!(rt; table.set_cname(rt.alloc(), ssrc, b"a@b")?, Named::Changed);
    assert_eq!(rt; table.set_cname(rt.alloc(), ssrc, b"a@b")?, Named::Same);
    assert_eq!(rt; table.cname(ssrc), Some(b"a@b".as_slice()));
    assert!(rt; table.hear_sr(95_000_000, ssrc, 1000, 0));
    assert!(rt; table.hear_bye(ssrc));
    assert_eq!(rt;
        table
            .expire(rt.alloc(), 100_000_000, 1_000_000_000)?
            .as_slice(),
        [ssrc].as_slice()
    );
    assert!(rt; !table.hear_bye(ssrc));
    Ok(())
}

// Every number is 2999 above the one before it: most of what is expected never comes.
#[test]
fn counts_far_apart(rt: HostRuntime) -> Result<(), Fail> {
    let mut table = SourceTable::new(rt.alloc(), 1, 0)?;
    let mut seq = 0u16;
    for _ in 0..2900 {
        let heard = hear(&rt, &mut table, 0, HOME, seq, 0);
        assert!(rt; heard.is_ok());
        seq = seq.wrapping_add(2999);
    }
    let block = table.block(SSRC, 0).ok_or("no block")?;
    assert_eq!(rt; block.fraction, 255);
    assert_eq!(rt; block.lost, 0x7f_ffff);
    assert_eq!(rt; block.greatest, 0x0084_a955);
    Ok(())
}

#[test]
fn counts_repeated(rt: HostRuntime) -> Result<(), Fail> {
    let mut table = SourceTable::new(rt.alloc(), 1, 0)?;
    for _ in 0..4 {
        let heard = hear(&rt, &mut table, 0, HOME, 5, 0);
        assert!(rt; heard.is_ok());
    }
    let block = table.block(SSRC, 0).ok_or("no block")?;
    assert_eq!(rt; block.fraction, 0);
    assert_eq!(rt; block.lost, -3);
    assert_eq!(rt; table.block(SSRC, 0), None);
    Ok(())
}

// What is kept of a source among others, of which 63 find room between any two of its packets.
#[test]
fn stands_in_a_flood(rt: HostRuntime) -> Result<(), Fail> {
    let mut quiet = SourceTable::new(rt.alloc(), 1, 0)?;
    let mut flooded = SourceTable::new(rt.alloc(), 1, 0)?;
    for seq in 1..4 {
        assert!(rt; hear(&rt, &mut quiet, 0, HOME, seq, 0).is_ok());
        assert!(rt; hear(&rt, &mut flooded, 0, HOME, seq, 0).is_ok());
        for other in 0..80 {
            let heard = hear_of(&rt, &mut flooded, 0, HOME, 0x5566_0000 + other, seq, 0);
            assert_eq!(rt; heard.is_ok(), other < 63);
        }
    }
    assert_eq!(rt; flooded.block(SSRC, 0), quiet.block(SSRC, 0));
    Ok(())
}
