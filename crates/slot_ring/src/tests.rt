use crate::SlotRing;
use std::cell::Cell;
use std::marker::{Send, Sync};
use std::test::*;
use std::thread;

/// A value that counts how often one is dropped.
struct Counted<'a> {
    drops: &'a Cell<u32>,
}

impl Drop for Counted<'_> {
    fn drop(self) {
        let Counted { drops } = self;
        drops.set(drops.get().wrapping_add(1));
    }
}

fn fill<'a>(ring: &mut SlotRing<Counted<'a>>, drops: &'a Cell<u32>, from: u64, count: u64) -> u32 {
    let mut refused = 0u32;
    for k in 0..count {
        if let Err(_) = ring.put(from.wrapping_add(k), Counted { drops }) {
            refused = refused.wrapping_add(1);
        }
    }
    refused
}

#[test]
fn drops_each_value_once(rt: HostRuntime) -> Result<(), Fail> {
    let drops = Cell::new(0);
    {
        let ring = SlotRing::<Counted<'_>>::with_capacity(rt.alloc(), 3)?;
        drop(ring);
    }
    assert_eq!(rt; drops.get(), 0, "an empty ring");
    {
        let mut half = SlotRing::with_capacity(rt.alloc(), 3)?;
        assert_eq!(rt; fill(&mut half, &drops, 6, 4), 0);
    }
    assert_eq!(rt; drops.get(), 4, "a half full ring");
    {
        let mut full = SlotRing::with_capacity(rt.alloc(), 3)?;
        assert_eq!(rt; fill(&mut full, &drops, 6, 8), 0);
        assert_eq!(rt; fill(&mut full, &drops, 6, 2), 2);
        assert_eq!(rt; drops.get(), 6, "two were given back");
    }
    assert_eq!(rt; drops.get(), 14, "a full ring");
    {
        let mut cleared = SlotRing::with_capacity(rt.alloc(), 3)?;
        assert_eq!(rt; fill(&mut cleared, &drops, 0, 8), 0);
        assert_eq!(rt; cleared.clear(), 8);
        assert_eq!(rt; drops.get(), 22, "after clear");
        assert_eq!(rt; cleared.clear(), 0);
        assert_eq!(rt; fill(&mut cleared, &drops, 100, 1), 0);
    }
    assert_eq!(rt; drops.get(), 23, "after clear and one more");
    Ok(())
}

#[test]
fn four_slots(rt: HostRuntime) -> Result<(), Fail> {
    let mut ring = SlotRing::with_capacity(rt.alloc(), 2)?;
    assert_eq!(rt; ring.put(5, 'a'), Ok(()));
    assert_eq!(rt; ring.put(9, 'b'), Err('b'), "one slot for both");
    assert_eq!(rt; ring.put(6, 'c'), Ok(()));
    assert_eq!(rt;
        ring.get(5),
        Some(&'a'),
        "a refused value overwrites nothing"
    );
    assert_eq!(rt; ring.get(9), None);
    assert_eq!(rt; ring.len(), 2);
    Ok(())
}

#[test]
fn one_slot(rt: HostRuntime) -> Result<(), Fail> {
    let mut ring = SlotRing::with_capacity(rt.alloc(), 0)?;
    assert_eq!(rt; ring.put(1, 'a'), Ok(()));
    assert_eq!(rt; ring.put(2, 'b'), Err('b'));
    assert_eq!(rt; ring.get(1), Some(&'a'));
    assert_eq!(rt; ring.get(2), None);
    assert_eq!(rt; ring.take(1), Some('a'));
    assert_eq!(rt; ring.put(2, 'b'), Ok(()));
    assert_eq!(rt; ring.len(), 1);
    assert_eq!(rt; ring.clear(), 1);
    assert_eq!(rt; ring.len(), 0);
    Ok(())
}

fn sent<X: Send>(x: X) -> X {
    x
}

fn shared<X: Sync>(x: &X) -> &X {
    x
}

/// A ring may be moved to and shared with other threads where its values may.
fn crosses<T: Send + Sync>(ring: SlotRing<T>) -> SlotRing<T> {
    let ring = sent(ring);
    let _len = shared(&ring).len();
    ring
}

#[test]
fn a_ring_crosses_threads(rt: HostRuntime) -> Result<(), Fail> {
    let mut ring = SlotRing::with_capacity(rt.alloc(), 4)?;
    assert_eq!(rt; ring.put(17, 5u32), Ok(()));
    let ring = crosses(ring);
    let worker = thread::spawn(&rt, move || {
        let found = ring.get(17).copied();
        (ring, found)
    })?;
    let (ring, found) = worker.join(&rt);
    assert_eq!(rt; found, Some(5));
    let (a, b) = thread::join(&rt, || ring.get(17).copied(), || ring.get(1).copied());
    assert_eq!(rt; a, Some(5));
    assert_eq!(rt; b, None);
    Ok(())
}
