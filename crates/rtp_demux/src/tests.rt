//! Lanes and payload types of a few packets, and lanes that are full.

use super::*;
use std::test::Fail;

#[test]
fn lanes_by_first_sight(rt: HostRuntime) -> Result<(), Fail> {
    let mut demux = SsrcDemux::new(rt.alloc())?;
    assert_eq!(rt; demux.find(0, 0x1122_3344), None);
    assert_eq!(rt; demux.peek(0, 0x1122_3344, 90000), LaneOf::New(0));
    assert_eq!(rt; demux.lane(0, 0x1122_3344, 90000), LaneOf::New(0));
    assert_eq!(rt; demux.lane(1, 0x1122_3344, 48000), LaneOf::New(1));
    assert_eq!(rt; demux.lane(0, 0x1122_3344, 90000), LaneOf::Known(0));
    assert_eq!(rt;
        demux.lane(1, 0x1122_3344, 8000),
        LaneOf::Rate {
            lane: 1,
            kept: 48000
        }
    );
    assert_eq!(rt; demux.find(1, 0x1122_3344), Some(1));
    assert_eq!(rt; demux.find(2, 0x1122_3344), None);
    Ok(())
}

// Sessions 0 and 1 with 40 and 25 streams: the last one gets no lane, and the others go on.
#[test]
fn sixty_four_lanes(rt: HostRuntime) -> Result<(), Fail> {
    let mut demux = SsrcDemux::new(rt.alloc())?;
    for ssrc in 0..40u8 {
        assert_eq!(rt; demux.lane(0, u32::from(ssrc), 90000), LaneOf::New(ssrc));
    }
    for ssrc in 0..24u8 {
        assert_eq!(rt;
            demux.lane(1, u32::from(ssrc), 90000),
            LaneOf::New(ssrc + 40)
        );
    }
    assert_eq!(rt; demux.lane(1, 24, 90000), LaneOf::Full);
    assert_eq!(rt; demux.find(1, 24), None);
    assert_eq!(rt; demux.lane(1, 23, 90000), LaneOf::Known(63));
    assert_eq!(rt; demux.lane(0, 0, 90000), LaneOf::Known(0));
    Ok(())
}

#[test]
fn types_by_first_sight(rt: HostRuntime) -> Result<(), Fail> {
    let mut demux = PtDemux::new(rt.alloc(), &[(96, 90000), (0, 8000)])?;
    assert_eq!(rt; demux.route(96), PtRoute::First(90000));
    assert_eq!(rt; demux.route(97), PtRoute::Unmapped);
    assert_eq!(rt; demux.route(96), PtRoute::Known(90000));
    assert_eq!(rt; demux.route(0), PtRoute::First(8000));
    assert_eq!(rt; demux.route(97), PtRoute::Unmapped);
    Ok(())
}
