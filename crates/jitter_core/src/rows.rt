//! Worked rows: calls of a buffer, each with the reply that follows from the rules. The times of calls come from
//! the records of a capture and from the wakes that idle turns name.

use crate::tests::{Answer, Call};
use jitter_model::Verdict;

/// Packets in order.
pub const IN_ORDER: [(Call, Answer); 14] = [
    (
        Call::Push(1, 0, 0, 4),
        Answer::Pushed(Verdict::Accepted, 65_537, 0),
    ),
    (Call::Turn, Answer::Idle(Some(100_000_000))),
    (
        Call::Push(2, 20, 1_800, 4),
        Answer::Pushed(Verdict::Accepted, 65_538, 0),
    ),
    (Call::Turn, Answer::Idle(Some(100_000_000))),
    (
        Call::Push(3, 40, 3_600, 4),
        Answer::Pushed(Verdict::Accepted, 65_539, 0),
    ),
    (Call::Turn, Answer::Idle(Some(100_000_000))),
    (Call::Clock(100_000_000), Answer::Nothing),
    (Call::Turn, Answer::Packet(65_537, 0, 4)),
    (Call::Turn, Answer::Packet(65_538, 20_000_000, 4)),
    (Call::Turn, Answer::Packet(65_539, 40_000_000, 4)),
    (Call::Turn, Answer::Idle(None)),
    (Call::EndAll, Answer::Nothing),
    (Call::Turn, Answer::End),
    (Call::Turn, Answer::Idle(None)),
];

/// A lost packet.
pub const LOST: [(Call, Answer); 17] = [
    (
        Call::Push(1, 0, 0, 4),
        Answer::Pushed(Verdict::Accepted, 65_537, 0),
    ),
    (Call::Turn, Answer::Idle(Some(100_000_000))),
    (
        Call::Push(2, 20, 1_800, 4),
        Answer::Pushed(Verdict::Accepted, 65_538, 0),
    ),
    (Call::Turn, Answer::Idle(Some(100_000_000))),
    (
        Call::Push(4, 60, 5_400, 4),
        Answer::Pushed(Verdict::Accepted, 65_540, 0),
    ),
    (Call::Turn, Answer::Idle(Some(100_000_000))),
    (Call::Clock(100_000_000), Answer::Nothing),
    (Call::Turn, Answer::Packet(65_537, 0, 4)),
    (Call::Turn, Answer::Packet(65_538, 20_000_000, 4)),
    (Call::Turn, Answer::Idle(Some(140_000_000))),
    (Call::Clock(140_000_000), Answer::Nothing),
    (Call::Turn, Answer::Lost(65_539, 1, 40_000_000, 20_000_000)),
    (Call::Turn, Answer::Packet(65_540, 60_000_000, 4)),
    (Call::Turn, Answer::Idle(None)),
    (Call::EndAll, Answer::Nothing),
    (Call::Turn, Answer::End),
    (Call::Turn, Answer::Idle(None)),
];

/// A packet after it was declared lost.
pub const LATE: [(Call, Answer); 19] = [
    (
        Call::Push(1, 0, 0, 4),
        Answer::Pushed(Verdict::Accepted, 65_537, 0),
    ),
    (Call::Turn, Answer::Idle(Some(100_000_000))),
    (
        Call::Push(2, 20, 1_800, 4),
        Answer::Pushed(Verdict::Accepted, 65_538, 0),
    ),
    (Call::Turn, Answer::Idle(Some(100_000_000))),
    (
        Call::Push(4, 60, 5_400, 4),
        Answer::Pushed(Verdict::Accepted, 65_540, 0),
    ),
    (Call::Turn, Answer::Idle(Some(100_000_000))),
    (Call::Clock(100_000_000), Answer::Nothing),
    (Call::Turn, Answer::Packet(65_537, 0, 4)),
    (Call::Turn, Answer::Packet(65_538, 20_000_000, 4)),
    (Call::Turn, Answer::Idle(Some(140_000_000))),
    (Call::Clock(140_000_000), Answer::Nothing),
    (Call::Turn, Answer::Lost(65_539, 1, 40_000_000, 20_000_000)),
    (Call::Turn, Answer::Packet(65_540, 60_000_000, 4)),
    (Call::Turn, Answer::Idle(None)),
    (
        Call::Push(3, 140, 3_600, 4),
        Answer::Pushed(Verdict::Late, 65_539, 0),
    ),
    (Call::Turn, Answer::Idle(None)),
    (Call::EndAll, Answer::Nothing),
    (Call::Turn, Answer::End),
    (Call::Turn, Answer::Idle(None)),
];

/// Numbers that wrap at 16 bits.
pub const WRAP: [(Call, Answer); 17] = [
    (
        Call::Push(65534, 0, 0, 4),
        Answer::Pushed(Verdict::Accepted, 131_070, 0),
    ),
    (Call::Turn, Answer::Idle(Some(100_000_000))),
    (
        Call::Push(65535, 20, 1_800, 4),
        Answer::Pushed(Verdict::Accepted, 131_071, 0),
    ),
    (Call::Turn, Answer::Idle(Some(100_000_000))),
    (
        Call::Push(0, 40, 3_600, 4),
        Answer::Pushed(Verdict::Accepted, 131_072, 0),
    ),
    (Call::Turn, Answer::Idle(Some(100_000_000))),
    (
        Call::Push(1, 60, 5_400, 4),
        Answer::Pushed(Verdict::Accepted, 131_073, 0),
    ),
    (Call::Turn, Answer::Idle(Some(100_000_000))),
    (Call::Clock(100_000_000), Answer::Nothing),
    (Call::Turn, Answer::Packet(131_070, 0, 4)),
    (Call::Turn, Answer::Packet(131_071, 20_000_000, 4)),
    (Call::Turn, Answer::Packet(131_072, 40_000_000, 4)),
    (Call::Turn, Answer::Packet(131_073, 60_000_000, 4)),
    (Call::Turn, Answer::Idle(None)),
    (Call::EndAll, Answer::Nothing),
    (Call::Turn, Answer::End),
    (Call::Turn, Answer::Idle(None)),
];

/// An older packet before the output starts, whose time is held to 0.
pub const OLDER: [(Call, Answer); 11] = [
    (
        Call::Push(2, 0, 1_800, 4),
        Answer::Pushed(Verdict::Accepted, 65_538, 0),
    ),
    (Call::Turn, Answer::Idle(Some(100_000_000))),
    (
        Call::Push(1, 10, 0, 4),
        Answer::Pushed(Verdict::Accepted, 65_537, 0),
    ),
    (Call::Turn, Answer::Idle(Some(100_000_000))),
    (Call::Clock(100_000_000), Answer::Nothing),
    (Call::Turn, Answer::Packet(65_537, 0, 4)),
    (Call::Turn, Answer::Packet(65_538, 0, 4)),
    (Call::Turn, Answer::Idle(None)),
    (Call::EndAll, Answer::Nothing),
    (Call::Turn, Answer::End),
    (Call::Turn, Answer::Idle(None)),
];

/// The first of two duplicates is kept.
pub const DUPLICATE: [(Call, Answer); 10] = [
    (
        Call::Push(5, 0, 0, 1),
        Answer::Pushed(Verdict::Accepted, 65_541, 0),
    ),
    (Call::Turn, Answer::Idle(Some(100_000_000))),
    (
        Call::Push(5, 5, 0, 2),
        Answer::Pushed(Verdict::Duplicate, 65_541, 0),
    ),
    (Call::Turn, Answer::Idle(Some(100_000_000))),
    (Call::Clock(100_000_000), Answer::Nothing),
    (Call::Turn, Answer::Packet(65_541, 0, 1)),
    (Call::Turn, Answer::Idle(None)),
    (Call::EndAll, Answer::Nothing),
    (Call::Turn, Answer::End),
    (Call::Turn, Answer::Idle(None)),
];

/// The skew of a sender whose packets come a little late and then early.
pub const SKEWED: [(Call, Answer); 14] = [
    (
        Call::Push(1, 0, 0, 4),
        Answer::Pushed(Verdict::Accepted, 65_537, 0),
    ),
    (Call::Turn, Answer::Idle(Some(100_000_000))),
    (
        Call::Push(2, 21, 1_800, 4),
        Answer::Pushed(Verdict::Accepted, 65_538, 0),
    ),
    (Call::Turn, Answer::Idle(Some(100_000_000))),
    (
        Call::Push(3, 39, 3_600, 4),
        Answer::Pushed(Verdict::Accepted, 65_539, 0),
    ),
    (Call::Turn, Answer::Idle(Some(100_000_000))),
    (Call::Clock(100_000_000), Answer::Nothing),
    (Call::Turn, Answer::Packet(65_537, 0, 4)),
    (Call::Turn, Answer::Packet(65_538, 20_000_000, 4)),
    (Call::Turn, Answer::Packet(65_539, 39_999_600, 4)),
    (Call::Turn, Answer::Idle(None)),
    (Call::EndAll, Answer::Nothing),
    (Call::Turn, Answer::End),
    (Call::Turn, Answer::Idle(None)),
];

/// A new segment after five far packets.
pub const RESTARTED: [(Call, Answer); 22] = [
    (
        Call::Push(10, 0, 0, 4),
        Answer::Pushed(Verdict::Accepted, 65_546, 0),
    ),
    (Call::Turn, Answer::Idle(Some(100_000_000))),
    (
        Call::Push(3011, 10, 900, 4),
        Answer::Pushed(Verdict::Aside, 68_547, 0),
    ),
    (Call::Turn, Answer::Idle(Some(100_000_000))),
    (
        Call::Push(3012, 12, 1_080, 4),
        Answer::Pushed(Verdict::Aside, 68_548, 0),
    ),
    (Call::Turn, Answer::Idle(Some(100_000_000))),
    (
        Call::Push(3013, 14, 1_260, 4),
        Answer::Pushed(Verdict::Aside, 68_549, 0),
    ),
    (Call::Turn, Answer::Idle(Some(100_000_000))),
    (
        Call::Push(3014, 16, 1_440, 4),
        Answer::Pushed(Verdict::Aside, 68_550, 0),
    ),
    (Call::Turn, Answer::Idle(Some(100_000_000))),
    (
        Call::Push(3015, 18, 1_620, 4),
        Answer::Pushed(Verdict::Restart(1), 68_551, 0),
    ),
    (Call::Turn, Answer::Idle(Some(110_000_000))),
    (Call::Clock(110_000_000), Answer::Nothing),
    (Call::Turn, Answer::Packet(68_547, 10_000_000, 4)),
    (Call::Turn, Answer::Packet(68_548, 12_000_000, 4)),
    (Call::Turn, Answer::Packet(68_549, 14_000_000, 4)),
    (Call::Turn, Answer::Packet(68_550, 16_000_000, 4)),
    (Call::Turn, Answer::Packet(68_551, 18_000_000, 4)),
    (Call::Turn, Answer::Idle(None)),
    (Call::EndAll, Answer::Nothing),
    (Call::Turn, Answer::End),
    (Call::Turn, Answer::Idle(None)),
];

/// A packet at the distance of dropout is not far.
pub const AT_DROPOUT: [(Call, Answer); 12] = [
    (
        Call::Push(10, 0, 0, 4),
        Answer::Pushed(Verdict::Accepted, 65_546, 0),
    ),
    (Call::Turn, Answer::Idle(Some(100_000_000))),
    (
        Call::Push(3010, 10, 900, 4),
        Answer::Pushed(Verdict::Accepted, 68_546, 0),
    ),
    (Call::Turn, Answer::Idle(Some(100_000_000))),
    (Call::Clock(100_000_000), Answer::Nothing),
    (Call::Turn, Answer::Packet(65_546, 0, 4)),
    (Call::Turn, Answer::Idle(Some(100_003_333))),
    (Call::Clock(100_003_333), Answer::Nothing),
    (Call::Turn, Answer::Lost(65_547, 1, 3_333, 3_333)),
    (Call::Turn, Answer::Idle(Some(100_006_666))),
    (Call::Clock(100_006_666), Answer::Nothing),
    (Call::Turn, Answer::Lost(65_548, 1, 6_666, 3_334)),
];

/// A packet that is not far drops the ones that were put aside.
pub const ASIDE_DROPPED: [(Call, Answer); 13] = [
    (
        Call::Push(10, 0, 0, 4),
        Answer::Pushed(Verdict::Accepted, 65_546, 0),
    ),
    (Call::Turn, Answer::Idle(Some(100_000_000))),
    (
        Call::Push(3011, 10, 900, 4),
        Answer::Pushed(Verdict::Aside, 68_547, 0),
    ),
    (Call::Turn, Answer::Idle(Some(100_000_000))),
    (
        Call::Push(11, 20, 1_800, 4),
        Answer::Pushed(Verdict::Accepted, 65_547, 1),
    ),
    (Call::Turn, Answer::Idle(Some(100_000_000))),
    (Call::Clock(100_000_000), Answer::Nothing),
    (Call::Turn, Answer::Packet(65_546, 0, 4)),
    (Call::Turn, Answer::Packet(65_547, 20_000_000, 4)),
    (Call::Turn, Answer::Idle(None)),
    (Call::EndAll, Answer::Nothing),
    (Call::Turn, Answer::End),
    (Call::Turn, Answer::Idle(None)),
];

/// Packets that were sent again: one fills its place, one is a duplicate.
pub const SENT_AGAIN: [(Call, Answer); 19] = [
    (
        Call::Push(1, 0, 0, 4),
        Answer::Pushed(Verdict::Accepted, 65_537, 0),
    ),
    (Call::Turn, Answer::Idle(Some(100_000_000))),
    (
        Call::Push(2, 20, 1_800, 4),
        Answer::Pushed(Verdict::Accepted, 65_538, 0),
    ),
    (Call::Turn, Answer::Idle(Some(100_000_000))),
    (
        Call::Push(4, 60, 5_400, 4),
        Answer::Pushed(Verdict::Accepted, 65_540, 0),
    ),
    (Call::Turn, Answer::Idle(Some(100_000_000))),
    (
        Call::Again(3, 70, 3_600, 2),
        Answer::Pushed(Verdict::Accepted, 65_539, 0),
    ),
    (Call::Turn, Answer::Idle(Some(100_000_000))),
    (
        Call::Again(3, 80, 3_600, 2),
        Answer::Pushed(Verdict::Duplicate, 65_539, 0),
    ),
    (Call::Turn, Answer::Idle(Some(100_000_000))),
    (Call::Clock(100_000_000), Answer::Nothing),
    (Call::Turn, Answer::Packet(65_537, 0, 4)),
    (Call::Turn, Answer::Packet(65_538, 20_000_000, 4)),
    (Call::Turn, Answer::Packet(65_539, 40_000_000, 2)),
    (Call::Turn, Answer::Packet(65_540, 60_000_000, 4)),
    (Call::Turn, Answer::Idle(None)),
    (Call::EndAll, Answer::Nothing),
    (Call::Turn, Answer::End),
    (Call::Turn, Answer::Idle(None)),
];

/// Requests of missing packets, and by the spacing of the last two.
pub const REQUESTED: [(Call, Answer); 38] = [
    (
        Call::Push(1, 0, 0, 4),
        Answer::Pushed(Verdict::Accepted, 65_537, 0),
    ),
    (Call::Turn, Answer::Idle(Some(100_000_000))),
    (
        Call::Push(2, 20, 1_800, 4),
        Answer::Pushed(Verdict::Accepted, 65_538, 0),
    ),
    (Call::Turn, Answer::Idle(Some(60_000_000))),
    (Call::Clock(60_000_000), Answer::Nothing),
    (Call::Turn, Answer::Request(65_539, 0)),
    (Call::Turn, Answer::Idle(Some(100_000_000))),
    (
        Call::Push(5, 80, 7_200, 4),
        Answer::Pushed(Verdict::Accepted, 65_541, 0),
    ),
    (Call::Turn, Answer::Idle(Some(100_000_000))),
    (
        Call::Push(7, 80, 10_800, 4),
        Answer::Pushed(Verdict::Accepted, 65_543, 0),
    ),
    (Call::Turn, Answer::Idle(Some(100_000_000))),
    (Call::Clock(100_000_000), Answer::Nothing),
    (Call::Turn, Answer::Request(65_540, 0)),
    (Call::Turn, Answer::Request(65_542, 0)),
    (Call::Turn, Answer::Packet(65_537, 0, 4)),
    (Call::Turn, Answer::Packet(65_538, 20_000_000, 4)),
    (Call::Turn, Answer::Idle(Some(140_000_000))),
    (Call::Clock(140_000_000), Answer::Nothing),
    (Call::Turn, Answer::Request(65_540, 1)),
    (Call::Turn, Answer::Request(65_542, 1)),
    (Call::Turn, Answer::Lost(65_539, 1, 40_000_000, 20_000_000)),
    (Call::Turn, Answer::Idle(Some(160_000_000))),
    (Call::Clock(160_000_000), Answer::Nothing),
    (Call::Turn, Answer::Request(65_544, 0)),
    (Call::Turn, Answer::Lost(65_540, 1, 60_000_000, 20_000_000)),
    (Call::Turn, Answer::Packet(65_541, 80_000_000, 4)),
    (Call::Turn, Answer::Idle(Some(180_000_000))),
    (Call::Clock(180_000_000), Answer::Nothing),
    (Call::Turn, Answer::Request(65_542, 2)),
    (Call::Turn, Answer::Idle(Some(200_000_000))),
    (Call::Clock(200_000_000), Answer::Nothing),
    (Call::Turn, Answer::Request(65_544, 1)),
    (Call::Turn, Answer::Lost(65_542, 1, 100_000_000, 20_000_000)),
    (Call::Turn, Answer::Packet(65_543, 120_000_000, 4)),
    (Call::Turn, Answer::Idle(None)),
    (Call::EndAll, Answer::Nothing),
    (Call::Turn, Answer::End),
    (Call::Turn, Answer::Idle(None)),
];

/// A request of a packet that is then sent again.
pub const REQUESTED_IN_ORDER: [(Call, Answer); 24] = [
    (
        Call::Push(1, 0, 0, 4),
        Answer::Pushed(Verdict::Accepted, 65_537, 0),
    ),
    (Call::Turn, Answer::Idle(Some(100_000_000))),
    (
        Call::Push(2, 20, 1_800, 4),
        Answer::Pushed(Verdict::Accepted, 65_538, 0),
    ),
    (Call::Turn, Answer::Idle(Some(60_000_000))),
    (Call::Clock(60_000_000), Answer::Nothing),
    (Call::Turn, Answer::Request(65_539, 0)),
    (Call::Turn, Answer::Idle(Some(100_000_000))),
    (
        Call::Push(4, 60, 5_400, 4),
        Answer::Pushed(Verdict::Accepted, 65_540, 0),
    ),
    (Call::Turn, Answer::Idle(Some(100_000_000))),
    (
        Call::Again(3, 70, 3_600, 2),
        Answer::Pushed(Verdict::Accepted, 65_539, 0),
    ),
    (Call::Turn, Answer::Idle(Some(100_000_000))),
    (Call::Clock(100_000_000), Answer::Nothing),
    (Call::Turn, Answer::Request(65_541, 0)),
    (Call::Turn, Answer::Packet(65_537, 0, 4)),
    (Call::Turn, Answer::Packet(65_538, 20_000_000, 4)),
    (Call::Turn, Answer::Packet(65_539, 40_000_000, 2)),
    (Call::Turn, Answer::Packet(65_540, 60_000_000, 4)),
    (Call::Turn, Answer::Idle(Some(140_000_000))),
    (Call::Clock(140_000_000), Answer::Nothing),
    (Call::Turn, Answer::Request(65_541, 1)),
    (Call::Turn, Answer::Idle(None)),
    (Call::EndAll, Answer::Nothing),
    (Call::Turn, Answer::End),
    (Call::Turn, Answer::Idle(None)),
];

/// A request as soon as a packet came that is reorder later.
pub const REORDERED: [(Call, Answer); 36] = [
    (
        Call::Push(1, 0, 0, 4),
        Answer::Pushed(Verdict::Accepted, 65_537, 0),
    ),
    (Call::Turn, Answer::Idle(Some(100_000_000))),
    (
        Call::Push(2, 20, 1_800, 4),
        Answer::Pushed(Verdict::Accepted, 65_538, 0),
    ),
    (Call::Turn, Answer::Idle(Some(60_000_000))),
    (
        Call::Push(5, 30, 7_200, 4),
        Answer::Pushed(Verdict::Accepted, 65_541, 0),
    ),
    (Call::Turn, Answer::Idle(Some(50_000_000))),
    (
        Call::Push(6, 31, 9_000, 4),
        Answer::Pushed(Verdict::Accepted, 65_542, 0),
    ),
    (Call::Turn, Answer::Request(65_539, 0)),
    (Call::Turn, Answer::Idle(Some(50_000_000))),
    (
        Call::Push(4, 45, 5_400, 4),
        Answer::Pushed(Verdict::Accepted, 65_540, 0),
    ),
    (Call::Turn, Answer::Idle(Some(71_000_000))),
    (Call::Clock(71_000_000), Answer::Nothing),
    (Call::Turn, Answer::Request(65_539, 1)),
    (Call::Turn, Answer::Idle(Some(100_000_000))),
    (Call::Clock(100_000_000), Answer::Nothing),
    (Call::Turn, Answer::Packet(65_537, 0, 4)),
    (Call::Turn, Answer::Packet(65_538, 20_000_000, 4)),
    (Call::Turn, Answer::Idle(Some(111_000_000))),
    (Call::Clock(111_000_000), Answer::Nothing),
    (Call::Turn, Answer::Request(65_539, 2)),
    (Call::Turn, Answer::Idle(Some(139_655_000))),
    (Call::Clock(139_655_000), Answer::Nothing),
    (Call::Turn, Answer::Request(65_543, 0)),
    (Call::Turn, Answer::Idle(Some(140_000_000))),
    (Call::Clock(140_000_000), Answer::Nothing),
    (Call::Turn, Answer::Lost(65_539, 1, 40_000_000, 20_000_000)),
    (Call::Turn, Answer::Packet(65_540, 59_827_500, 4)),
    (Call::Turn, Answer::Packet(65_541, 80_000_000, 4)),
    (Call::Turn, Answer::Packet(65_542, 99_827_500, 4)),
    (Call::Turn, Answer::Idle(Some(179_655_000))),
    (Call::Clock(179_655_000), Answer::Nothing),
    (Call::Turn, Answer::Request(65_543, 1)),
    (Call::Turn, Answer::Idle(None)),
    (Call::EndAll, Answer::Nothing),
    (Call::Turn, Answer::End),
    (Call::Turn, Answer::Idle(None)),
];

/// A longer latency while requests run.
pub const LONGER: [(Call, Answer); 31] = [
    (
        Call::Push(1, 0, 0, 4),
        Answer::Pushed(Verdict::Accepted, 65_537, 0),
    ),
    (Call::Turn, Answer::Idle(Some(100_000_000))),
    (
        Call::Push(2, 20, 1_800, 4),
        Answer::Pushed(Verdict::Accepted, 65_538, 0),
    ),
    (Call::Turn, Answer::Idle(Some(60_000_000))),
    (Call::Clock(60_000_000), Answer::Nothing),
    (Call::Turn, Answer::Request(65_539, 0)),
    (Call::Turn, Answer::Idle(Some(100_000_000))),
    (
        Call::Push(4, 60, 5_400, 4),
        Answer::Pushed(Verdict::Accepted, 65_540, 0),
    ),
    (Call::Turn, Answer::Idle(Some(100_000_000))),
    (Call::Latency(150), Answer::Nothing),
    (Call::Turn, Answer::Idle(Some(100_000_000))),
    (Call::Clock(100_000_000), Answer::Nothing),
    (Call::Turn, Answer::Request(65_541, 0)),
    (Call::Turn, Answer::Idle(Some(120_000_000))),
    (Call::Clock(120_000_000), Answer::Nothing),
    (Call::Turn, Answer::Request(65_539, 1)),
    (Call::Turn, Answer::Idle(Some(140_000_000))),
    (Call::Clock(140_000_000), Answer::Nothing),
    (Call::Turn, Answer::Request(65_541, 1)),
    (Call::Turn, Answer::Idle(Some(150_000_000))),
    (Call::Clock(150_000_000), Answer::Nothing),
    (Call::Turn, Answer::Packet(65_537, 0, 4)),
    (Call::Turn, Answer::Packet(65_538, 20_000_000, 4)),
    (Call::Turn, Answer::Idle(Some(190_000_000))),
    (Call::Clock(190_000_000), Answer::Nothing),
    (Call::Turn, Answer::Lost(65_539, 1, 40_000_000, 20_000_000)),
    (Call::Turn, Answer::Packet(65_540, 60_000_000, 4)),
    (Call::Turn, Answer::Idle(None)),
    (Call::EndAll, Answer::Nothing),
    (Call::Turn, Answer::End),
    (Call::Turn, Answer::Idle(None)),
];

/// A flush.
pub const FLUSHED: [(Call, Answer); 27] = [
    (
        Call::Push(1, 0, 0, 4),
        Answer::Pushed(Verdict::Accepted, 65_537, 0),
    ),
    (Call::Turn, Answer::Idle(Some(100_000_000))),
    (
        Call::Push(2, 20, 1_800, 4),
        Answer::Pushed(Verdict::Accepted, 65_538, 0),
    ),
    (Call::Turn, Answer::Idle(Some(100_000_000))),
    (
        Call::Push(3, 40, 3_600, 4),
        Answer::Pushed(Verdict::Accepted, 65_539, 0),
    ),
    (Call::Turn, Answer::Idle(Some(100_000_000))),
    (Call::Clock(50_000_000), Answer::Nothing),
    (Call::FlushStart, Answer::Dropped(3)),
    (Call::Turn, Answer::Flushing),
    (
        Call::Push(4, 55, 4_950, 4),
        Answer::Pushed(Verdict::Flushing, 0, 0),
    ),
    (Call::Turn, Answer::Flushing),
    (Call::Clock(60_000_000), Answer::Nothing),
    (Call::FlushStop, Answer::Nothing),
    (Call::Turn, Answer::Idle(None)),
    (
        Call::Again(3, 65, 3_600, 2),
        Answer::Pushed(Verdict::Stray, 0, 0),
    ),
    (Call::Turn, Answer::Idle(None)),
    (
        Call::Push(2, 70, 1_800, 4),
        Answer::Pushed(Verdict::Accepted, 65_538, 0),
    ),
    (Call::Turn, Answer::Idle(Some(170_000_000))),
    (
        Call::Push(3, 90, 3_600, 4),
        Answer::Pushed(Verdict::Accepted, 65_539, 0),
    ),
    (Call::Turn, Answer::Idle(Some(170_000_000))),
    (Call::Clock(170_000_000), Answer::Nothing),
    (Call::Turn, Answer::Packet(65_538, 70_000_000, 4)),
    (Call::Turn, Answer::Packet(65_539, 90_000_000, 4)),
    (Call::Turn, Answer::Idle(None)),
    (Call::EndAll, Answer::Nothing),
    (Call::Turn, Answer::End),
    (Call::Turn, Answer::Idle(None)),
];

/// A number for which there is no room.
pub const FULL: [(Call, Answer); 6] = [
    (
        Call::Push(1, 0, 0, 4),
        Answer::Pushed(Verdict::Accepted, 65_537, 0),
    ),
    (Call::Turn, Answer::Idle(Some(100_000_000))),
    (
        Call::Push(8193, 10, 900, 4),
        Answer::Pushed(Verdict::Full, 73_729, 0),
    ),
    (Call::Turn, Answer::Idle(Some(100_000_000))),
    (
        Call::Push(8192, 20, 1_800, 4),
        Answer::Pushed(Verdict::Accepted, 73_728, 0),
    ),
    (Call::Turn, Answer::Idle(Some(100_000_000))),
];
