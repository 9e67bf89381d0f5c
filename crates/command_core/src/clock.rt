//! The time of records.
ghost use Rattle.std.specs.Prelude.{◌≡◌, ◌<◌, ◌≤◌, ◌*◌, ◌^◌, ◌++◌, ◌∷◌, [], List};
ghost use Rattle.pcap_file.specs.Capture.{Record};
ghost use Rattle.command_core.specs.Clock.{HasPassed};

/// The stamp of the first record, and the greatest time so far: time 0 is that stamp, and a record
/// that is stamped earlier than one before it comes at the greatest time so far.
#[derive(Clone, Copy, Debug)]
pub struct RecordClock {
    pub first: Option<u64>,
    pub time: u64,
}

/// Before any record.
pub const START: RecordClock = RecordClock {
    first: None,
    time: 0,
};

/// The clock at a record with this stamp.
pub fn pass(clock: RecordClock, stamp: u64) -> RecordClock
    requires stamp { stamp < 2 ^ 32 * 1000000000 }
    requires time { clock.time < 2 ^ 32 * 1000000000 }
    ensures onward { clock.time ≤ result.time }
    ensures small { result.time < 2 ^ 32 * 1000000000 }
    ensures passed { (seen : List Record) (r : Record)
        → r.stamp ≡ stamp → HasPassed clock seen → HasPassed result (seen ++ r ∷ []) }
{
    let first = clock.first.unwrap_or(stamp);
    RecordClock {
        first: Some(first),
        time: clock.time.max(stamp.saturating_sub(first)),
    }
}
