//! The time of records.
ghost use Rattle.std.specs.Prelude.{◌≡◌, ◌<◌, ◌^◌, ◌++◌, ◌∷◌, [], List};
ghost use Rattle.pcap_file.specs.Capture.{Record};
ghost use Rattle.live_plan.specs.Passed.{HasPassed};

/// The stamp of the first record, and the greatest time so far: time 0 is that stamp, and a record
/// that is stamped earlier than one before it comes at the greatest time so far.
#[derive(Clone, Copy, Debug, Drop)]
pub(crate) struct RecordClock {
    pub(crate) first: Option<u64>,
    pub(crate) time: u64,
}

/// Before any record.
pub(crate) const START: RecordClock = RecordClock {
    first: None,
    time: 0,
};

/// The clock at a record with this stamp.
pub(crate) fn pass(clock: RecordClock, stamp: u64) -> RecordClock
    ensures { (seen : List Record) (r : Record)
        → r.stamp ≡ stamp → HasPassed clock seen → HasPassed result (seen ++ r ∷ []) }
{
    let first = clock.first.unwrap_or(stamp);
    RecordClock {
        first: Some(first),
        time: clock.time.max(stamp.saturating_sub(first)),
    }
}
