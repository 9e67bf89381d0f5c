//! The places of packets in the series, from 0: which are lost, late or repeated.
ghost use Rattle.std.specs.Prelude.{◌≡◌, ◌<◌, ◌-◌, find, IfSome};
ghost use Rattle.std.specs.List.{range_with_len};
ghost use Rattle.generated_capture.specs.Deliveries.{is_in_time as in_time_at, is_late as late_at};
ghost use Rattle.generated_capture.specs.Deliveries.{is_repeated as repeated_at};
ghost use Rattle.generated_capture.specs.Series.{test_of};

/// Which deliveries are in order among themselves.
#[derive(Clone, Copy, Debug, PartialEq, Eq, Drop)]
pub(crate) enum Kind {
    /// Originals that are neither lost nor late.
    InTime,
    /// Late originals.
    Late,
    /// Retransmissions.
    Repeated,
}

impl Kind {
    /// The first place of this kind from a place on, before the count.
    pub(crate) fn first_from(self, place: u32, count: u32) -> Option<u32>
        ensures value { result ≡ find (test_of self) (range_with_len place (count - place)) }
        ensures before { IfSome result (λ found. found < count) }
    {
        (place..count).find(|index| self.has(*index))
    }

    fn has(self, place: u32) -> bool
        ensures { result ≡ test_of self place }
    {
        match self {
            Kind::InTime => is_in_time(place),
            Kind::Late => is_late(place),
            Kind::Repeated => is_repeated(place),
        }
    }
}

fn is_in_time(place: u32) -> bool
    ensures { result ≡ in_time_at place }
{
    place % 100 != 50 && !is_late(place)
}

pub(crate) fn is_late(place: u32) -> bool
    ensures { result ≡ late_at place }
{
    place % 100 == 70
}

fn is_repeated(place: u32) -> bool
    ensures { result ≡ repeated_at place }
{
    place % 200 == 150
}
