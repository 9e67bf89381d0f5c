//! Deliveries of one kind.
ghost use Rattle.std.specs.Prelude.{◌≡◌, ◌<◌, ◌^◌, map, IfSome};
ghost use Rattle.generated_capture.specs.Deliveries.{places};
ghost use Rattle.generated_capture.specs.Series.{head_of, tail_of, delivery_of, test_of};

use crate::delivery::{Delivery, original, retransmission};
use crate::places::Kind;
use std::marker::Model;

/// The deliveries of one kind of so many packets, from a place on. Contracts see their list.
#[derive(Drop)]
pub(crate) struct Series {
    kind: Kind,
    place: u32,
    count: u32,
}

impl Model for Series {
    ghost use Rattle.std.specs.Prelude.{List};
    ghost use Rattle.generated_capture.specs.declared.delivery.Delivery.{Delivery};
    ghost use Rattle.generated_capture.specs.Series.{series_from};

    ghost Value = { List Delivery };

    ghost view = { λ s. series_from s.kind s.place s.count };
}

impl Series {
    /// All of them.
    pub(crate) fn new(kind: Kind, count: u32) -> Series
        ensures { result ≡ map (delivery_of kind) (places (test_of kind) count) }
    {
        Series {
            kind,
            place: 0,
            count,
        }
    }

    /// The first one that is left.
    pub(crate) fn first(&self) -> Option<Delivery>
        ensures { result ≡ head_of self.now }
    {
        match self.kind.first_from(self.place, self.count) {
            Some(place) => Some(delivery_at(self.kind, place)),
            None => None,
        }
    }

    /// Takes the first one that is left.
    pub(crate) fn take_first(&mut self) -> Option<Delivery>
        ensures first { result ≡ head_of self.old }
        ensures rest { self.new ≡ tail_of self.old }
        ensures small { IfSome result (λ d. d.time < 2 ^ 61) }
    {
        match self.kind.first_from(self.place, self.count) {
            Some(place) => {
                self.place = place + 1;
                Some(delivery_at(self.kind, place))
            }
            None => None,
        }
    }
}

fn delivery_at(kind: Kind, place: u32) -> Delivery
    ensures value { result ≡ delivery_of kind place }
    ensures small { result.time < 2 ^ 61 }
{
    match kind {
        Kind::InTime | Kind::Late => original(place),
        Kind::Repeated => retransmission(place),
    }
}
