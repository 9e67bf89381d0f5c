//! What arrives of the series, in order.
ghost use Rattle.std.specs.Prelude.{◌≡◌, ◌<◌, ◌≤◌, ◌*◌, ◌^◌, length, IfSome};
ghost use Rattle.generated_capture.specs.Deliveries.{deliveries};
ghost use Rattle.generated_capture.specs.Series.{head_of, tail_of};

use crate::delivery::{Delivery, precedes};
use crate::originals::Originals;
use crate::places::Kind;
use crate::series::Series;
use std::marker::Model;

/// What is still to arrive. Contracts see its list.
#[derive(Drop)]
pub(crate) struct Deliveries {
    originals: Originals,
    repeated: Series,
}

impl Model for Deliveries {
    ghost use Rattle.std.specs.Prelude.{List};
    ghost use Rattle.generated_capture.specs.declared.delivery.Delivery.{Delivery};
    ghost use Rattle.generated_capture.specs.Deliveries.{merged};

    ghost Value = { List Delivery };

    ghost view = { λ x. merged x.originals x.repeated };
}

impl Deliveries {
    /// What arrives of so many packets.
    pub(crate) fn new(count: u32) -> Deliveries
        ensures all { result ≡ deliveries count }
        ensures few { length result ≤ 3 * count }
    {
        Deliveries {
            originals: Originals::new(count),
            repeated: Series::new(Kind::Repeated, count),
        }
    }

    /// Takes the next one.
    pub(crate) fn take_first(&mut self) -> Option<Delivery>
        ensures first { result ≡ head_of self.old }
        ensures rest { self.new ≡ tail_of self.old }
        ensures small { IfSome result (λ d. d.time < 2 ^ 61) }
    {
        let original = self.originals.first();
        let repeated = self.repeated.first();
        if precedes(repeated, original) {
            self.repeated.take_first()
        } else {
            self.originals.take_first()
        }
    }
}
