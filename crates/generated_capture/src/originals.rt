//! The originals of the series in the order of their arrival.
ghost use Rattle.std.specs.Prelude.{◌≡◌, ◌<◌, ◌^◌, map, IfSome};
ghost use Rattle.generated_capture.specs.Deliveries.{merged, places, is_in_time, is_late};
ghost use Rattle.generated_capture.specs.Deliveries.{original};
ghost use Rattle.generated_capture.specs.Series.{head_of, tail_of};

use crate::delivery::{Delivery, precedes};
use crate::places::Kind;
use crate::series::Series;
use std::marker::Model;

/// The originals that are still to arrive. Contracts see their list.
#[derive(Drop)]
pub(crate) struct Originals {
    in_time: Series,
    late: Series,
}

impl Model for Originals {
    ghost use Rattle.std.specs.Prelude.{List};
    ghost use Rattle.generated_capture.specs.declared.delivery.Delivery.{Delivery};
    ghost use Rattle.generated_capture.specs.Deliveries.{merged};

    ghost Value = { List Delivery };

    ghost view = { λ x. merged x.in_time x.late };
}

impl Originals {
    /// Those of so many packets.
    pub(crate) fn new(count: u32) -> Originals
        ensures { result ≡ merged (map original (places is_in_time count))
            (map original (places is_late count)) }
    {
        Originals {
            in_time: Series::new(Kind::InTime, count),
            late: Series::new(Kind::Late, count),
        }
    }

    /// The next one.
    pub(crate) fn first(&self) -> Option<Delivery>
        ensures { result ≡ head_of self.now }
    {
        let in_time = self.in_time.first();
        let late = self.late.first();
        if precedes(late, in_time) {
            late
        } else {
            in_time
        }
    }

    /// Takes the next one.
    pub(crate) fn take_first(&mut self) -> Option<Delivery>
        ensures first { result ≡ head_of self.old }
        ensures rest { self.new ≡ tail_of self.old }
        ensures small { IfSome result (λ d. d.time < 2 ^ 61) }
    {
        let in_time = self.in_time.first();
        let late = self.late.first();
        if precedes(late, in_time) {
            self.late.take_first()
        } else {
            self.in_time.take_first()
        }
    }
}
