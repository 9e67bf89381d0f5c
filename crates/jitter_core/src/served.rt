//! How many requests of each number were served.

ghost use Rattle.std.specs.Prelude.{◌≡◌, ℕ, ◌%◌, length, IfOk};
ghost use Rattle.jitter_core.specs.Served.{served_in, with_served};

use rtp_units::OutOfMemory;
use std::alloc::Global;
use std::marker::Model;

// As many numbers as have requests lie less than half of this apart, so no two of them have one place.
const PLACES: usize = 16_384;

const UNSERVED: Service = Service {
    number: 0,
    count: 0,
};

/// How many requests of a number were served.
#[derive(Clone, Copy, Debug, Drop)]
pub struct Service {
    pub number: u64,
    pub count: u16,
}

/// How many requests of each number were served, each at its number modulo the count of places. A number takes
/// the place of another. Only `new` takes memory.
#[derive(Drop)]
pub struct Served {
    services: Vec<Service>,
}

impl Model for Served {
    ghost use Rattle.std.specs.Prelude.{List, ◌≡◌, length};
    ghost use Rattle.jitter_core.specs.declared.served.Service.{Service};

    ghost Value = { List Service };

    ghost view = { λ s. s.services.items };

    ghost invariant = { λ s. length s.services.items ≡ 16384 };
}

/// The place of a number.
fn place_of(number: u64) -> usize
    ensures { result ≡ number % 16384 }
{
    (number % PLACES as u64) as usize
}

/// Makes each place one where nothing was served.
fn forget(services: &mut [Service])
    requires { length services.old ≡ 16384 }
    ensures none { (n : ℕ) → served_in services.new n ≡ 0 }
    ensures long { length services.new ≡ 16384 }
{
    for place in 0..services.len() {
        services[place] = UNSERVED;
    }
}

impl Served {
    /// Nothing was served.
    pub fn new(alloc: Global) -> Result<Served, OutOfMemory>
        ensures none { IfOk result (λ s. (n : ℕ) → served_in s n ≡ 0) }
        ensures long { IfOk result (λ s. length s ≡ 16384) }
    {
        let mut services = Vec::from_elem(alloc, UNSERVED, PLACES)?;
        forget(services.as_mut_slice());
        Ok(Served { services })
    }

    /// How many requests of a number were served.
    pub fn count(&self, number: u64) -> u16
        ensures { result ≡ served_in self.now number }
    {
        let service = self.services[place_of(number)];
        if number == service.number {
            service.count
        } else {
            0
        }
    }

    /// This many requests of a number were served.
    pub fn set(&mut self, number: u64, count: u16)
        ensures { self.new ≡ with_served self.old number count }
    {
        self.services[place_of(number)] = Service { number, count };
    }

    /// Nothing was served.
    pub fn clear(&mut self)
        ensures none { (n : ℕ) → served_in self.new n ≡ 0 }
        ensures long { length self.new ≡ 16384 }
    {
        forget(self.services.as_mut_slice());
    }
}
