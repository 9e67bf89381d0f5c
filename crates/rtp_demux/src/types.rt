//! Payload types by first sight.
ghost use Rattle.std.specs.Prelude.{◌≡◌, ◌+◌, [], ◌∷◌, ℕ, List, nat_eq, true, cond, Some, IfOk, IsSome, OnErr, OnOk};
ghost use Rattle.std.specs.Map.{lookup};
ghost use Rattle.rtp_demux.specs.Types.{route, route_of, StandsFor};

use indexmap::IndexMap;
use rtp_units::OutOfMemory;
use std::alloc::Global;
use std::marker::Model;

/// What is known of a packet's payload type.
#[derive(Clone, Copy, Debug, PartialEq, Eq, Drop)]
pub enum PtRoute {
    /// The type has this clock rate, and this is its first packet.
    First(u32),
    /// The type has this clock rate, and had packets before.
    Known(u32),
    /// The type has no clock rate.
    Unmapped,
}

/// A payload type's clock rate, and whether it had a packet.
#[derive(Clone, Copy, Debug, Drop)]
pub struct Route {
    pub(crate) rate: u32,
    pub(crate) routed: bool,
}

/// The payload types of a session. Contracts see the routes by their types.
#[derive(Drop)]
pub struct PtDemux {
    routes: IndexMap<u8, Route>,
}

impl Model for PtDemux {
    ghost use Rattle.std.specs.Prelude.{ℕ, List};
    ghost use Rattle.rtp_demux.specs.declared.types.Route.{Route};

    ghost Value = { List (ℕ × Route) };

    ghost view = { λ d. d.routes.entries };
}

impl PtDemux {
    /// The payload types with their clock rates. Where a type stands twice, its first rate counts.
    pub fn new(alloc: Global, rates: &[(u8, u32)]) -> Result<PtDemux, OutOfMemory>
        ensures { IfOk result (λ d. StandsFor d rates.now []) }
    {
        let mut routes = IndexMap::with_capacity(alloc, rates.len())?;
        for (pt, rate) in rates {
            if !routes.contains_key(pt) {
                let route = Route {
                    rate: *rate,
                    routed: false,
                };
                routes.insert(*pt, route)?;
            }
        }
        Ok(PtDemux { routes })
    }

    /// The route of a packet of this payload type.
    pub fn route(&mut self, pt: u8) -> PtRoute
        ensures answer { (rates : List (ℕ × ℕ)) (calls : List ℕ) → StandsFor self.old rates calls
            → result ≡ route_of rates calls pt }
        ensures stands { (rates : List (ℕ × ℕ)) (calls : List ℕ) → StandsFor self.old rates calls
            → StandsFor self.new rates (pt ∷ calls) }
    {
        match self.routes.get(&pt) {
            None => PtRoute::Unmapped,
            Some(route) => {
                let rate = route.rate;
                if route.routed {
                    return PtRoute::Known(rate);
                }
                mark(&mut self.routes, pt, rate);
                PtRoute::First(rate)
            }
        }
    }
}

/// Notes the first packet of a type that has a route, which takes no memory.
fn mark(routes: &mut IndexMap<u8, Route>, pt: u8, rate: u32)
    requires { IsSome (lookup (nat_eq pt) routes.old.entries) }
    ensures { (q : ℕ) → lookup (nat_eq q) routes.new.entries
        ≡ cond (nat_eq pt q) (Some (route rate true)) (lookup (nat_eq q) routes.old.entries) }
{
    match routes.insert(pt, Route { rate, routed: true }) {
        Ok(_) => {}
        Err(_) => unreachable!(),
    }
}
