//! The interfaces of a section, and their times.
ghost use Rattle.std.specs.Prelude.{◌≡◌, ◌<◌, ◌*◌, ◌^◌, IfSome, IfOk};
ghost use Rattle.pcapng_file.specs.Times.{units_of as units_by, stamp_of};
ghost use Rattle.pcapng_file.specs.Blocks.{interface_of};

use crate::fault::NgFault;
use crate::options::Said;
use pcap_file::is_link;

/// The most interfaces of a section.
pub(crate) const MAX_INTERFACES: usize = 1_024;

/// The time resolution of an interface that tells none: microseconds.
const MICROSECONDS: u8 = 6;

/// A time that is too late, in nanoseconds: 2 ^ 32 seconds.
const END: i128 = 4_294_967_296_000_000_000;

/// An interface of a section.
#[derive(Clone, Copy, Debug, PartialEq, Eq, Drop)]
pub(crate) struct Interface {
    /// The link type of its frames.
    pub link: u16,
    /// The most bytes of a frame that a simple packet includes, and 0 where there is no limit.
    pub snap: u32,
    /// The units of its times in a second.
    pub units: u64,
    /// What is added to each time, in seconds.
    pub seconds: i64,
}

impl Interface {
    /// The stamp of a packet, in nanoseconds, by its time in this interface's units. It answers
    /// `None` where the stamp is below 0 or not below 2 ^ 32 seconds.
    #[tactic(auto, unfolding(crate::specs::Times::stamp_of, crate::specs::Times::in_range))]
    pub fn stamp(self, ticks: u64) -> Option<u64>
        requires { 0 < self.units }
        ensures stamp { result ≡ stamp_of self ticks }
        ensures early { IfSome result (λ stamp. stamp < 2 ^ 32 * 1000000000) }
    {
        let nanoseconds = u128::from(ticks) * 1_000_000_000 / u128::from(self.units);
        let stamp = nanoseconds as i128 + i128::from(self.seconds) * 1_000_000_000;
        if stamp < 0 || stamp >= END {
            return None;
        }
        Some(stamp as u64)
    }
}

// The units of a second by the byte of a time resolution.
#[tactic(auto, unfolding(crate::specs::Times::units_of))]
fn units_of(resolution: u8) -> Option<u64>
    ensures units { result ≡ units_by resolution }
    ensures some { IfSome result (λ units. 0 < units) }
{
    match resolution {
        0 => Some(1),
        1 => Some(10),
        2 => Some(100),
        3 => Some(1_000),
        4 => Some(10_000),
        5 => Some(100_000),
        6 => Some(1_000_000),
        7 => Some(10_000_000),
        8 => Some(100_000_000),
        9 => Some(1_000_000_000),
        128..=160 => Some(1 << (resolution - 128)),
        _ => None,
    }
}

/// The interface of a block at this offset, behind so many others of its section, or its first
/// fault.
#[tactic(auto, unfolding(crate::specs::Blocks::interface_of))]
pub(crate) fn make_interface(
    offset: u64,
    count: usize,
    link: u16,
    snap: u32,
    said: Option<Said>,
) -> Result<Interface, NgFault>
    ensures interface { result ≡ interface_of offset count link snap said }
    ensures some { IfOk result (λ interface. 0 < interface.units) }
    ensures room { IfOk result (λ _. count < 1024) }
{
    if !is_link(link) {
        return Err(NgFault::Link(offset));
    }
    let Some(said) = said else {
        return Err(NgFault::Options(offset));
    };
    let Some(units) = units_of(said.resolution.unwrap_or(MICROSECONDS)) else {
        return Err(NgFault::Resolution(offset));
    };
    if count >= MAX_INTERFACES {
        return Err(NgFault::Many(offset));
    }
    Ok(Interface {
        link,
        snap,
        units,
        seconds: said.seconds.unwrap_or(0),
    })
}
