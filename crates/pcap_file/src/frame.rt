//! The UDP datagram in a captured frame, and what comes first in a frame by its link type.
ghost use Rattle.std.specs.Prelude.{◌≡◌, ◌≤◌, ◌+◌, IfOk, length};
ghost use Rattle.pcap_file.specs.Reading.{record_view};
ghost use Rattle.pcap_file.specs.Datagrams.{sent, datagram_of, inner_of, frame, null, cooked, ethernet, untagged as untagged_of, is_tag as tag_test, raw, by_type};

use crate::network::{Carried, read_ipv4, read_ipv6};
use crate::order::Order;
use crate::record::PcapRecord;
use crate::udp::{Datagram, Skip};

// Link types, as pcap numbers them.
const NULL: u16 = 0;

const ETHERNET: u16 = 1;

const RAW: u16 = 101;

const LINUX_SLL: u16 = 113;

const IPV4: u16 = 228;

const IPV6: u16 = 229;

const LINUX_SLL2: u16 = 276;

// EtherTypes.
const TYPE_IPV4: u16 = 0x0800;

const TYPE_IPV6: u16 = 0x86dd;

const TYPE_TAG: u16 = 0x8100;

const TYPE_SERVICE_TAG: u16 = 0x88a8;

/// The datagram of a record whose frame has this link type, or the first test that fails.
#[tactic(auto, unfolding(crate::specs::Datagrams::datagram_of))]
pub fn datagram<'a>(link: u16, rec: &'a PcapRecord) -> Result<Datagram<'a>, Skip>
    ensures answer { sent result ≡ datagram_of (record_view link rec.now) }
    ensures small { IfOk result (λ sent. length sent.payload.now ≤ 9216) }
{
    let bytes = rec.bytes.bytes();
    if bytes.len() < rec.original as usize {
        return Err(Skip::Cut);
    }
    read_frame(link, bytes)
}

// Reads a frame of this link type.
#[tactic(auto, unfolding(crate::specs::Datagrams::frame))]
fn read_frame(link: u16, bytes: &[u8]) -> Result<Datagram<'_>, Skip>
    ensures answer { sent result ≡ frame link bytes.now }
    ensures small { IfOk result (λ sent. length sent.payload.now ≤ 9216) }
{
    match link {
        NULL => read_null(bytes),
        ETHERNET => read_ethernet(bytes),
        RAW => read_raw(bytes),
        LINUX_SLL => read_cooked(bytes, 16, 14),
        LINUX_SLL2 => read_cooked(bytes, 20, 0),
        IPV4 => read_ipv4(bytes),
        IPV6 => read_ipv6(bytes),
        _ => Err(Skip::NotIp),
    }
}

// Four bytes tell the address family, and are not looked at.
#[tactic(auto, using(std::proofs::lemmas::List::take_rest), unfolding(crate::specs::Datagrams::null))]
fn read_null(bytes: &[u8]) -> Result<Datagram<'_>, Skip>
    ensures answer { sent result ≡ null bytes.now }
    ensures small { IfOk result (λ sent. length sent.payload.now ≤ 9216) }
{
    if bytes.len() < 4 {
        return Err(Skip::Malformed);
    }
    read_raw(&bytes[4..])
}

// A Linux cooked header of this length, with the protocol at a place of it.
#[tactic(auto, using(std::proofs::lemmas::List::take_rest), unfolding(crate::specs::Datagrams::cooked))]
fn read_cooked(bytes: &[u8], size: usize, place: usize) -> Result<Datagram<'_>, Skip>
    requires { place + 2 ≤ size }
    ensures answer { sent result ≡ cooked size place bytes.now }
    ensures small { IfOk result (λ sent. length sent.payload.now ≤ 9216) }
{
    if bytes.len() < size {
        return Err(Skip::Malformed);
    }
    read_typed(Order::Big.number16(bytes, place), &bytes[size..])
}

// An IP packet alone.
#[tactic(auto, unfolding(crate::specs::Datagrams::raw))]
fn read_raw(bytes: &[u8]) -> Result<Datagram<'_>, Skip>
    ensures answer { sent result ≡ raw bytes.now }
    ensures small { IfOk result (λ sent. length sent.payload.now ≤ 9216) }
{
    if bytes.is_empty() {
        return Err(Skip::Malformed);
    }
    match bytes[0] / 16 {
        4 => read_ipv4(bytes),
        6 => read_ipv6(bytes),
        _ => Err(Skip::NotIp),
    }
}

// Two addresses of six bytes and an EtherType.
#[tactic(auto, unfolding(crate::specs::Datagrams::ethernet))]
fn read_ethernet(bytes: &[u8]) -> Result<Datagram<'_>, Skip>
    ensures answer { sent result ≡ ethernet bytes.now }
    ensures small { IfOk result (λ sent. length sent.payload.now ≤ 9216) }
{
    if bytes.len() < 14 {
        return Err(Skip::Malformed);
    }
    match untagged(Order::Big.number16(bytes, 12), &bytes[14..]) {
        Ok(carried) => read_typed(carried.kind, carried.bytes),
        Err(skip) => Err(skip),
    }
}

// Passes over VLAN tags: two bytes of the tag and a new EtherType each.
fn untagged(mut kind: u16, mut bytes: &[u8]) -> Result<Carried<'_>, Skip>
    ensures { inner_of result ≡ untagged_of kind bytes.entry.now }
{
    while is_tag(kind) {
        match bytes {
            [_, _, high, low, behind @ ..] => {
                kind = u16::from(*high) * 256 + u16::from(*low);
                bytes = behind;
            }
            _ => return Err(Skip::Malformed),
        }
    }
    Ok(Carried { kind, bytes })
}

fn is_tag(kind: u16) -> bool
    ensures { result ≡ tag_test kind }
{
    kind == TYPE_TAG || kind == TYPE_SERVICE_TAG
}

#[tactic(auto, unfolding(crate::specs::Datagrams::by_type))]
fn read_typed(kind: u16, bytes: &[u8]) -> Result<Datagram<'_>, Skip>
    ensures answer { sent result ≡ by_type kind bytes.now }
    ensures small { IfOk result (λ sent. length sent.payload.now ≤ 9216) }
{
    match kind {
        TYPE_IPV4 => read_ipv4(bytes),
        TYPE_IPV6 => read_ipv6(bytes),
        _ => Err(Skip::NotIp),
    }
}
