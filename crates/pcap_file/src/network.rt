//! IP packets, and the UDP datagrams in them.
ghost use Rattle.std.specs.Prelude.{◌≡◌, ◌+◌, ◌≤◌, ◌++◌, length, replicate, IfOk};
ghost use Rattle.pcap_file.specs.Datagrams.{sent, inner_of, ipv4, ipv6, udp, behind_extensions as behind_extensions_of, is_extension as extension_test, is_fragment as fragment_test, widened, upper};

use crate::order::Order;
use crate::udp::{Datagram, Skip};
use rtp_units::Address;

/// The longest payload that is taken.
const MAX_PAYLOAD: usize = 9_216;

// Protocol numbers, which IPv6 writes for its extension headers too.
const HOP_BY_HOP: u16 = 0;

const UDP: u16 = 17;

const ROUTING: u16 = 43;

const FRAGMENT: u16 = 44;

const DESTINATION: u16 = 60;

/// What stands behind headers: its type and its bytes.
#[derive(Clone, Copy)]
pub(crate) struct Carried<'a> {
    pub kind: u16,
    pub bytes: &'a [u8],
}

/// Reads an IPv4 packet. Bytes past its total length are dropped, and its options are passed over.
#[tactic(auto, unfolding(crate::specs::Datagrams::ipv4))]
pub(crate) fn read_ipv4(bytes: &[u8]) -> Result<Datagram<'_>, Skip>
    ensures answer { sent result ≡ ipv4 bytes.now }
    ensures small { IfOk result (λ sent. length sent.payload.now ≤ 9216) }
{
    if bytes.len() < 20 || bytes[0] / 16 != 4 {
        return Err(Skip::Malformed);
    }
    let header = 4 * usize::from(bytes[0] % 16);
    let total = usize::from(Order::Big.number16(bytes, 2));
    if header < 20 || total < header || bytes.len() < total {
        return Err(Skip::Malformed);
    }
    if is_fragment(bytes) {
        return Err(Skip::Fragment);
    }
    if u16::from(bytes[9]) != UDP {
        return Err(Skip::NotUdp);
    }
    let from = widened_address(&bytes[12..16]);
    let to = widened_address(&bytes[16..20]);
    read_udp(4, from, to, &bytes[header..total])
}

// More fragments follow, or this isn't the first one.
fn is_fragment(bytes: &[u8]) -> bool
    requires { 20 ≤ length bytes.now }
    ensures { result ≡ fragment_test bytes.now }
{
    let fragment = Order::Big.number16(bytes, 6);
    fragment / 8192 % 2 == 1 || fragment % 8192 > 0
}

fn widened_address(ip: &[u8]) -> [u8; 16]
    requires { length ip.now ≡ 4 }
    ensures { result ≡ widened ip.now }
{
    let mut wide = [0; 16];
    wide[..4].copy_from_slice(ip);
    wide
}

fn address_of(ip: &[u8]) -> [u8; 16]
    requires { length ip.now ≡ 16 }
    ensures { result ≡ ip.now }
{
    let mut address = [0; 16];
    address.copy_from_slice(ip);
    address
}

/// Reads an IPv6 packet. Bytes past its payload length are dropped, and hop-by-hop options, routing headers
/// and destination options are passed over.
#[tactic(auto, unfolding(crate::specs::Datagrams::ipv6))]
pub(crate) fn read_ipv6(bytes: &[u8]) -> Result<Datagram<'_>, Skip>
    ensures answer { sent result ≡ ipv6 bytes.now }
    ensures small { IfOk result (λ sent. length sent.payload.now ≤ 9216) }
{
    if bytes.len() < 40 || bytes[0] / 16 != 6 {
        return Err(Skip::Malformed);
    }
    let end = 40 + usize::from(Order::Big.number16(bytes, 4));
    if bytes.len() < end {
        return Err(Skip::Malformed);
    }
    match behind_extensions(u16::from(bytes[6]), &bytes[40..end]) {
        Ok(carried) => {
            let from = address_of(&bytes[8..24]);
            let to = address_of(&bytes[24..40]);
            read_upper(from, to, carried.kind, carried.bytes)
        }
        Err(skip) => Err(skip),
    }
}

// What stands behind the extension headers of an IPv6 packet.
fn read_upper(from: [u8; 16], to: [u8; 16], kind: u16, bytes: &[u8]) -> Result<Datagram<'_>, Skip>
    ensures answer { sent result ≡ upper from to (Ok (record { kind = kind; bytes = bytes.now })) }
    ensures small { IfOk result (λ sent. length sent.payload.now ≤ 9216) }
{
    match kind {
        FRAGMENT => Err(Skip::Fragment),
        UDP => read_udp(6, from, to, bytes),
        _ => Err(Skip::NotUdp),
    }
}

// Passes over extension headers.
fn behind_extensions(mut kind: u16, mut bytes: &[u8]) -> Result<Carried<'_>, Skip>
    ensures { inner_of result
        ≡ behind_extensions_of (length bytes.entry.now + 1) kind bytes.entry.now }
{
    while is_extension(kind) {
        if bytes.len() < 2 {
            return Err(Skip::Malformed);
        }
        let size = (usize::from(bytes[1]) + 1) * 8;
        if bytes.len() < size {
            return Err(Skip::Malformed);
        }
        kind = u16::from(bytes[0]);
        bytes = &bytes[size..];
    }
    Ok(Carried { kind, bytes })
}

fn is_extension(kind: u16) -> bool
    ensures { result ≡ extension_test kind }
{
    kind == HOP_BY_HOP || kind == ROUTING || kind == DESTINATION
}

// Reads a UDP datagram. Bytes past its length are dropped.
#[tactic(auto, unfolding(crate::specs::Datagrams::udp))]
fn read_udp(family: u8, from: [u8; 16], to: [u8; 16], bytes: &[u8]) -> Result<Datagram<'_>, Skip>
    ensures answer { sent result ≡ udp family from to bytes.now }
    ensures small { IfOk result (λ sent. length sent.payload.now ≤ 9216) }
{
    if bytes.len() < 8 {
        return Err(Skip::Malformed);
    }
    let size = usize::from(Order::Big.number16(bytes, 4));
    if size < 8 || bytes.len() < size {
        return Err(Skip::Malformed);
    }
    if size - 8 > MAX_PAYLOAD {
        return Err(Skip::Big);
    }
    let source = Order::Big.number16(bytes, 0);
    let destination = Order::Big.number16(bytes, 2);
    Ok(Datagram {
        from: address(family, from, source),
        to: address(family, to, destination),
        payload: &bytes[8..size],
    })
}

fn address(family: u8, ip: [u8; 16], port: u16) -> Address
    ensures { result ≡ record { family = family; ip = ip; port = port } }
{
    Address { family, ip, port }
}
