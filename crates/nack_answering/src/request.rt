//! What a record's NACKs ask for.
ghost use Rattle.std.specs.Prelude.{◌≡◌, ◌<◌, ◌++◌, IfOk, OnOk};
ghost use Rattle.std.specs.List.{flat_map};
ghost use Rattle.nack_answering.specs.Asking.{has_bit, following};
ghost use Rattle.nack_answering.specs.Asking.{bit_requests, entry_requests, packet_requests};

use rtcp_wire::{Nack, Rtcp};
use rtp_units::OutOfMemory;
use std::alloc::Global;

/// A request for a sequence number of a stream.
#[derive(Clone, Copy, Debug, PartialEq, Eq, Drop)]
pub struct Request {
    pub session: u8,
    pub ssrc: u32,
    pub seq: u16,
}

/// What the packets of a compound ask for, in order.
pub(crate) fn requests_of(
    alloc: Global,
    session: u8,
    packets: &[Rtcp],
) -> Result<Vec<Request>, OutOfMemory>
    ensures { IfOk result (λ requests.
        requests.items ≡ flat_map (packet_requests session) packets.now) }
{
    let mut requests = Vec::new(alloc);
    for packet in packets {
        add_packet(&mut requests, session, packet)?;
    }
    Ok(requests)
}

fn add_packet(requests: &mut Vec<Request>, session: u8, packet: &Rtcp) -> Result<(), OutOfMemory>
    ensures { OnOk result
        (requests.new.items ≡ requests.old.items ++ packet_requests session packet.now) }
{
    match packet {
        Rtcp::Nacks { media, list, .. } => add_entries(requests, session, *media, list.as_slice()),
        _ => Ok(()),
    }
}

fn add_entries(
    requests: &mut Vec<Request>,
    session: u8,
    media: u32,
    entries: &[Nack],
) -> Result<(), OutOfMemory>
    ensures { OnOk result (requests.new.items
        ≡ requests.old.items ++ flat_map (entry_requests session media) entries.now) }
{
    for entry in entries {
        add_entry(requests, session, media, *entry)?;
    }
    Ok(())
}

fn add_entry(
    requests: &mut Vec<Request>,
    session: u8,
    media: u32,
    entry: Nack,
) -> Result<(), OutOfMemory>
    ensures { OnOk result
        (requests.new.items ≡ requests.old.items ++ entry_requests session media entry) }
{
    requests.push(Request {
        session,
        ssrc: media,
        seq: entry.pid,
    })?;
    for bit in 0..16 {
        add_bit(requests, session, media, entry, bit)?;
    }
    Ok(())
}

// Asks for the number that this bit, the least being 0, stands for, where it is set.
fn add_bit(
    requests: &mut Vec<Request>,
    session: u8,
    media: u32,
    entry: Nack,
    bit: u16,
) -> Result<(), OutOfMemory>
    requires { bit < 16 }
    ensures { OnOk result
        (requests.new.items ≡ requests.old.items ++ bit_requests session media entry bit) }
{
    if has_bit_set(entry, bit) {
        requests.push(Request {
            session,
            ssrc: media,
            seq: number_behind(entry, bit),
        })?;
    }
    Ok(())
}

fn has_bit_set(entry: Nack, bit: u16) -> bool
    requires { bit < 16 }
    ensures { result ≡ has_bit entry bit }
{
    entry.blp >> bit & 1 == 1
}

fn number_behind(entry: Nack, bit: u16) -> u16
    requires { bit < 16 }
    ensures { result ≡ following entry bit }
{
    entry.pid.wrapping_add(bit + 1)
}
