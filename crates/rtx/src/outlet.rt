//! Where packets are retransmitted, and the bytes of retransmissions.
ghost use Rattle.std.specs.Prelude.{◌≡◌, ◌<◌, IfOk, IfSome};
ghost use Rattle.rtp_wire.specs.Packet.{IsPacket};
ghost use Rattle.rtx.specs.Pairs.{AreTypes};
ghost use Rattle.rtx.specs.Sending.{outlet, outlet_of, rtx_ssrc_of, retransmission_packet, retransmission_spelling};

use crate::map::{Map, line_for, retransmission_ssrc};
use rtp_units::{Blob, Fid, OutOfMemory, RtxLine};
use rtp_wire::{RtpFields, RtpView, push_u16, write};
use std::alloc::Global;

/// The session, payload type and SSRC of retransmissions.
#[derive(Clone, Copy, Debug, Drop)]
pub struct Outlet {
    pub(crate) session: u8,
    pub(crate) pt: u8,
    pub(crate) ssrc: u32,
}

/// Where packets of this stream and payload type are retransmitted.
pub(crate) fn outlet_for(map: &Map, session: u8, ssrc: u32, pt: u8) -> Option<Outlet>
    requires { AreTypes map.now.lines.items }
    ensures value { result ≡ outlet_of map.now.lines.items map.now.fids.items session ssrc pt }
    ensures pt { IfSome result (λ o. o.pt < 128) }
{
    let line = line_for(map.lines.as_slice(), session, pt)?;
    let rtx_ssrc = rtx_ssrc_for(map.fids.as_slice(), &line, session, ssrc)?;
    Some(outlet_by(&line, rtx_ssrc))
}

fn outlet_by(line: &RtxLine, rtx_ssrc: u32) -> Outlet
    ensures { result ≡ outlet line.now rtx_ssrc }
{
    Outlet {
        session: line.session,
        pt: line.pt,
        ssrc: rtx_ssrc,
    }
}

fn rtx_ssrc_for(fids: &[Fid], line: &RtxLine, session: u8, ssrc: u32) -> Option<u32>
    ensures { result ≡ rtx_ssrc_of fids.now line.now session ssrc }
{
    if line.session == session {
        retransmission_ssrc(fids, session, ssrc)
    } else {
        Some(ssrc)
    }
}

/// The bytes of a retransmission: the packet's number, and then what it carries.
pub(crate) fn retransmission_bytes(
    alloc: Global,
    outlet: &Outlet,
    number: u16,
    packet: &RtpView<'_>,
) -> Result<Blob, OutOfMemory>
    requires { outlet.now.pt < 128 }
    ensures value { IfOk result (λ bytes. bytes
        ≡ retransmission_spelling outlet.now number packet.now) }
    ensures packet { IfOk result (λ bytes.
        IsPacket (retransmission_packet outlet.now number packet.now bytes)) }
{
    let mut payload = Vec::new(alloc);
    push_u16(&mut payload, packet.seq())?;
    payload.extend_from_slice(packet.payload())?;
    write(
        alloc,
        &RtpFields {
            marker: packet.marker(),
            pt: outlet.pt,
            seq: number,
            timestamp: packet.timestamp(),
            ssrc: outlet.ssrc,
            csrcs: packet.csrcs(),
            extension: packet.extension(),
            payload: payload.as_slice(),
        },
    )
}
