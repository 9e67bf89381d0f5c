//! Remembering and answering.
ghost use Rattle.std.specs.Prelude.{◌≡◌, [], List, IfOk, OnErr};
ghost use Rattle.rtx.specs.Pairs.{AreTypes};
ghost use Rattle.rtx.specs.Sending.{Setting, setting_of};
ghost use Rattle.rtx.specs.Answering.{Call, Remembers, Answers, StandsFor, IsAnswer, IsRemembered, calls_after};

use crate::answers::Retransmission;
use crate::map::Map;
use crate::outlet::{outlet_for, retransmission_bytes};
use crate::sent::SentPacket;
use crate::streams::{Stream, Streams, add_packet, add_stream, count_on, latest, next_number};
use indexmap::IndexMap;
use rtp_units::OutOfMemory;
use rtp_wire::RtpView;
use std::alloc::Global;
use std::marker::Model;

/// The most streams that are remembered.
const MAX_STREAMS: usize = 64;

/// The packets that were sent last, and the retransmissions of them (RFC 4588, section 4). Contracts see
/// its setting, the streams with their last packets, and the next number of each retransmission stream.
#[derive(Drop)]
pub struct History {
    per_stream: u16,
    map: Map,
    streams: Streams,
    numbers: IndexMap<Stream, u16>,
}

impl Model for History {
    ghost use Rattle.rtx.specs.Sending.{Sending, setting};
    ghost use Rattle.rtx.specs.Pairs.{AreTypes};

    ghost Value = { Sending };

    ghost view = { λ h. record {
      setting = setting h.per_stream h.map.lines.items h.map.fids.items;
      streams =
          h.streams.entries;
      numbers = h.numbers.entries;
    } };

    ghost invariant = { λ h. AreTypes h.map.lines.items };
}

impl History {
    /// A history that remembers the last `per_stream` packets of each of at most 64 streams. The payload
    /// types of the map are below 128.
    pub fn new(alloc: Global, per_stream: u16, map: &Map) -> Result<History, OutOfMemory>
        requires { AreTypes map.now.lines.items }
        ensures { IfOk result (λ h. StandsFor h (setting_of per_stream map.now) []) }
    {
        Ok(History {
            per_stream,
            map: map.copy(alloc)?,
            streams: IndexMap::with_capacity(alloc, MAX_STREAMS)?,
            numbers: IndexMap::with_capacity(alloc, 0)?,
        })
    }

    /// Remembers a packet of this session. False where its stream is new and 64 are remembered. After a
    /// refusal all is as before.
    pub fn remember(
        &mut self,
        alloc: Global,
        session: u8,
        view: &RtpView<'_>,
    ) -> Result<bool, OutOfMemory>
        ensures answer { (setting : Setting) (calls : List Call) → StandsFor self.old setting calls
            → IfOk result (IsRemembered calls (session, view.now.ssrc)) }
        ensures stands { (setting : Setting) (calls : List Call) → StandsFor self.old setting calls
            → StandsFor self.new setting (calls_after (Remembers session view.now) calls result) }
        ensures err { OnErr result (self.new ≡ self.old) }
    {
        let stream = (session, view.ssrc());
        if self.streams.contains_key(&stream) {
            let sent = SentPacket::copy_of(alloc, view)?;
            add_packet(&mut self.streams, stream, sent);
            return Ok(true);
        }
        if self.streams.len() >= MAX_STREAMS {
            return Ok(false);
        }
        let sent = SentPacket::copy_of(alloc, view)?;
        add_stream(alloc, &mut self.streams, stream, self.per_stream, sent)?;
        Ok(true)
    }

    /// A retransmission of the latest remembered packet with this number of a stream of this session, where
    /// there is such a packet, its payload type is retransmitted, and it is known in which stream. The
    /// numbers of each retransmission stream count from 0, modulo 2^16. After a refusal all is as before.
    pub fn answer(
        &mut self,
        alloc: Global,
        session: u8,
        ssrc: u32,
        seq: u16,
    ) -> Result<Option<Retransmission>, OutOfMemory>
        ensures answer { (setting : Setting) (calls : List Call) → StandsFor self.old setting calls
            → IsAnswer setting calls session ssrc seq result }
        ensures stands { (setting : Setting) (calls : List Call) → StandsFor self.old setting calls
            → StandsFor self.new setting (calls_after (Answers session ssrc seq) calls result) }
        ensures err { OnErr result (self.new ≡ self.old) }
    {
        let Some(sent) = latest(&self.streams, (session, ssrc), seq) else {
            return Ok(None);
        };
        let view = sent.view();
        let Some(outlet) = outlet_for(&self.map, session, ssrc, view.pt()) else {
            return Ok(None);
        };
        let stream = (outlet.session, outlet.ssrc);
        let number = next_number(&self.numbers, stream);
        let bytes = retransmission_bytes(alloc, &outlet, number, &view)?;
        count_on(&mut self.numbers, stream, number)?;
        Ok(Some(Retransmission {
            session: outlet.session,
            bytes,
        }))
    }
}
