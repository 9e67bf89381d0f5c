//! Restoring.
ghost use Rattle.std.specs.Prelude.{◌≡◌, ◌≤◌, ◌<◌, [], ◌∷◌, ◌++◌, List, length, IfOk, OnOk, IfSome};
ghost use Rattle.circular_buffer.specs.Buffer.{keep_last};
ghost use Rattle.rtp_wire.specs.Packet.{IsPacket};
ghost use Rattle.rtx.specs.Pairs.{AreTypes};
ghost use Rattle.rtx.specs.Requests.{request};
ghost use Rattle.rtx.specs.Restoring.{Setting, setting_of, receiving, found, stream_of, with_requests, restored_packet, restored_spelling, Restores};
ghost use Rattle.rtx.specs.Restored.{Call, Notes, Restoring, StandsFor, calls_after};

use crate::answers::{Restored, RtxFault};
use crate::map::{Map, line_of, original_ssrc};
use crate::requests::{
    Association, MAX_ASSOCIATIONS, Request, associate, associated_ssrc, oldest_other_request,
    oldest_request,
};
use arrayvec::ArrayVec;
use circular_buffer::HeapCircularBuffer;
use rtp_units::{Blob, OutOfMemory, RtxLine};
use rtp_wire::{RtpFields, RtpView, u16_at, write};
use std::alloc::Global;
use std::marker::Model;

/// The most requests that are kept.
const MAX_REQUESTS: usize = 1024;

/// How many bytes of a retransmission's payload are the original sequence number.
const NUMBER_SIZE: usize = 2;

/// What a retransmission carries: the session, payload type, stream and number of the original, and
/// whether its stream was found by a request.
#[derive(Clone, Copy, Debug, Drop)]
pub struct Original {
    pub(crate) session: u8,
    pub(crate) apt: u8,
    pub(crate) ssrc: u32,
    pub(crate) seq: u16,
    pub(crate) by_request: bool,
}

/// Restores the packets that retransmissions carry (RFC 4588, section 4). Contracts see its map, whether
/// streams are found by requests, the kept requests, the oldest first, and the associations in the order
/// in which they were made.
#[derive(Drop)]
pub struct Receiver {
    map: Map,
    by_request: bool,
    requests: HeapCircularBuffer<Request>,
    associations: ArrayVec<Association, MAX_ASSOCIATIONS>,
}

impl Model for Receiver {
    ghost use Rattle.std.specs.Prelude.{◌≡◌};
    ghost use Rattle.rtx.specs.Restoring.{Receiving, receiving, setting};
    ghost use Rattle.rtx.specs.Pairs.{AreTypes};

    ghost Value = { Receiving };

    ghost view = { λ r. receiving
        (setting r.map.lines.items r.map.fids.items r.by_request) r.requests.items
        r.associations.items };

    ghost invariant = { λ r. AreTypes r.map.lines.items × (r.requests.capacity ≡ 1024) };
}

impl Receiver {
    /// A receiver with this map, whose payload types are below 128. With `by_request` a retransmission
    /// stream that the map pairs with none is associated with the stream that asked for the number which it
    /// carries.
    pub fn new(alloc: Global, map: &Map, by_request: bool) -> Result<Receiver, OutOfMemory>
        requires { AreTypes map.now.lines.items }
        ensures new { IfOk result (λ r. r ≡ receiving (setting_of map.now by_request) [] []) }
        ensures stands { IfOk result (λ r. StandsFor r (setting_of map.now by_request) []) }
    {
        Ok(Receiver {
            map: map.copy(alloc)?,
            by_request,
            requests: HeapCircularBuffer::with_capacity(alloc, MAX_REQUESTS)?,
            associations: ArrayVec::new(),
        })
    }

    /// Notes a request for a sequence number of a stream. The last 1,024 are kept.
    pub fn note_request(&mut self, session: u8, ssrc: u32, seq: u16)
        ensures after { self.new ≡ with_requests self.old
            (keep_last 1024 (self.old.requests ++ request session ssrc seq ∷ [])) }
        ensures stands { (setting : Setting) (calls : List Call) → StandsFor self.old setting calls
            → StandsFor self.new setting (Notes (request session ssrc seq) ∷ calls) }
    {
        self.requests.push_back(Request { session, ssrc, seq });
    }

    /// The packet that a retransmission of this session carries. After want of memory the receiver is as
    /// before.
    pub fn restore(
        &mut self,
        alloc: Global,
        session: u8,
        view: &RtpView<'_>,
    ) -> Result<Restored, RtxFault>
        ensures answer { Restores self.old session view.now result self.new }
        ensures stands { (setting : Setting) (calls : List Call) → StandsFor self.old setting calls
            → StandsFor self.new setting (calls_after (Restoring session view.now) calls result) }
    {
        let original = self.original(session, view)?;
        let bytes = match restored_bytes(alloc, &original, view) {
            Ok(bytes) => bytes,
            Err(_) => return Err(RtxFault::OutOfMemory),
        };
        if original.by_request {
            let association = Association {
                session,
                rtx_ssrc: view.ssrc(),
                ssrc: original.ssrc,
            };
            associate(&mut self.associations, association);
        }
        Ok(Restored {
            session: original.session,
            ssrc: original.ssrc,
            seq: original.seq,
            bytes,
        })
    }

    /// What a retransmission carries, or the first test that it fails.
    fn original(&self, session: u8, view: &RtpView<'_>) -> Result<Original, RtxFault>
        ensures value { result ≡ found self.now session view.now }
        ensures whole { OnOk result (2 ≤ length view.now.payload) }
        ensures apt { IfOk result (λ o. o.apt < 128) }
    {
        let payload = view.payload();
        if payload.len() < NUMBER_SIZE {
            return Err(RtxFault::Short);
        }
        let seq = u16_at(payload, 0);
        let Some(line) = line_of(self.map.lines.as_slice(), session, view.pt()) else {
            return Err(RtxFault::UnknownPt);
        };
        if let Some(ssrc) = self.stream(&line, view.ssrc()) {
            return Ok(original_by(&line, ssrc, seq, false));
        }
        if !self.by_request {
            return Err(RtxFault::UnknownSsrc);
        }
        let Some(first) = oldest_request(&self.requests, session, seq) else {
            return Err(RtxFault::UnknownSsrc);
        };
        match oldest_other_request(&self.requests, session, seq, first) {
            Some(second) => Err(RtxFault::Ambiguous { first, second }),
            None => Ok(original_by(&line, first, seq, true)),
        }
    }

    /// The original stream of a retransmission stream, where it is known without a request.
    fn stream(&self, line: &RtxLine, rtx_ssrc: u32) -> Option<u32>
        ensures { result ≡ stream_of self.now line.now rtx_ssrc }
    {
        if line.osession != line.session {
            return Some(rtx_ssrc);
        }
        match original_ssrc(self.map.fids.as_slice(), line.session, rtx_ssrc) {
            Some(ssrc) => Some(ssrc),
            None => associated_ssrc(self.associations.as_slice(), line.session, rtx_ssrc),
        }
    }
}

fn original_by(line: &RtxLine, ssrc: u32, seq: u16, by_request: bool) -> Original
    ensures { result ≡ record {
      session = line.now.osession;
      apt = line.now.apt;
      ssrc = ssrc;
      seq =
          seq;
      by_request = by_request;
    } }
{
    Original {
        session: line.osession,
        apt: line.apt,
        ssrc,
        seq,
        by_request,
    }
}

/// The bytes of the original: what the retransmission repeats, behind the original number.
fn restored_bytes(
    alloc: Global,
    original: &Original,
    view: &RtpView<'_>,
) -> Result<Blob, OutOfMemory>
    requires whole { 2 ≤ length view.now.payload }
    requires apt { original.now.apt < 128 }
    ensures value { IfOk result (λ bytes. bytes ≡ restored_spelling original.now view.now) }
    ensures packet { IfOk result (λ bytes. IsPacket (restored_packet original.now view.now bytes)) }
{
    let payload = view.payload();
    write(
        alloc,
        &RtpFields {
            marker: view.marker(),
            pt: original.apt,
            seq: original.seq,
            timestamp: view.timestamp(),
            ssrc: original.ssrc,
            csrcs: view.csrcs(),
            extension: view.extension(),
            payload: &payload[NUMBER_SIZE..],
        },
    )
}
