//! A session.
ghost use Rattle.std.specs.Prelude.{◌≡◌, ◌+◌, ◌<◌, ◌≤◌, ◌^◌, List, [], ◌∷◌, length, map, is_ok, if◌then◌else◌, option_map, Err, IfOk, OnOk, OnErr, IsErr};
ghost use Rattle.rtcp_wire.specs.Answers.{Gives};
ghost use Rattle.rtcp_wire.specs.Compound.{compound_of};
ghost use Rattle.source_table.specs.Table.{name_of};
ghost use Rattle.front_model.specs.Given.{Setting, Given, Rtp, Report, asks, table};
ghost use Rattle.front_model.specs.Notes.{notes};
ghost use Rattle.front_model.specs.Probation.{kept_at, answer as heard_as};
ghost use Rattle.front_model.specs.Reports.{nack_bytes as nacks_of};
ghost use Rattle.rtp_session.specs.Answers.{out_notes, cause_in, cause_of, told, compound_notes, report_notes};
ghost use Rattle.rtp_session.specs.Standing.{setting, is_want_of_memory, StandsFor, StandsAfter, HasFailed};

use crate::answers::{Reported, SessionNote, SessionOut};
use crate::compound::hear_compound;
use crate::hearing::{hear, is_quick};
use crate::held::{Runs, forget, take_packet};
use crate::outgoing::{nack_bytes, report_bytes};
use front_model::laws::removed_sources_are_named;
use indexmap::{IndexMap, IndexSet};
use rtcp_wire::{RtcpFault, read_compound};
use rtp_units::{Address, Blob, OutOfMemory};
use rtp_wire::RtpView;
use source_table::SourceTable;
use std::alloc::Global;
use std::marker::Model;

fn wants_memory(fault: RtcpFault) -> bool
    ensures { result ≡ is_want_of_memory fault }
{
    matches!(fault, RtcpFault::OutOfMemory)
}

/// The sources of one session, and the packets of those that are not valid yet. Its times are
/// nanoseconds. After want of memory in `rtp`, `rtcp` or `report`, these three answer it again.
#[derive(Drop)]
pub struct Session {
    own: u32,
    quick: IndexSet<u32>,
    heard: u64,
    failed: bool,
    sources: SourceTable,
    held: Runs,
}

impl Model for Session {
    ghost use Rattle.std.specs.Prelude.{◌≡◌, ◌≤◌, false};
    ghost use Rattle.rtp_session.specs.Standing.{State};

    ghost Value = { State };

    ghost view = { λ x. record {
      own = x.own;
      heard = x.heard;
      failed = x.failed;
      holding = record { quick = x.quick.keys; sources = x.sources; held = x.held.entries };
    } };

    ghost invariant = { λ x. x.failed ≡ false → x.sources.heard ≤ x.heard };
}

impl Session {
    /// A session with this SSRC of its own. A source is valid once so many packets had consecutive
    /// numbers; 0 and 1 mean at once, and so does an SSRC in `quick`.
    pub fn new(
        alloc: Global,
        own: u32,
        probation: u8,
        quick: &[u32],
    ) -> Result<Session, OutOfMemory>
        ensures heard { IfOk result (λ x. x.heard ≡ 0) }
        ensures stands { IfOk result (λ x. StandsFor x (setting own probation quick.now) []) }
    {
        let mut known = IndexSet::new(alloc);
        for ssrc in quick {
            known.insert(*ssrc)?;
        }
        Ok(Session {
            own,
            quick: known,
            heard: 0,
            failed: false,
            sources: SourceTable::new(alloc, own, probation)?,
            held: IndexMap::new(alloc),
        })
    }

    /// Takes a packet of RTP, of at most 65,535 bytes, that came from this address at `now`. `rate` is the
    /// clock rate of its payload type, where one is known.
    pub fn rtp(
        &mut self,
        alloc: Global,
        now: u64,
        from: Address,
        view: &RtpView<'_>,
        rate: Option<u32>,
    ) -> Result<SessionOut, OutOfMemory>
        requires few { self.old.heard < 2 ^ 40 }
        requires size { length view.now.bytes ≤ 65535 }
        // What the answer tells is what is defined after all that was given before.
        ensures answer { (s : Setting) (older : List Given) → StandsFor self.old s older
            → IfOk result (λ out.
            out_notes (kept_at now view.now) out ≡ notes s older (Rtp now from view.now rate)) }
        ensures cause { (s : Setting) (older : List Given) → StandsFor self.old s older
            → IfOk result (λ out.
            cause_in out ≡ cause_of (heard_as s (asks older) now from view.now rate)) }
        ensures stands { (s : Setting) (older : List Given) → StandsFor self.old s older
            → OnOk result (StandsFor self.new s (Rtp now from view.now rate ∷ older)) }
        // Want of memory is answered from then on.
        ensures fails { OnErr result (HasFailed self.new) }
        ensures again { HasFailed self.old → IsErr result }
        ensures own { self.new.own ≡ self.old.own }
        ensures heard { self.new.heard ≡ self.old.heard + (if is_ok result then 1 else 0) }
    {
        if self.failed {
            return Err(OutOfMemory);
        }
        // It stays so if memory is refused on the way.
        self.failed = true;
        let quick = is_quick(&self.quick, view.ssrc());
        let answer = hear(&mut self.sources, now, from, view, rate, quick)?;
        let out = take_packet(alloc, &mut self.held, now, view, answer)?;
        self.failed = false;
        self.heard += 1;
        Ok(out)
    }

    /// Takes a datagram of RTCP that came at `now`. The names in it are told first, then the rest in its
    /// order. After a fault other than want of memory nothing was heard of it.
    pub fn rtcp(
        &mut self,
        alloc: Global,
        now: u64,
        bytes: &[u8],
    ) -> Result<Vec<SessionNote>, RtcpFault>
        ensures answer { (s : Setting) (older : List Given) → StandsFor self.old s older
            → Gives (λ notes. map told notes.items) result
            (compound_notes s older now (compound_of bytes.now)) }
        ensures stands { (s : Setting) (older : List Given) → StandsFor self.old s older
            → StandsAfter self.new s older now (compound_of bytes.now) result }
        // Want of memory is answered from then on.
        ensures fails { result ≡ Err RtcpFault.OutOfMemory → HasFailed self.new }
        ensures again { HasFailed self.old → result ≡ Err RtcpFault.OutOfMemory }
        ensures own { self.new.own ≡ self.old.own }
        ensures heard { self.new.heard ≡ self.old.heard }
    {
        if self.failed {
            return Err(RtcpFault::OutOfMemory);
        }
        let packets = match read_compound(alloc, bytes) {
            Ok(packets) => packets,
            Err(fault) => {
                self.failed = wants_memory(fault);
                return Err(fault);
            }
        };
        // It stays so if memory is refused on the way.
        self.failed = true;
        let notes = hear_compound(alloc, &mut self.sources, now, packets.as_slice())?;
        self.failed = false;
        Ok(notes)
    }

    /// The name of a source, where it is kept and has one. After want of memory this is left open.
    pub fn cname(&self, ssrc: u32) -> Option<&[u8]>
        ensures { (s : Setting) (older : List Given) → StandsFor self.now s older
            → option_map (λ text. text.now) result ≡ name_of (table s (asks older)) ssrc }
    {
        self.sources.cname(ssrc)
    }

    /// How often `rtp` answered Ok.
    pub fn heard(&self) -> u64
        ensures { result ≡ self.now.heard }
    {
        self.heard
    }

    /// A report time: the sources that said BYE, or whose last packet of RTP or sender report came more
    /// than `timeout` before `now`, are removed, and the others are reported.
    pub fn report(&mut self, alloc: Global, now: u64, timeout: u64) -> Result<Reported, OutOfMemory>
        ensures answer { (s : Setting) (older : List Given) → StandsFor self.old s older
            → IfOk result (λ reported. report_notes reported ≡ notes s older (Report now timeout)) }
        ensures stands { (s : Setting) (older : List Given) → StandsFor self.old s older
            → OnOk result (StandsFor self.new s (Report now timeout ∷ older)) }
        // Want of memory is answered from then on.
        ensures fails { OnErr result (HasFailed self.new) }
        ensures again { HasFailed self.old → IsErr result }
        ensures own { self.new.own ≡ self.old.own }
        ensures heard { self.new.heard ≡ self.old.heard }
    {
        if self.failed {
            return Err(OutOfMemory);
        }
        // A law for the proof; the call does nothing.
        removed_sources_are_named();
        // It stays so if memory is refused on the way.
        self.failed = true;
        let gone = self.sources.expire(alloc, now, timeout)?;
        forget(&mut self.held, gone.as_slice());
        let blocks = self.sources.blocks(alloc, now)?;
        let bytes = report_bytes(alloc, self.own, blocks.as_slice())?;
        self.failed = false;
        Ok(Reported { gone, bytes })
    }

    /// The bytes of a generic NACK for these numbers of a stream, at most 8,192.
    pub fn nack(&self, alloc: Global, media: u32, numbers: &[u16]) -> Result<Blob, OutOfMemory>
        requires { length numbers.now ≤ 8192 }
        ensures { IfOk result (λ bytes. bytes ≡ nacks_of self.now.own media numbers.now) }
    {
        nack_bytes(alloc, self.own, media, numbers)
    }
}
