//! The way of what comes: a record's packet to its session, and on to the lanes.
ghost use Rattle.std.specs.Prelude.{◌≡◌, ◌+◌, ◌<◌, ◌≤◌, ◌++◌, ◌∷◌, [], ℕ, List, length, option_map};
ghost use Rattle.std.specs.Prelude.{OnOk, IfOk, IsSome, find};
ghost use Rattle.std.specs.List.{flat_map};
ghost use Rattle.pcap_file.specs.Datagrams.{Sent};
ghost use Rattle.pcap_file.specs.Reading.{record_view};
ghost use Rattle.script_lang.specs.Contents.{Contents};
ghost use Rattle.rtx.specs.Requests.{request};
ghost use Rattle.rtcp_wire.specs.Compound.{compound_of};
ghost use Rattle.front_model.specs.Events.{FrontEvent, ReportsDue, Requested, records};
ghost use Rattle.front_model.specs.Records.{Packet, compound_in, datagram_in, payload_in};
ghost use Rattle.front_model.specs.Records.{holding, is_to};
ghost use Rattle.front_model.specs.Records.{is_rtcp as is_rtcp_by};
ghost use Rattle.front_model.specs.Sessions.{cname as cname_of};
ghost use Rattle.front_model.specs.Steps.{steps as steps_of};
ghost use Rattle.front_model.specs.declared.Step.TheVariants.{Tell};
ghost use Rattle.timeline.specs.declared.line.BinLine.TheVariants.{Skip, Bad};
ghost use Rattle.rtp_front.specs.Sessions.{session_at, HeardAtMost};
ghost use Rattle.rtp_front.specs.Standing.{StandsIn, TakesHolding, sent_as};
ghost use Rattle.timeline.specs.Words.{rtp_word as word_of};

use crate::choices::Choices;
use crate::notes::{take_heard, take_notes, tell_bad_compound};
use crate::reports::report_all;
use crate::sessions::{Sessions, cname_in, hear_compound, hear_packet, sessions_of};
use crate::streams::Streams;
use front_model::Step;
use pcap_file::{Datagram, PcapRecord, datagram};
use rtp_units::{Address, OutOfMemory};
use rtp_wire::laws::packets_are_their_bytes;
use rtp_wire::{RtpFault, RtpView, read};
use script_lang::{Script, SessionLine};
use std::alloc::Global;
use std::marker::Model;
use timeline::{BinLine, Word, rtp_word, skip_word};

/// The first and the last second byte of RTCP, on a port that both kinds share (RFC 5761).
const RTCP_FIRST: u8 = 192;

const RTCP_LAST: u8 = 223;

/// The sessions of a script, and the way of their packets to the lanes, while memory serves.
#[derive(Drop)]
pub(crate) struct Intake {
    choices: Choices,
    own: u32,
    timeout: u64,
    sessions: Sessions,
    streams: Streams,
}

impl Model for Intake {
    ghost use Rattle.rtp_front.specs.Standing.{IntakeState, HasScript};

    ghost Value = { IntakeState };

    ghost view = { λ x. record {
      chosen = x.choices;
      own = x.own;
      timeout = x.timeout;
      sessions = x.sessions.entries;
      streams = x.streams;
    } };

    ghost invariant = { λ x. HasScript x.choices x.sessions.entries };
}

impl Intake {
    /// What takes in what comes, before anything came.
    pub(crate) fn new(alloc: Global, script: &Script) -> Result<Intake, OutOfMemory>
        ensures stands { IfOk result (λ x. StandsIn x script.now []) }
        ensures heard { IfOk result (λ x. HeardAtMost 0 x.sessions) }
    {
        let choices = Choices::of(alloc, script)?;
        let sessions = sessions_of(alloc, script)?;
        let streams = Streams::new(alloc, script)?;
        Ok(Intake {
            choices,
            own: script.settings.ssrc,
            timeout: script.settings.timeout,
            sessions,
            streams,
        })
    }

    /// The SSRC from which the sessions send.
    pub(crate) fn own(&self) -> u32
        ensures { result ≡ self.now.own }
    {
        self.own
    }

    /// The CNAME of a source of a session, where it is kept and has one.
    pub(crate) fn cname(&self, session: u8, ssrc: u32) -> Option<&[u8]>
        ensures { (c : Contents) (events : List FrontEvent) → StandsIn self.now c events
            → option_map (λ text. text.now) result ≡ cname_of c events session ssrc }
    {
        cname_in(&self.sessions, session, ssrc)
    }

    /// Takes the record behind the `taken` ones before it.
    pub(crate) fn take_record(
        &mut self,
        alloc: Global,
        time: u64,
        link: u16,
        captured: &PcapRecord,
        taken: u64,
        steps: &mut Vec<Step>,
    ) -> Result<(), OutOfMemory>
        requires few { taken < 100000000 }
        requires heard { HeardAtMost taken self.old.sessions }
        ensures takes { (c : Contents) (older : List FrontEvent) → StandsIn self.old c older
            → taken ≡ records older
            → OnOk result (TakesHolding c time older
            (holding c.sessions (record_view link captured.now))
            steps.old.items steps.new.items self.new) }
        ensures heard { HeardAtMost (taken + 1) self.new.sessions }
    {
        match datagram(link, captured) {
            Ok(datagram) => self.take_datagram(alloc, time, &datagram, taken, steps),
            Err(skip) => pass_over(time, taken, skip_word(skip), steps),
        }
    }

    fn take_datagram(
        &mut self,
        alloc: Global,
        time: u64,
        datagram: &Datagram<'_>,
        taken: u64,
        steps: &mut Vec<Step>,
    ) -> Result<(), OutOfMemory>
        requires few { taken < 100000000 }
        requires heard { HeardAtMost taken self.old.sessions }
        requires small { length datagram.now.payload.now ≤ 9216 }
        ensures takes { (c : Contents) (older : List FrontEvent) → StandsIn self.old c older
            → taken ≡ records older
            → OnOk result (TakesHolding c time older
            (datagram_in (find (is_to datagram.now.to.port) c.sessions) (sent_as datagram.now))
            steps.old.items steps.new.items self.new) }
        ensures heard { HeardAtMost (taken + 1) self.new.sessions }
    {
        match self.choices.session_at(datagram.to.port) {
            Some(line) => self.take_payload(alloc, time, &line, datagram, steps),
            None => pass_over(time, taken, Word::Port, steps),
        }
    }

    /// Takes a datagram to a port of this session.
    fn take_payload(
        &mut self,
        alloc: Global,
        time: u64,
        line: &SessionLine,
        datagram: &Datagram<'_>,
        steps: &mut Vec<Step>,
    ) -> Result<(), OutOfMemory>
        requires kept { IsSome (session_at self.old.sessions line.now.session) }
        requires few { HeardAtMost 100000000 self.old.sessions }
        requires small { length datagram.now.payload.now ≤ 9216 }
        ensures takes { (c : Contents) (older : List FrontEvent) → StandsIn self.old c older
            → OnOk result (TakesHolding c time older
            (payload_in line.now (sent_as datagram.now))
            steps.old.items steps.new.items self.new) }
        ensures heard { (n : ℕ) → HeardAtMost n self.old.sessions
            → HeardAtMost (n + 1) self.new.sessions }
    {
        if is_rtcp(line, datagram.to.port, datagram.payload) {
            return self.take_compound(alloc, time, line.session, datagram.payload, steps);
        }
        // A law for the proof; the call does nothing.
        packets_are_their_bytes();
        match read(datagram.payload) {
            Ok(view) => self.take_packet(alloc, time, line.session, datagram.from, &view, steps),
            Err(fault) => tell_bad_packet(time, line.session, fault, steps),
        }
    }

    fn take_packet(
        &mut self,
        alloc: Global,
        time: u64,
        session: u8,
        from: Address,
        view: &RtpView<'_>,
        steps: &mut Vec<Step>,
    ) -> Result<(), OutOfMemory>
        requires kept { IsSome (session_at self.old.sessions session) }
        requires few { HeardAtMost 100000000 self.old.sessions }
        requires size { length view.now.bytes ≤ 65535 }
        ensures takes { (c : Contents) (older : List FrontEvent) → StandsIn self.old c older
            → OnOk result (TakesHolding c time older (Packet session from view.now)
            steps.old.items steps.new.items self.new) }
        ensures heard { (n : ℕ) → HeardAtMost n self.old.sessions
            → HeardAtMost (n + 1) self.new.sessions }
    {
        let rate = self.choices.rate(session, view.pt());
        let heard = hear_packet(alloc, &mut self.sessions, session, time, from, view, rate)?;
        take_heard(
            alloc,
            &self.choices,
            &mut self.streams,
            time,
            session,
            view,
            heard,
            steps,
        )
    }

    fn take_compound(
        &mut self,
        alloc: Global,
        time: u64,
        session: u8,
        bytes: &[u8],
        steps: &mut Vec<Step>,
    ) -> Result<(), OutOfMemory>
        requires { IsSome (session_at self.old.sessions session) }
        ensures takes { (c : Contents) (older : List FrontEvent) → StandsIn self.old c older
            → OnOk result (TakesHolding c time older (compound_in session (compound_of bytes.now))
            steps.old.items steps.new.items self.new) }
        ensures heard { (n : ℕ) → HeardAtMost n self.old.sessions
            → HeardAtMost n self.new.sessions }
    {
        match hear_compound(alloc, &mut self.sessions, session, time, bytes) {
            Ok(notes) => take_notes(&mut self.streams, time, session, notes, steps),
            Err(fault) => tell_bad_compound(time, session, fault, steps),
        }
    }

    /// A report time of all sessions, which come in the order of their numbers.
    pub(crate) fn report(
        &mut self,
        alloc: Global,
        time: u64,
        steps: &mut Vec<Step>,
    ) -> Result<(), OutOfMemory>
        ensures steps { (c : Contents) (older : List FrontEvent) → StandsIn self.old c older
            → OnOk result
            (steps.new.items ≡ steps.old.items ++ steps_of c older (ReportsDue time)) }
        ensures stands { (c : Contents) (older : List FrontEvent) → StandsIn self.old c older
            → OnOk result (StandsIn self.new c (ReportsDue time ∷ older)) }
        ensures heard { (n : ℕ) → HeardAtMost n self.old.sessions
            → HeardAtMost n self.new.sessions }
    {
        report_all(alloc, &mut self.sessions, time, self.timeout, steps)
    }

    /// Notes a number that a lane asked for again.
    pub(crate) fn note_request(&mut self, session: u8, ssrc: u32, seq: u16)
        ensures stands { (c : Contents) (older : List FrontEvent) → StandsIn self.old c older
            → StandsIn self.new c (Requested (request session ssrc seq) ∷ older) }
        ensures sessions { self.new.sessions ≡ self.old.sessions }
    {
        self.streams.note_request(session, ssrc, seq);
    }
}

/// Tells that the record behind the `taken` ones has no datagram of a session.
fn pass_over(time: u64, taken: u64, reason: Word, steps: &mut Vec<Step>) -> Result<(), OutOfMemory>
    requires { taken < 100000000 }
    ensures { OnOk result (steps.new.items ≡ steps.old.items
        ++ Tell (Skip time (taken + 1) reason) ∷ []) }
{
    steps.push(Step::Tell(BinLine::Skip {
        time,
        record: taken + 1,
        reason,
    }))?;
    Ok(())
}

/// Tells why a payload is no packet of RTP.
fn tell_bad_packet(
    time: u64,
    session: u8,
    fault: RtpFault,
    steps: &mut Vec<Step>,
) -> Result<(), OutOfMemory>
    ensures { OnOk result (steps.new.items ≡ steps.old.items
        ++ Tell (Bad time session (word_of fault)) ∷ []) }
{
    steps.push(Step::Tell(BinLine::Bad {
        time,
        session,
        word: rtp_word(fault),
    }))?;
    Ok(())
}

/// Whether a datagram to this port of this session carries RTCP.
fn is_rtcp(line: &SessionLine, port: u16, payload: &[u8]) -> bool
    ensures { (sent : Sent) → sent.to.port ≡ port → sent.payload ≡ payload.now
        → result ≡ is_rtcp_by line.now sent }
{
    if line.rtp != line.rtcp {
        return port == line.rtcp;
    }
    match payload.get(1) {
        Some(kind) => RTCP_FIRST <= *kind && *kind <= RTCP_LAST,
        None => false,
    }
}
