//! Remembering a capture's packets, and answering what its NACKs ask for.
ghost use Rattle.std.specs.Prelude.{◌≡◌, ◌<◌, ◌≤◌, ◌*◌, ◌^◌, [], ◌∷◌, ◌++◌, List, length};
ghost use Rattle.std.specs.Prelude.{IfOk, OnOk, find, option_map};
ghost use Rattle.std.specs.List.{flat_map};
ghost use Rattle.pcap_file.specs.Datagrams.{Sent};
ghost use Rattle.pcap_file.specs.Reading.{record_view};
ghost use Rattle.rtcp_wire.specs.Compound.{compound_of};
ghost use Rattle.rtp_wire.specs.Packet.{first_fault};
ghost use Rattle.rtx.specs.Answering.{Call, answered};
ghost use Rattle.front_model.specs.Records.{Holding, holding, datagram_in, is_to};
ghost use Rattle.front_model.specs.Records.{compound_in, packet_in, is_rtcp as is_rtcp_by};
ghost use Rattle.nack_answering.specs.Asking.{requests_in, asks_for};
ghost use Rattle.nack_answering.specs.Answering.{rules_of, answer_record, rtp_port};
ghost use Rattle.nack_answering.specs.Standing.{StandsFor, rules_in, remembered_in, sent_as};

use crate::request::{Request, requests_of};
use loopback_frame::loopback_frame;
use pcap_file::{Datagram, PcapRecord, datagram, record_bytes};
use rtcp_wire::{RtcpFault, read_compound};
use rtp_units::{Blob, OutOfMemory};
use rtp_wire::laws::packets_are_their_bytes;
use rtp_wire::read;
use rtx::laws::histories_have_one_answer;
use rtx::{History, Map, Retransmission};
use script_lang::{Script, SessionLine};
use std::alloc::Global;
use std::marker::Model;

/// The first and the last second byte of RTCP, on a port that both kinds share (RFC 5761).
const RTCP_FIRST: u8 = 192;

const RTCP_LAST: u8 = 223;

/// The sessions of a script, and the history of the packets that came to them.
#[derive(Drop)]
pub struct Answering {
    sessions: Vec<SessionLine>,
    history: History,
}

impl Model for Answering {
    ghost use Rattle.std.specs.Prelude.{List};
    ghost use Rattle.rtx.specs.Answering.{Call};
    ghost use Rattle.nack_answering.specs.Standing.{State, StandsFor};

    ghost Value = { State };

    ghost view = { λ x. record { sessions = x.sessions.items; history = x.history } };

    ghost invariant = { λ x. (calls : List Call)
        × StandsFor (record { sessions = x.sessions.items; history = x.history }) calls };
}

impl Answering {
    /// The sessions of a script, before any packet came.
    pub fn new(alloc: Global, script: &Script) -> Result<Answering, OutOfMemory>
        ensures rules { IfOk result (λ x. rules_in x ≡ rules_of script.now) }
        ensures stands { IfOk result (λ x. StandsFor x []) }
    {
        let map = Map {
            lines: Vec::from_slice(alloc, script.rtx.as_slice())?,
            fids: Vec::from_slice(alloc, script.fids.as_slice())?,
        };
        Ok(Answering {
            sessions: Vec::from_slice(alloc, script.sessions.as_slice())?,
            history: History::new(alloc, script.settings.history, &map)?,
        })
    }

    /// Remembers the packet of a record whose frame has this link type, or lists what the NACKs in
    /// it ask for. What cannot be read is passed over.
    pub fn take(
        &mut self,
        alloc: Global,
        link: u16,
        rec: &PcapRecord,
    ) -> Result<Vec<Request>, OutOfMemory>
        ensures rules { rules_in self.new ≡ rules_in self.old }
        ensures requests { IfOk result (λ requests. requests.items
            ≡ requests_in (holding self.old.sessions (record_view link rec.now))) }
        ensures stands { (calls : List Call) → StandsFor self.old calls
            → OnOk result (StandsFor self.new
            (remembered_in (holding self.old.sessions (record_view link rec.now)) ++ calls)) }
    {
        match datagram(link, rec) {
            Ok(datagram) => self.take_datagram(alloc, &datagram),
            Err(_) => Ok(Vec::new(alloc)),
        }
    }

    /// The record that answers a request at this time, in nanoseconds, if it is answered.
    pub fn answer(
        &mut self,
        alloc: Global,
        time: u64,
        request: Request,
    ) -> Result<Option<Blob>, OutOfMemory>
        requires { time < 2 ^ 32 * 1000000000 }
        ensures rules { rules_in self.new ≡ rules_in self.old }
        ensures answer { (calls : List Call) → StandsFor self.old calls
            → IfOk result (λ found. found
            ≡ option_map (answer_record self.old.sessions time)
            (answered self.old.history.setting calls request.session request.ssrc request.seq)) }
        ensures stands { (calls : List Call) → StandsFor self.old calls
            → OnOk result (StandsFor self.new (asks_for request ∷ calls)) }
    {
        // A law for the proof; the call does nothing.
        histories_have_one_answer();
        match self
            .history
            .answer(alloc, request.session, request.ssrc, request.seq)?
        {
            Some(retransmission) => {
                let record = self.record_of(alloc, time, &retransmission)?;
                Ok(Some(record))
            }
            None => Ok(None),
        }
    }

    fn take_datagram(
        &mut self,
        alloc: Global,
        datagram: &Datagram<'_>,
    ) -> Result<Vec<Request>, OutOfMemory>
        requires { length datagram.now.payload.now ≤ 9216 }
        ensures rules { rules_in self.new ≡ rules_in self.old }
        ensures requests { IfOk result (λ requests. requests.items ≡ requests_in (datagram_in
            (find (is_to datagram.now.to.port) self.old.sessions) (sent_as datagram.now))) }
        ensures stands { (calls : List Call) → StandsFor self.old calls
            → OnOk result (StandsFor self.new (remembered_in (datagram_in
            (find (is_to datagram.now.to.port) self.old.sessions) (sent_as datagram.now))
            ++ calls)) }
    {
        let Some(line) = self.session_at(datagram.to.port) else {
            return Ok(Vec::new(alloc));
        };
        if is_rtcp(&line, datagram.to.port, datagram.payload) {
            return listed_requests(alloc, line.session, datagram.payload);
        }
        self.remember(alloc, line.session, datagram.payload)?;
        Ok(Vec::new(alloc))
    }

    fn session_at(&self, port: u16) -> Option<SessionLine>
        ensures { result ≡ find (is_to port) self.now.sessions }
    {
        self.sessions
            .iter()
            .copied()
            .find(|line| line.rtp == port || line.rtcp == port)
    }

    /// Remembers the packet that a payload is, if it is one.
    fn remember(&mut self, alloc: Global, session: u8, payload: &[u8]) -> Result<(), OutOfMemory>
        requires { length payload.now ≤ 9216 }
        ensures rules { rules_in self.new ≡ rules_in self.old }
        ensures stands { (calls : List Call) (sent : Sent) → sent.payload ≡ payload.now
            → StandsFor self.old calls → OnOk result (StandsFor self.new (remembered_in
            (packet_in session sent.from payload.now (first_fault payload.now)) ++ calls)) }
    {
        // A law for the proof; the call does nothing.
        packets_are_their_bytes();
        match read(payload) {
            Ok(view) => {
                self.history.remember(alloc, session, &view)?;
                Ok(())
            }
            Err(_) => Ok(()),
        }
    }

    fn record_of(
        &self,
        alloc: Global,
        time: u64,
        retransmission: &Retransmission,
    ) -> Result<Blob, OutOfMemory>
        requires time { time < 2 ^ 32 * 1000000000 }
        requires small { length retransmission.now.bytes ≤ 9218 }
        ensures { IfOk result (λ bytes.
            bytes ≡ answer_record self.now.sessions time retransmission.now) }
    {
        let port = self.port_of(retransmission.session);
        let frame = loopback_frame(alloc, port, retransmission.bytes.bytes())?;
        record_bytes(alloc, time, frame.bytes())
    }

    fn port_of(&self, session: u8) -> u16
        ensures { result ≡ rtp_port self.now.sessions session }
    {
        self.sessions
            .iter()
            .find(|line| line.session == session)
            .map_or(0, |line| line.rtp)
    }
}

/// Whether a datagram to this port of this session carries RTCP.
fn is_rtcp(line: &SessionLine, port: u16, payload: &[u8]) -> bool
    ensures { (sent : Sent) → sent.to.port ≡ port → sent.payload ≡ payload.now
        → result ≡ is_rtcp_by line.now sent }
{
    if line.rtp != line.rtcp {
        return port == line.rtcp;
    }
    match payload.get(1) {
        Some(kind) => RTCP_FIRST <= *kind && *kind <= RTCP_LAST,
        None => false,
    }
}

/// What the NACKs of the compound that a payload is ask for, if it is one.
fn listed_requests(alloc: Global, session: u8, payload: &[u8]) -> Result<Vec<Request>, OutOfMemory>
    ensures { IfOk result (λ requests. requests.items
        ≡ requests_in (compound_in session (compound_of payload.now))) }
{
    match read_compound(alloc, payload) {
        Ok(packets) => requests_of(alloc, session, packets.as_slice()),
        Err(RtcpFault::OutOfMemory) => Err(OutOfMemory),
        Err(_) => Ok(Vec::new(alloc)),
    }
}
