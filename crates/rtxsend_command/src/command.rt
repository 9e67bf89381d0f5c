//! Sending the retransmissions that a capture's NACKs ask for.
ghost use Rattle.std.specs.Prelude.{◌≡◌, ◌<◌, ◌-◌, ◌*◌, ◌^◌, [], ◌∷◌, ◌++◌, List, map, reverse};
ghost use Rattle.std.specs.Prelude.{OnOk, IfOk, IsTrue};
ghost use Rattle.pcap_file.specs.Reading.{record_view};
ghost use Rattle.rtp_io.specs.Outside.{SameDisk};
ghost use Rattle.rtx.specs.Answering.{Call, answered};
ghost use Rattle.front_model.specs.Records.{holding};
ghost use Rattle.nack_answering.specs.Asking.{asks_for, calls_in, requests_in};
ghost use Rattle.nack_answering.specs.Answering.{rules_of, answer_piece};
ghost use Rattle.nack_answering.specs.Standing.{StandsFor, rules_in};
ghost use Rattle.command_core.specs.Steps.{Covers, HasStopCause, HasWriteCause, Prints, Writes};
ghost use Rattle.command_core.specs.Taken.{AddsMore};
ghost use Rattle.rtxsend_command.specs.Sent.{rtxsend_output, header_behind, pieces_of};

use command_core::{Command, Stop, print_piece, run_command};
use nack_answering::{Answering, Request};
use pcap_file::{PcapRecord, header_bytes};
use rtp_io::{Files, Sink};
use rtp_units::OutOfMemory;
use script_lang::Script;
use std::alloc::Global;

/// Raw IP packets, as pcap numbers link types.
const RAW_IP: u32 = 101;

/// Writes the retransmissions that the NACKs of the capture in the open file ask for, as a capture.
/// The header and each record are one piece.
pub fn rtxsend_open<F: Files, O: Sink>(
    alloc: Global,
    script: &Script,
    files: &mut F,
    out: &mut O,
) -> Result<(), Stop>
    requires files { F.faults files.old < 2 ^ 64 - 1 }
    requires out { O.faults out.old < 2 ^ 64 - 1 }
    ensures same { SameDisk (F.disk files.old) (F.disk files.new) }
    ensures opened { IsTrue (F.disk files.old).told
        → (F.disk files.new).opened ≡ (F.disk files.old).opened }
    ensures covers { Covers (rtxsend_output script.now) result
        (F.disk files.old) (F.disk files.new) (O.written out.old) (O.written out.new) }
    ensures cause { HasStopCause result (F.faults files.old) (F.faults files.new)
        (O.faults out.old) (O.faults out.new) }
{
    let mut command = RtxSend::new(alloc, script)?;
    run_command(alloc, files, &mut command, out)
}

// What is remembered of the records so far, how many they are, and the time of the last one in
// nanoseconds.
#[derive(Drop)]
struct RtxSend {
    answering: Answering,
    records: u64,
    time: u64,
}

impl RtxSend {
    fn new(alloc: Global, script: &Script) -> Result<RtxSend, OutOfMemory>
        ensures rules { IfOk result (λ x. rules_in x.answering ≡ rules_of script.now) }
        ensures stands { IfOk result (λ x. StandsFor x.answering []) }
        ensures records { IfOk result (λ x. x.records ≡ 0) }
        ensures time { IfOk result (λ x. x.time ≡ 0) }
    {
        Ok(RtxSend {
            answering: Answering::new(alloc, script)?,
            records: 0,
            time: 0,
        })
    }

    // Writes the header, where no record came before.
    fn print_header<O: Sink>(&self, out: &mut O) -> Result<(), Stop>
        requires { O.faults out.old < 2 ^ 64 - 1 }
        ensures { Prints (header_behind self.now.records) result
            (O.written out.old) (O.written out.new) (O.faults out.old) (O.faults out.new) }
    {
        if self.records == 0 {
            print_piece(out, &header_bytes(RAW_IP))
        } else {
            Ok(())
        }
    }
}

impl Command for RtxSend {
    ghost use Rattle.std.specs.Prelude.{length};
    ghost use Rattle.rtxsend_command.specs.Sent.{sent_by};
    ghost use Rattle.nack_answering.specs.Answering.{calls};
    ghost use Rattle.nack_answering.specs.Standing.{StandsFor, rules_in};

    ghost output = { λ x. sent_by (rules_in x.answering) };

    ghost count = { λ x. x.records };

    ghost reached = { λ x. x.time };

    ghost ready = { λ _. Unit {0} };

    ghost stands = { λ x seen. (x.records ≡ length seen)
        × StandsFor x.answering (calls x.answering.sessions seen) };

    fn take<O: Sink>(
        &mut self,
        alloc: Global,
        time: u64,
        link: u16,
        rec: &PcapRecord,
        out: &mut O,
    ) -> Result<(), Stop> {
        self.print_header(out)?;
        self.records += 1;
        self.time = time;
        print_answers_to(alloc, &mut self.answering, time, link, rec, out)
    }

    fn finish<O: Sink>(&mut self, _alloc: Global, out: &mut O) -> Result<(), Stop> {
        self.print_header(out)
    }
}

// Takes the next record, and writes what answers its requests.
fn print_answers_to<O: Sink>(
    alloc: Global,
    answering: &mut Answering,
    time: u64,
    link: u16,
    rec: &PcapRecord,
    out: &mut O,
) -> Result<(), Stop>
    requires time { time < 2 ^ 32 * 1000000000 }
    requires out { O.faults out.old < 2 ^ 64 - 1 }
    ensures rules { rules_in answering.new ≡ rules_in answering.old }
    ensures answers { (before : List Call) → StandsFor answering.old before → Writes result
        (pieces_of (rules_in answering.old) time before
        (requests_in (holding answering.old.sessions (record_view link rec.now))))
        (O.written out.old) (O.written out.new) }
    ensures stands { (before : List Call) → StandsFor answering.old before → OnOk result
        (StandsFor answering.new
        (reverse (calls_in (holding answering.old.sessions (record_view link rec.now)))
        ++ before)) }
    ensures more { AddsMore [] (O.written out.old) (O.written out.new) }
    ensures cause { HasWriteCause result (O.faults out.old) (O.faults out.new) }
{
    let requests = answering.take(alloc, link, rec)?;
    print_answers(alloc, answering, time, requests.as_slice(), out)
}

// Writes what answers these requests, one after the other.
fn print_answers<O: Sink>(
    alloc: Global,
    answering: &mut Answering,
    time: u64,
    requests: &[Request],
    out: &mut O,
) -> Result<(), Stop>
    requires time { time < 2 ^ 32 * 1000000000 }
    requires out { O.faults out.old < 2 ^ 64 - 1 }
    ensures rules { rules_in answering.new ≡ rules_in answering.old }
    ensures answers { (before : List Call) → StandsFor answering.old before → Writes result
        (pieces_of (rules_in answering.old) time before requests.now)
        (O.written out.old) (O.written out.new) }
    ensures stands { (before : List Call) → StandsFor answering.old before
        → OnOk result (StandsFor answering.new (reverse (map asks_for requests.now) ++ before)) }
    ensures more { AddsMore [] (O.written out.old) (O.written out.new) }
    ensures cause { HasWriteCause result (O.faults out.old) (O.faults out.new) }
{
    for request in requests {
        print_answer(alloc, answering, time, *request, out)?;
    }
    Ok(())
}

fn print_answer<O: Sink>(
    alloc: Global,
    answering: &mut Answering,
    time: u64,
    request: Request,
    out: &mut O,
) -> Result<(), Stop>
    requires time { time < 2 ^ 32 * 1000000000 }
    requires out { O.faults out.old < 2 ^ 64 - 1 }
    ensures rules { rules_in answering.new ≡ rules_in answering.old }
    ensures answers { (before : List Call) → StandsFor answering.old before → Writes result
        (answer_piece answering.old.sessions time (answered answering.old.history.setting before
        request.session request.ssrc request.seq)) (O.written out.old) (O.written out.new) }
    ensures stands { (before : List Call) → StandsFor answering.old before
        → OnOk result (StandsFor answering.new (asks_for request ∷ before)) }
    ensures more { AddsMore [] (O.written out.old) (O.written out.new) }
    ensures cause { HasWriteCause result (O.faults out.old) (O.faults out.new) }
{
    match answering.answer(alloc, time, request)? {
        Some(piece) => print_piece(out, piece.bytes()),
        None => Ok(()),
    }
}
