//! The front.
ghost use Rattle.std.specs.Prelude.{◌≡◌, ◌+◌, ◌<◌, ◌≤◌, ◌++◌, ◌∷◌, [], List, length, option_map};
ghost use Rattle.std.specs.Prelude.{OnOk, OnErr, IfOk, IsErr};
ghost use Rattle.pcap_file.specs.Reading.{record_view};
ghost use Rattle.script_lang.specs.Contents.{Contents};
ghost use Rattle.rtx.specs.Requests.{request};
ghost use Rattle.front_model.specs.Events.{FrontEvent, Came, ReportsDue, Requested};
ghost use Rattle.front_model.specs.Reports.{nack_bytes as nacks_of};
ghost use Rattle.front_model.specs.Sessions.{cname as cname_of};
ghost use Rattle.front_model.specs.Steps.{steps as steps_of};
ghost use Rattle.rtp_front.specs.Standing.{StandsFor, HasFailed};

use crate::intake::Intake;
use crate::requests::nack_bytes;
use front_model::Step;
use pcap_file::PcapRecord;
use rtp_units::{Blob, OutOfMemory};
use script_lang::Script;
use std::alloc::Global;
use std::marker::Model;

/// The sessions of a script, and the way of their packets to the lanes.
///
/// A front stands for the list of what came to it: records, report times, and numbers that lanes
/// asked for again. After want of memory `take` and `report` answer it again.
#[derive(Drop)]
pub struct Front {
    intake: Intake,
    taken: u64,
    failed: bool,
}

impl Model for Front {
    ghost use Rattle.rtp_front.specs.Sessions.{HeardAtMost};
    ghost use Rattle.rtp_front.specs.Standing.{State};

    ghost Value = { State };

    ghost view = { λ x. record { intake = x.intake; taken = x.taken; failed = x.failed } };

    ghost invariant = { λ x. HeardAtMost x.taken x.intake.sessions };
}

impl Front {
    /// A front before anything came to it.
    pub fn new(alloc: Global, script: &Script) -> Result<Front, OutOfMemory>
        ensures stands { IfOk result (λ x. StandsFor x script.now []) }
        ensures taken { IfOk result (λ x. x.taken ≡ 0) }
    {
        Ok(Front {
            intake: Intake::new(alloc, script)?,
            taken: 0,
            failed: false,
        })
    }

    /// How many records it took.
    pub fn taken(&self) -> u64
        ensures { result ≡ self.now.taken }
    {
        self.taken
    }

    /// The CNAME of a source of a session, where it is kept and has one.
    pub fn cname(&self, session: u8, ssrc: u32) -> Option<&[u8]>
        ensures { (c : Contents) (events : List FrontEvent) → StandsFor self.now c events
            → option_map (λ text. text.now) result ≡ cname_of c events session ssrc }
    {
        self.intake.cname(session, ssrc)
    }

    /// Takes the next record, which comes at `time` nanoseconds. Its steps are added to `steps`.
    pub fn take(
        &mut self,
        alloc: Global,
        time: u64,
        link: u16,
        captured: &PcapRecord,
        steps: &mut Vec<Step>,
    ) -> Result<(), OutOfMemory>
        requires { self.old.taken < 100000000 }
        ensures steps { (c : Contents) (older : List FrontEvent) → StandsFor self.old c older
            → OnOk result (steps.new.items ≡ steps.old.items
            ++ steps_of c older (Came time (record_view link captured.now))) }
        ensures stands { (c : Contents) (older : List FrontEvent) → StandsFor self.old c older
            → OnOk result
            (StandsFor self.new c (Came time (record_view link captured.now) ∷ older)) }
        // Want of memory is answered from then on.
        ensures fails { OnErr result (HasFailed self.new) }
        ensures again { HasFailed self.old → IsErr result }
        ensures taken { OnOk result (self.new.taken ≡ self.old.taken + 1) }
    {
        if self.failed {
            return Err(OutOfMemory);
        }
        let result = self
            .intake
            .take_record(alloc, time, link, captured, self.taken, steps);
        self.failed = result.is_err();
        self.taken += 1;
        result
    }

    /// A report time of all sessions, which come in the order of their numbers.
    pub fn report(
        &mut self,
        alloc: Global,
        time: u64,
        steps: &mut Vec<Step>,
    ) -> Result<(), OutOfMemory>
        ensures steps { (c : Contents) (older : List FrontEvent) → StandsFor self.old c older
            → OnOk result
            (steps.new.items ≡ steps.old.items ++ steps_of c older (ReportsDue time)) }
        ensures stands { (c : Contents) (older : List FrontEvent) → StandsFor self.old c older
            → OnOk result (StandsFor self.new c (ReportsDue time ∷ older)) }
        ensures fails { OnErr result (HasFailed self.new) }
        ensures again { HasFailed self.old → IsErr result }
        ensures taken { self.new.taken ≡ self.old.taken }
    {
        if self.failed {
            return Err(OutOfMemory);
        }
        let result = self.intake.report(alloc, time, steps);
        self.failed = result.is_err();
        result
    }

    /// Notes a number that a lane asked for again: by it a retransmission may be found.
    pub fn note_request(&mut self, session: u8, ssrc: u32, seq: u16)
        ensures stands { (c : Contents) (older : List FrontEvent) → StandsFor self.old c older
            → StandsFor self.new c (Requested (request session ssrc seq) ∷ older) }
        ensures failed { self.new.failed ≡ self.old.failed }
        ensures taken { self.new.taken ≡ self.old.taken }
    {
        self.intake.note_request(session, ssrc, seq);
    }

    /// The bytes of a request for these numbers of a stream, at most 8,192. Each session of a
    /// script sends it from the script's SSRC.
    pub fn nack(&self, alloc: Global, media: u32, numbers: &[u16]) -> Result<Blob, OutOfMemory>
        requires { length numbers.now ≤ 8192 }
        ensures { (c : Contents) (events : List FrontEvent) → StandsFor self.now c events
            → IfOk result (λ bytes. bytes ≡ nacks_of c.settings.ssrc media numbers.now) }
    {
        nack_bytes(alloc, self.intake.own(), media, numbers)
    }
}
