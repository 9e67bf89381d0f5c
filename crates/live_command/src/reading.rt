//! Reading a capture into a plan.
ghost use Rattle.std.specs.Prelude.{◌<◌, ◌≤◌, ◌-◌, ◌^◌, List, IfOk, length};
ghost use Rattle.rtp_io.specs.Outside.{SameDisk};
ghost use Rattle.pcap_file.specs.Capture.{Record};
ghost use Rattle.live_command.specs.Loaded.{Finishes, HasLoaded, ReadsPlan};
ghost use Rattle.live_command.specs.Stops.{HasLiveCause};

use crate::load::Load;
use crate::stop::LiveStop;
use capture_file::CaptureFile;
use command_core::Stop;
use live_bin::{Course, Plan};
use rtp_io::{Files, Pull};
use script_lang::Script;
use std::alloc::Global;

/// Reads the capture in the open file, to its end, into the plan that its records make by this
/// script, and the order in which a run of the plan acts.
pub fn read_plan<F: Files>(
    alloc: Global,
    script: &Script,
    files: &mut F,
) -> Result<(Plan, Course), LiveStop>
    requires files { F.faults files.old < 2 ^ 64 - 1 }
    ensures same { SameDisk (F.disk files.old) (F.disk files.new) }
    ensures reads { ReadsPlan result script.now (F.disk files.old) }
    ensures few { IfOk result (λ made. length made.0.lanes ≤ 64) }
    ensures cause { HasLiveCause result (F.faults files.old) (F.faults files.new) 0 0 }
{
    let mut pull = Pull::new(alloc)?;
    let mut file = CaptureFile::open(alloc, files, &mut pull)?;
    let mut load = Load::new(alloc, script)?;
    'records: while let Some(record) = file.next(alloc, files, &mut pull)? {
        load.take(alloc, &record)?;
    }
    finished(alloc, script, load)
}

// The plan of a whole capture.
fn finished(alloc: Global, script: &Script, load: Load) -> Result<(Plan, Course), LiveStop>
    ensures plan { (seen : List Record) → HasLoaded script.now seen load
        → Finishes result script.now seen }
    ensures few { IfOk result (λ made. length made.0.lanes ≤ 64) }
{
    let (plan, course) = load.finish(alloc, script)?;
    if plan.len() <= 64 {
        Ok((plan, course))
    } else {
        // The front makes no more lanes.
        Err(LiveStop::Common(Stop::Memory))
    }
}
