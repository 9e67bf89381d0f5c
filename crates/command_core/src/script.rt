//! Reading the script of a replay.
ghost use Rattle.std.specs.Prelude.{◌<◌, ◌-◌, ◌^◌, IsTrue};
ghost use Rattle.rtp_io.specs.Outside.{SameDisk};
ghost use Rattle.command_core.specs.Steps.{HasStopCause, ReadsScript, ReadsText};

use crate::input::read_input;
use crate::stop::Stop;
use rtp_io::Files;
use script_lang::{MAX_SCRIPT, Script, read};
use std::alloc::Global;

/// Reads the script of this name, up to one byte more than a script may have.
pub fn read_script<F: Files>(alloc: Global, files: &mut F, name: &str) -> Result<Script, Stop>
    requires may_open { IsTrue ((F.disk files.old).may_open name.now) }
    requires countable { F.faults files.old < 2 ^ 64 - 1 }
    ensures same { SameDisk (F.disk files.old) (F.disk files.new) }
    ensures after { ReadsScript result name.now (F.disk files.old) (F.disk files.new) }
    ensures cause { HasStopCause result (F.faults files.old) (F.faults files.new) 0 0 }
{
    let text = read_input(alloc, files, name, MAX_SCRIPT)?;
    script_in(alloc, &text)
}

// The script that a text is.
fn script_in(alloc: Global, text: &[u8]) -> Result<Script, Stop>
    ensures { ReadsText result text.now }
{
    Ok(read(alloc, text)?)
}
