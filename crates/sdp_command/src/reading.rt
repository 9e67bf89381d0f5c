//! Reading the two texts.
ghost use Rattle.std.specs.Prelude.{◌<◌, ◌-◌, ◌^◌, IsTrue};
ghost use Rattle.rtp_io.specs.Outside.{SameDisk};
ghost use Rattle.sdp_command.specs.Reading.{ReadsDescribed, Tells};
ghost use Rattle.sdp_command.specs.Failures.{HasFailureCause};

use crate::failure::Failure;
use command_core::read_input;
use rtp_io::Files;
use script_lang::{MAX_SCRIPT, Script};
use sdp_profile::{MAX_DESCRIPTION, read};
use std::alloc::Global;

/// Reads the description of the one name, and then the settings and timed lines of the other, each
/// up to one byte more than it may have. Only behind both is either tested: the description first.
pub fn read_described<F: Files>(
    alloc: Global,
    files: &mut F,
    sdp: &str,
    times: &str,
) -> Result<Script, Failure>
    requires sdp { IsTrue ((F.disk files.old).may_open sdp.now) }
    requires times { IsTrue ((F.disk files.old).may_open times.now) }
    requires countable { F.faults files.old < 2 ^ 64 - 1 }
    ensures same { SameDisk (F.disk files.old) (F.disk files.new) }
    ensures after { ReadsDescribed result sdp.now times.now (F.disk files.old) (F.disk files.new) }
    ensures cause { HasFailureCause result (F.faults files.old) (F.faults files.new) 0 0 }
{
    let sdp = read_input(alloc, files, sdp, MAX_DESCRIPTION)?;
    let times = read_input(alloc, files, times, MAX_SCRIPT)?;
    script_in(alloc, &sdp, &times)
}

// The script that the two texts make.
fn script_in(alloc: Global, sdp: &[u8], times: &[u8]) -> Result<Script, Failure>
    ensures { Tells result sdp.now times.now }
{
    Ok(read(alloc, sdp, times)?)
}
