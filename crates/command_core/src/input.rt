//! Reading an input that is held whole.
ghost use Rattle.std.specs.Prelude.{◌≡◌, ◌<◌, ◌+◌, ◌-◌, ◌^◌, IfOk, IsTrue, length};
ghost use Rattle.rtp_io.specs.Outside.{SameDisk};
ghost use Rattle.command_core.specs.Steps.{HasStopCause};
ghost use Rattle.command_core.specs.Inputs.{ReadsInput};

use crate::stop::Stop;
use rtp_io::{Failed, Files, read_up_to};
use std::alloc::{AllocError, Global};

/// Reads the file of this name, up to one byte more than `most`.
pub fn read_input<F: Files>(
    alloc: Global,
    files: &mut F,
    name: &str,
    most: usize,
) -> Result<Vec<u8>, Stop>
    requires may_open { IsTrue ((F.disk files.old).may_open name.now) }
    requires small { most < 2 ^ 32 }
    requires countable { F.faults files.old < 2 ^ 64 - 1 }
    ensures same { SameDisk (F.disk files.old) (F.disk files.new) }
    ensures after { ReadsInput result name.now most (F.disk files.old) (F.disk files.new) }
    ensures cause { HasStopCause result (F.faults files.old) (F.faults files.new) 0 0 }
{
    match files.open_file(name) {
        Ok(()) => {}
        Err(Failed) => return Err(Stop::Read),
    }
    let mut text = zeros(alloc, most + 1)?;
    match read_up_to(files, &mut text) {
        Ok(size) => {
            text.truncate(size);
            Ok(text)
        }
        Err(Failed) => Err(Stop::Read),
    }
}

fn zeros(alloc: Global, size: usize) -> Result<Vec<u8>, AllocError>
    ensures { IfOk result (λ zeros. length zeros.items ≡ size) }
{
    vec![in alloc; 0; size]
}
