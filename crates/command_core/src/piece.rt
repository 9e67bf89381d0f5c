//! Writing a piece of the output.
ghost use Rattle.std.specs.Prelude.{◌<◌, ◌-◌, ◌^◌};
ghost use Rattle.command_core.specs.Steps.{Prints};

use crate::stop::Stop;
use rtp_io::{Failed, Sink, write_piece};

/// Writes all of a piece. Where that fails the run stops with `Write`.
pub fn print_piece<O: Sink>(out: &mut O, piece: &[u8]) -> Result<(), Stop>
    requires { O.faults out.old < 2 ^ 64 - 1 }
    ensures { Prints piece.now result
        (O.written out.old) (O.written out.new) (O.faults out.old) (O.faults out.new) }
{
    match write_piece(out, piece) {
        Ok(()) => Ok(()),
        Err(Failed) => Err(Stop::Write),
    }
}
