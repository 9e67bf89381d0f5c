//! What a lane asks for again.
ghost use Rattle.std.specs.Prelude.{◌≡◌, ◌≤◌, length, OnOk};
ghost use Rattle.bin_core.specs.Stages.{Sends, requests_behind};
ghost use Rattle.script_lang.specs.Contents.{Contents};
ghost use Rattle.front_model.specs.Events.{FrontEvent};
ghost use Rattle.rtp_front.specs.Standing.{StandsFor};
ghost use Rattle.std.specs.Prelude.{List};

use rtp_front::Front;
use rtp_units::OutOfMemory;
use std::alloc::Global;
use timeline::{BinLine, Lines};

/// Sends a request of a session for these numbers of a stream, if there are any: adds its line, and
/// lets the front note them.
pub fn send(
    front: &mut Front,
    alloc: Global,
    time: u64,
    session: u8,
    ssrc: u32,
    numbers: &[u16],
    lines: &mut Lines,
) -> Result<(), OutOfMemory>
    requires few { length numbers.now ≤ 8192 }
    ensures { OnOk result (Sends time session ssrc numbers.now front.old front.new
        lines.old lines.new) }
{
    if numbers.is_empty() {
        return Ok(());
    }
    let bytes = front.nack(alloc, ssrc, numbers)?;
    lines.push(BinLine::Nack {
        time,
        session,
        bytes,
    })?;
    note(front, session, ssrc, numbers);
    Ok(())
}

fn note(front: &mut Front, session: u8, ssrc: u32, numbers: &[u16])
    ensures { (c : Contents) (older : List FrontEvent) → StandsFor front.old c older
        → StandsFor front.new c (requests_behind session ssrc numbers.now older) }
{
    for seq in numbers {
        front.note_request(session, ssrc, *seq);
    }
}
