//! The script of the generated capture.
ghost use Rattle.std.specs.Prelude.{◌≡◌, IfOk};
ghost use Rattle.generated_capture.specs.Generated.{generator_script};

use crate::capture::PORT;
use rtp_units::{Fid, Mode, OutOfMemory, RtxLine};
use script_lang::{PtLine, Script, ScriptSettings, SessionLine};
use std::alloc::Global;

/// In nanoseconds.
const MILLISECOND: u64 = 1_000_000;

/// One session, its packets and their retransmissions, 100 ms of latency and no probation.
pub fn replay_script(alloc: Global) -> Result<Script, OutOfMemory>
    ensures { IfOk result (λ script. script ≡ generator_script) }
{
    let session = SessionLine {
        session: 0,
        rtp: PORT,
        rtcp: 5005,
    };
    let pt = PtLine {
        session: 0,
        pt: 96,
        rate: 90000,
    };
    let rtx = RtxLine {
        session: 0,
        pt: 97,
        osession: 0,
        apt: 96,
    };
    let fid = Fid {
        session: 0,
        ssrc: 0x1234_5678,
        rtx_ssrc: 0x8765_4321,
    };
    Ok(Script {
        sessions: Vec::from_slice(alloc, &[session])?,
        pts: Vec::from_slice(alloc, &[pt])?,
        rtx: Vec::from_slice(alloc, &[rtx])?,
        fids: Vec::from_slice(alloc, &[fid])?,
        items: Vec::new(alloc),
        settings: settings(),
    })
}

fn settings() -> ScriptSettings
    ensures { result ≡ generator_script.settings }
{
    ScriptSettings {
        latency: 100 * MILLISECOND,
        mode: Mode::Slave,
        rtx: true,
        rtx_delay: 20 * MILLISECOND,
        rtx_retry: 40 * MILLISECOND,
        rtx_max: 3,
        reorder: 3,
        dropout: 3000,
        misorder: 100,
        probation: 0,
        faststart: 0,
        report: 0,
        timeout: 25_000 * MILLISECOND,
        history: 256,
        ssrc: 1,
    }
}
