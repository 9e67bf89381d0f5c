//! The script of a description and of a text with settings and timed lines.
ghost use Rattle.std.specs.Prelude.{◌≡◌};
ghost use Rattle.sdp_profile.specs.Scripts.{joined, described_script};
ghost use Rattle.sdp_profile.specs.Reading.{Gives};

use crate::description::Description;
use crate::fault::SdpFault;
use crate::reading::read_description;
use script_lang::{Script, read_times};
use std::alloc::Global;

/// The script that a description and a text with `set` and `at` lines make: the sessions, payload
/// types, retransmissions and pairs of the one, and the settings and timed lines of the other. Else
/// `Bad` tells the first bad line of the description and the first test that it fails; only where
/// there is none, `Times` tells that of the other text, whose lines are tested as those of a script
/// with these sessions, and in which any other first word is `Word`. `OutOfMemory` may come at any
/// line.
#[tactic(auto, unfolding(crate::specs::Scripts::described_script))]
pub fn read(alloc: Global, sdp: &[u8], times: &[u8]) -> Result<Script, SdpFault>
    ensures { Gives result (described_script sdp.now times.now) }
{
    let description = read_description(alloc, sdp)?;
    let script = read_times(alloc, &description.sessions, times)?;
    Ok(with_times(description, script))
}

// The lines of the description, with the settings and timed lines of the script.
fn with_times(description: Description, script: Script) -> Script
    requires { script.sessions ≡ description.sessions }
    ensures { result ≡ joined description script }
{
    let Description {
        sessions,
        pts,
        rtx,
        fids,
    } = description;
    let Script {
        sessions: _,
        pts: _,
        rtx: _,
        fids: _,
        items,
        settings,
    } = script;
    Script {
        sessions,
        pts,
        rtx,
        fids,
        items,
        settings,
    }
}
