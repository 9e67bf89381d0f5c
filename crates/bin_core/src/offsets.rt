//! How far lanes of one CNAME are apart.
ghost use Rattle.std.specs.Prelude.{◌≡◌, ◌<◌, ◌^◌, ◌++◌, map, OnOk};
ghost use Rattle.replay_model.specs.Taking.{offset_line};
ghost use Rattle.bin_core.specs.Stages.{Keeps};

use ntp_sync::LaneSync;
use ntp_sync::laws::offsets_are_one_list;
use rtp_units::{OutOfMemory, SyncInfo};
use std::alloc::Global;
use timeline::{BinLine, Lines};

/// Keeps a lane's report under the CNAME of its source, and tells the offsets of this CNAME.
pub fn keep(
    sync: &mut LaneSync,
    alloc: Global,
    time: u64,
    lane: u8,
    name: &[u8],
    info: SyncInfo,
    lines: &mut Lines,
) -> Result<(), OutOfMemory>
    requires ntp { info.ntp_ns < 2 ^ 63 }
    requires local { info.local < 2 ^ 63 }
    ensures { OnOk result (Keeps time lane name.now info sync.old sync.new lines.old lines.new) }
{
    // A law for the proof; the call does nothing.
    offsets_are_one_list();
    sync.report(alloc, lane, name, info)?;
    let offsets = sync.offsets(alloc, name)?;
    tell(time, offsets.as_slice(), lines)
}

fn tell(time: u64, offsets: &[(u8, u64)], lines: &mut Lines) -> Result<(), OutOfMemory>
    ensures { OnOk result (lines.new ≡ lines.old ++ map (offset_line time) offsets.now) }
{
    for (lane, ns) in offsets {
        lines.push(BinLine::Offset {
            time,
            lane: *lane,
            ns: *ns,
        })?;
    }
    Ok(())
}
