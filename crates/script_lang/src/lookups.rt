//! The maps and the flushes of a draft.
ghost use Rattle.std.specs.Prelude.{◌≡◌, ◌==◌, ◌&&◌, ◌++◌, ◌∷◌, [], false, map, IfOk, OnOk};
ghost use Rattle.std.specs.List.{list_any};
ghost use Rattle.script_lang.specs.Grammar.{last_open};
ghost use Rattle.script_lang.specs.Reading.{pt_of, rtx_of};

use crate::script::PtLine;
use indexmap::IndexMap;
use rtp_units::{OutOfMemory, RtxLine};
use std::alloc::Global;

/// A payload type of a session is in the map.
pub(crate) fn has_type<V>(types: &IndexMap<(u8, u8), V>, session: u8, pt: u8) -> bool
    ensures { result ≡ list_any (λ e. session == e.0.0 && pt == e.0.1) types.now.entries }
{
    types.contains_key(&(session, pt))
}

/// Takes up a payload type that no line has.
pub(crate) fn add_type<V: Drop>(
    types: &mut IndexMap<(u8, u8), V>,
    session: u8,
    pt: u8,
    value: V,
) -> Result<(), OutOfMemory>
    requires { list_any (λ e. session == e.0.0 && pt == e.0.1) types.old.entries ≡ false }
    ensures { OnOk result (types.new.entries ≡ types.old.entries ++ ((session, pt), value) ∷ []) }
{
    types.insert((session, pt), value)?;
    Ok(())
}

/// The payload types as lines, in order.
pub(crate) fn pt_lines(
    alloc: Global,
    pts: &IndexMap<(u8, u8), u32>,
) -> Result<Vec<PtLine>, OutOfMemory>
    ensures { IfOk result (λ lines. lines.items ≡ map pt_of pts.now.entries) }
{
    let lines = pts
        .iter()
        .map(|(key, rate)| PtLine {
            session: key.0,
            pt: key.1,
            rate: *rate,
        })
        .collect(alloc)?;
    Ok(lines)
}

/// The retransmission types as lines, in order.
pub(crate) fn rtx_lines(
    alloc: Global,
    rtx: &IndexMap<(u8, u8), (u8, u8)>,
) -> Result<Vec<RtxLine>, OutOfMemory>
    ensures { IfOk result (λ lines. lines.items ≡ map rtx_of rtx.now.entries) }
{
    let lines = rtx
        .iter()
        .map(|(key, original)| RtxLine {
            session: key.0,
            pt: key.1,
            osession: original.0,
            apt: original.1,
        })
        .collect(alloc)?;
    Ok(lines)
}

/// The greatest of the lines that are there.
pub(crate) fn greatest(lines: &[Option<u32>]) -> Option<u32>
    ensures { result ≡ last_open lines.now }
{
    let mut greatest: Option<u32> = None;
    for line in lines {
        if let Some(line) = line {
            greatest = match greatest {
                Some(earlier) => Some(earlier.max(*line)),
                None => Some(*line),
            };
        }
    }
    greatest
}
