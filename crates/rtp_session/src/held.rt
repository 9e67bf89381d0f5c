//! The packets that wait until their sources are valid.
ghost use Rattle.std.specs.Prelude.{◌≡◌, ◌≤◌, ℕ, ◌++◌, ◌∷◌, [], length, nat_eq, if◌then◌else◌, IfOk, OnOk};
ghost use Rattle.std.specs.List.{list_any};
ghost use Rattle.front_model.specs.Probation.{kept_at, waiting_next};
ghost use Rattle.front_model.specs.Notes.{packet_notes};
ghost use Rattle.rtp_session.specs.Answers.{as_heard, out_notes, cause_in, cause_of};
ghost use Rattle.rtp_session.specs.Runs.{run_of};

use crate::answers::{DropCause, SessionOut};
use crate::kept::Kept;
use indexmap::IndexMap;
use rtp_units::OutOfMemory;
use rtp_wire::RtpView;
use source_table::Heard;
use std::alloc::Global;

/// By SSRC the packets that wait, the first one first.
pub(crate) type Runs = IndexMap<u32, Vec<Kept>>;

/// Answers a packet by what it was to its source: it waits, it goes on, or it is dropped.
pub(crate) fn take_packet(
    alloc: Global,
    held: &mut Runs,
    now: u64,
    view: &RtpView<'_>,
    heard: Result<Heard, DropCause>,
) -> Result<SessionOut, OutOfMemory>
    requires { length view.now.bytes ≤ 65535 }
    ensures notes { IfOk result (λ out.
        out_notes (kept_at now view.now) out
        ≡ packet_notes (run_of held.old.entries view.now.ssrc) (kept_at now view.now)
        (as_heard heard)) }
    ensures cause { IfOk result (λ out. cause_in out ≡ cause_of (as_heard heard)) }
    ensures held { OnOk result ((ssrc : ℕ) → run_of held.new.entries ssrc
        ≡ (if nat_eq ssrc view.now.ssrc
        then waiting_next (run_of held.old.entries ssrc) (kept_at now view.now) (as_heard heard)
        else run_of held.old.entries ssrc)) }
{
    let ssrc = view.ssrc();
    match heard {
        Ok(Heard::Waiting { broken: false }) => {
            hold(alloc, held, ssrc, Kept::copy_of(alloc, now, view)?)?;
            Ok(SessionOut::Held {
                broken: Vec::new(alloc),
            })
        }
        Ok(Heard::Waiting { broken: true }) => {
            let broken = begin(alloc, held, ssrc, Kept::copy_of(alloc, now, view)?)?;
            Ok(SessionOut::Held { broken })
        }
        Ok(Heard::NowValid) => {
            let packet = Kept::copy_of(alloc, now, view)?;
            let waited = release(alloc, held, ssrc);
            Ok(SessionOut::Released { waited, packet })
        }
        Ok(Heard::Valid) => Ok(SessionOut::Released {
            waited: Vec::new(alloc),
            packet: Kept::copy_of(alloc, now, view)?,
        }),
        Err(cause) => Ok(SessionOut::Dropped(cause)),
    }
}

/// Holds a packet behind those of its source.
fn hold(alloc: Global, held: &mut Runs, ssrc: u32, packet: Kept) -> Result<(), OutOfMemory>
    ensures { OnOk result ((q : ℕ) → run_of held.new.entries q
        ≡ (if nat_eq ssrc q then run_of held.old.entries q ++ packet ∷ []
        else run_of held.old.entries q)) }
{
    if let Some(packets) = held.get_mut(&ssrc) {
        packets.push(packet)?;
        return Ok(());
    }
    begin(alloc, held, ssrc, packet)?;
    Ok(())
}

/// Begins a run with a packet, and gives the run before it.
fn begin(alloc: Global, held: &mut Runs, ssrc: u32, packet: Kept) -> Result<Vec<Kept>, OutOfMemory>
    ensures run { IfOk result (λ run. run.items ≡ run_of held.old.entries ssrc) }
    ensures held { OnOk result ((q : ℕ) → run_of held.new.entries q
        ≡ (if nat_eq ssrc q then packet ∷ [] else run_of held.old.entries q)) }
{
    let mut run = Vec::new(alloc);
    run.push(packet)?;
    match held.insert(ssrc, run)? {
        Some(broken) => Ok(broken),
        None => Ok(Vec::new(alloc)),
    }
}

/// Gives the packets of a source, of which none is held then.
fn release(alloc: Global, held: &mut Runs, ssrc: u32) -> Vec<Kept>
    ensures run { result.items ≡ run_of held.old.entries ssrc }
    ensures held { (q : ℕ) → run_of held.new.entries q
        ≡ (if nat_eq ssrc q then [] else run_of held.old.entries q) }
{
    match held.swap_remove(&ssrc) {
        Some(run) => run,
        None => Vec::new(alloc),
    }
}

/// Lets the packets of these sources go.
pub(crate) fn forget(held: &mut Runs, ssrcs: &[u32])
    ensures { (q : ℕ) → run_of held.new.entries q
        ≡ (if list_any (nat_eq q) ssrcs.now then [] else run_of held.old.entries q) }
{
    for ssrc in ssrcs {
        held.swap_remove(ssrc);
    }
}
