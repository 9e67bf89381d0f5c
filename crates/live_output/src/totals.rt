//! What became of the packets of a run.
ghost use Rattle.std.specs.Prelude.{◌≡◌, ◌∷◌, [], IfSome};
ghost use Rattle.live_output.specs.Totals.{Counts, entries_of, refused_by};

use jitter_core::Verdict;
use live_bin::{Entry, LaneHistory};

/// Packets that left, numbers that were lost, and packets that their lane did not take.
#[derive(Clone, Copy, Debug, Drop)]
pub struct Totals {
    pub out: u64,
    pub lost: u64,
    pub refused: u64,
}

const NOTHING: Totals = Totals {
    out: 0,
    lost: 0,
    refused: 0,
};

/// Counts the entries of all journals. There is no answer where a number has more than 64 bits.
pub fn totals_of(histories: &[LaneHistory]) -> Option<Totals>
    ensures { IfSome result (Counts (entries_of histories.now) NOTHING) }
{
    let mut totals = NOTHING;
    for history in histories {
        totals = with_journal(totals, history.entries())?;
    }
    Some(totals)
}

fn with_journal(totals: Totals, entries: &[Entry]) -> Option<Totals>
    ensures { IfSome result (Counts entries.now totals) }
{
    let mut all = totals;
    for entry in entries {
        all = with_entry(all, entry)?;
    }
    Some(all)
}

fn with_entry(totals: Totals, entry: &Entry) -> Option<Totals>
    ensures { IfSome result (Counts (entry.now ∷ []) totals) }
{
    match entry {
        Entry::Packet { .. } => Some(Totals {
            out: totals.out.checked_add(1)?,
            ..totals
        }),
        Entry::Lost { count, .. } => Some(Totals {
            lost: totals.lost.checked_add(u64::from(*count))?,
            ..totals
        }),
        Entry::Push { verdict, .. } => Some(Totals {
            refused: totals.refused.checked_add(refused(*verdict))?,
            ..totals
        }),
        _ => Some(totals),
    }
}

// How many packets a lane did not take, by its answer to one.
fn refused(verdict: Verdict) -> u64
    ensures { result ≡ refused_by verdict }
{
    match verdict {
        Verdict::Accepted | Verdict::Aside | Verdict::Restart(_) => 0,
        Verdict::Late
        | Verdict::Duplicate
        | Verdict::Full
        | Verdict::Stray
        | Verdict::Flushing
        | Verdict::Ended => 1,
    }
}
