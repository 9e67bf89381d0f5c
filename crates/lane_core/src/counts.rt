//! What the replies of a lane come to.
ghost use Rattle.std.specs.Prelude.{◌≡◌, ◌<◌, ◌^◌, ◌+◌};
ghost use Rattle.lane_core.specs.Totals.{turn_out, turn_lost, refusal, with_turn, with_push};

use jitter_core::{Turn, Verdict};

/// What the replies of a lane came to.
#[derive(Clone, Copy, Debug, Drop)]
pub struct Counts {
    /// Packets given out.
    pub out: u64,
    /// Numbers declared lost.
    pub lost: u64,
    /// Packets refused.
    pub refused: u64,
}

/// The counts with a turn.
pub fn count_turn(counts: Counts, turn: &Turn) -> Counts
    requires out { counts.out + turn_out turn.now < 2 ^ 64 }
    requires lost { counts.lost + turn_lost turn.now < 2 ^ 64 }
    ensures { result ≡ with_turn counts turn.now }
{
    let Counts { out, lost, refused } = counts;
    match turn {
        Turn::Packet { .. } => Counts {
            out: out + 1,
            lost,
            refused,
        },
        Turn::Lost { count, .. } => Counts {
            out,
            lost: lost + u64::from(*count),
            refused,
        },
        Turn::Request { .. } | Turn::End | Turn::Idle { .. } | Turn::Flushing => counts,
    }
}

/// The counts with a push.
pub fn count_push(counts: Counts, verdict: Verdict) -> Counts
    requires { counts.refused + refusal verdict < 2 ^ 64 }
    ensures { result ≡ with_push counts verdict }
{
    match verdict {
        Verdict::Accepted | Verdict::Aside | Verdict::Restart(_) => counts,
        Verdict::Late
        | Verdict::Duplicate
        | Verdict::Full
        | Verdict::Stray
        | Verdict::Flushing
        | Verdict::Ended => Counts {
            refused: counts.refused + 1,
            ..counts
        },
    }
}
