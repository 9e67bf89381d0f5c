//! How sessions stand by the script.
ghost use Rattle.std.specs.Prelude.{◌≡◌, ◌<◌, ℕ, Some, length, slice_get};
ghost use Rattle.bin_core.specs.Stages.{standing_by};

use script_lang::Action;

/// How a session stands by the items so far: its latency in nanoseconds, and whether a flush of it
/// runs.
#[derive(Clone, Copy, Debug, Drop)]
pub struct Standing {
    pub latency: u64,
    pub flushing: bool,
}

fn with(standing: Standing, action: Action, session: u8) -> Standing
    ensures { result ≡ standing_by action session standing }
{
    let Standing { latency, flushing } = standing;
    match action {
        Action::Clock => standing,
        Action::FlushStart(of) => Standing {
            latency,
            flushing: of == session || flushing,
        },
        Action::FlushStop(of) => Standing {
            latency,
            flushing: of != session && flushing,
        },
        Action::Latency { session: of, ns } => Standing {
            latency: if of == session { ns } else { latency },
            flushing,
        },
    }
}

/// How sessions stand after an action.
pub fn after(standings: [Standing; 8], action: Action) -> [Standing; 8]
    ensures { (session : ℕ) (s : Standing) → session < 8
        → slice_get standings session ≡ Some s
        → slice_get result session ≡ Some (standing_by action session s) }
{
    [
        with(standings[0], action, 0),
        with(standings[1], action, 1),
        with(standings[2], action, 2),
        with(standings[3], action, 3),
        with(standings[4], action, 4),
        with(standings[5], action, 5),
        with(standings[6], action, 6),
        with(standings[7], action, 7),
    ]
}
