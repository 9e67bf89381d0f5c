//! For which lanes an action is.
ghost use Rattle.std.specs.Prelude.{◌≡◌};
ghost use Rattle.replay_model.specs.Acting.{is_for};

use script_lang::Action;

/// Whether an action is for a session's lanes.
pub fn is_for_session(action: Action, session: u8) -> bool
    ensures { result ≡ is_for action session }
{
    match action {
        Action::Clock => true,
        Action::FlushStart(of) | Action::FlushStop(of) | Action::Latency { session: of, .. } => {
            of == session
        }
    }
}
