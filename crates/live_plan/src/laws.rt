//! Laws of plans. Each function's contract is a law, for all scripts and all lists of records. The
//! functions do nothing.
ghost use Rattle.std.specs.Prelude.{◌++◌, ◌∷◌, [], List, length, filter_map};
ghost use Rattle.pcap_file.specs.Capture.{Record};
ghost use Rattle.timeline.specs.Times.{time_after};
ghost use Rattle.script_lang.specs.Contents.{Contents, IsScript};
ghost use Rattle.front_model.specs.Events.{Came};
ghost use Rattle.front_model.specs.Laws.{opened_by};
ghost use Rattle.front_model.specs.Plan.{captured, plan};
ghost use Rattle.front_model.specs.Steps.{steps};
ghost use Rattle.replay_sound.specs.Stamped.{AreStamped};
ghost use Rattle.live_bin.specs.Plans.{AreRight};
ghost use Rattle.live_plan.specs.Fitting.{AreFit};
ghost use Rattle.live_plan.specs.Planned.{lanes};

use front_model::laws::{lanes_open_in_order, lanes_stay, numbers_count_up};
use replay_model::laws::times_go_on;
use replay_sound::laws::{
    records_make_replays, reports_only_tell, scripts_are_sound, steps_suit_a_bin,
};

/// What the front of a script gives its lanes, of records that a capture has, meets the conditions
/// of their buffers, and so does what the script does to them.
pub fn plans_are_right()
    ensures { (c : Contents) (records : List Record)
        → IsScript c → AreStamped records → AreRight (lanes c records) }
{
    // Laws for the proof; the calls do nothing.
    lanes_open_in_order();
    lanes_stay();
    numbers_count_up();
    scripts_are_sound();
    steps_suit_a_bin();
    reports_only_tell();
    records_make_replays();
}

/// What the front of a script does at a record fits the lanes that there are: a lane that begins
/// has the next number, and what is brought is brought by one of eight sessions to a lane that
/// began.
pub fn steps_fit_lanes()
    ensures { (c : Contents) (before : List Record) (r : Record)
        → IsScript c → AreStamped (before ++ r ∷ [])
        → AreFit (length (filter_map opened_by (plan c before)))
        (steps c (captured before) (Came (time_after (before ++ r ∷ [])) r)) }
{
    // Laws for the proof; the calls do nothing.
    times_go_on();
    lanes_open_in_order();
    lanes_stay();
    steps_suit_a_bin();
    reports_only_tell();
}
