//! Laws of the replay of a script. Each function's contract is a law, for all scripts, and for all
//! captures or lists of inputs. The functions do nothing.
ghost use Rattle.std.specs.Prelude.{◌≡◌, ◌≤◌, ◌++◌, ◌∷◌, [], ℕ, List, reverse};
ghost use Rattle.rtp_io.specs.Outside.{AreBytes};
ghost use Rattle.pcap_file.specs.Capture.{Record, capture_of};
ghost use Rattle.jitter_model.specs.Runs.{Run};
ghost use Rattle.script_lang.specs.Contents.{Contents, IsScript};
ghost use Rattle.front_model.specs.Events.{FrontEvent, ReportsDue, records};
ghost use Rattle.front_model.specs.Steps.{steps, all_steps};
ghost use Rattle.timeline.specs.Times.{at_times};
ghost use Rattle.replay_model.specs.Inputs.{Input, inputs, all_inputs};
ghost use Rattle.replay_model.specs.Events.{lane};
ghost use Rattle.replay_model.specs.Lanes.{opened};
ghost use Rattle.replay_model.specs.Log.{timeline, whole_timeline};
ghost use Rattle.replay_model.specs.Fitting.{IsSound, IsReplay, AreComing, with_steps};
ghost use Rattle.replay_sound.specs.Stamped.{AreStamped};
ghost use Rattle.replay_sound.specs.Suited.{AreSuited, OnlyTell};

use replay_model::laws::{all_come, lanes_are_runs};
use replay_ranges::laws::{ranges_hold, records_give_few};
use rtp_demux::laws::lanes_go_on;

/// Whatever comes to the front of a script, with no more records than a capture has at most, leads
/// to steps that fit the lanes, and each record gives at most 16 packets to lanes.
pub fn scripts_are_sound()
    ensures { (c : Contents) → IsScript c → IsSound c }
{
    // Laws for the proof; the calls do nothing.
    lanes_go_on();
    ranges_hold();
    records_give_few();
}

/// Whatever comes to the front of a script, with no more records than a capture has at most, leads
/// to steps that suit a bin.
pub fn steps_suit_a_bin()
    ensures { (c : Contents) (older : List FrontEvent) (e : FrontEvent)
        → IsScript c → AreComing (e ∷ older) → records (e ∷ older) ≤ 100000000
        → AreSuited (with_steps [] (all_steps c older)) (steps c older e) }
{
    // Laws for the proof; the calls do nothing.
    lanes_go_on();
    ranges_hold();
}

/// At a report time the front of a script tells the reports, and does nothing else.
pub fn reports_only_tell()
    ensures { (c : Contents) (older : List FrontEvent) (time : ℕ)
        → OnlyTell (steps c older (ReportsDue time)) }
{}

/// The records of a capture are such that a replay takes them.
pub fn captures_are_stamped()
    ensures { (bytes : List ℕ) → AreBytes bytes → AreStamped (capture_of bytes).records }
{}

/// Every script makes a replay with all records that a replay takes: up to the last of them, and
/// with the items behind it too.
pub fn records_make_replays()
    ensures part { (c : Contents) (rs : List Record)
        → IsScript c → AreStamped rs → IsReplay c (inputs c.items (at_times rs)) }
    ensures whole { (c : Contents) (rs : List Record)
        → IsScript c → AreStamped rs → IsReplay c (all_inputs c.items (at_times rs)) }
{
    // A law for the proof; the call does nothing.
    all_come();
}

/// Every script makes a replay with every capture, and with the records at the front of it.
pub fn captures_make_replays()
    ensures part { (c : Contents) (bytes : List ℕ) (rs more : List Record)
        → IsScript c → AreBytes bytes → (capture_of bytes).records ≡ rs ++ more
        → IsReplay c (inputs c.items (at_times rs)) }
    ensures whole { (c : Contents) (bytes : List ℕ) → IsScript c → AreBytes bytes
        → IsReplay c (all_inputs c.items (at_times (capture_of bytes).records)) }
{
    // A law for the proof; the call does nothing.
    all_come();
}

/// In a replay of a script each lane is a run of the list machine, up to its end.
pub fn lanes_of_replays_are_runs()
    ensures part { (c : Contents) (xs : List Input) → IsScript c → IsReplay c xs → (l : ℕ)
        → Run (opened c (timeline c (reverse xs)) l).settings (lane l (timeline c (reverse xs))) }
    ensures whole { (c : Contents) (xs : List Input) → IsScript c → IsReplay c xs → (l : ℕ)
        → Run (opened c (whole_timeline c (reverse xs)) l).settings
        (lane l (whole_timeline c (reverse xs))) }
{
    // Laws for the proof; the calls do nothing.
    scripts_are_sound();
    lanes_are_runs();
}

/// For every script and every capture each lane is a run of the list machine: in the timeline of
/// the log, where lanes have ended, and in that of the records at the front of the capture.
pub fn lanes_of_scripts_are_runs()
    ensures part { (c : Contents) (bytes : List ℕ) (rs more : List Record)
        → IsScript c → AreBytes bytes → (capture_of bytes).records ≡ rs ++ more → (l : ℕ)
        → Run (opened c (timeline c (reverse (inputs c.items (at_times rs)))) l).settings
        (lane l (timeline c (reverse (inputs c.items (at_times rs))))) }
    ensures whole { (c : Contents) (bytes : List ℕ) → IsScript c → AreBytes bytes → (l : ℕ)
        → Run (opened c (whole_timeline c
        (reverse (all_inputs c.items (at_times (capture_of bytes).records)))) l).settings
        (lane l (whole_timeline c
        (reverse (all_inputs c.items (at_times (capture_of bytes).records))))) }
{
    // Laws for the proof; the calls do nothing.
    captures_make_replays();
    lanes_of_replays_are_runs();
}
