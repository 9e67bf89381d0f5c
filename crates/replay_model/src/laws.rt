//! Laws of the log. Each function's contract is a law, for all scripts and all lists of inputs. The
//! functions do nothing.
ghost use Rattle.std.specs.Prelude.{◌≡◌, ◌≤◌, ◌++◌, ◌∷◌, ℕ, List, [], Bool, true, false, Some, None, map, reverse};
ghost use Rattle.jitter_model.specs.Turns.{turn, is_quiet};
ghost use Rattle.pcap_file.specs.Capture.{Record};
ghost use Rattle.script_lang.specs.Contents.{Contents};
ghost use Rattle.script_lang.specs.declared.script.Item.{Item};
ghost use Rattle.front_model.specs.declared.Opening.{Opening};
ghost use Rattle.timeline.specs.Times.{Timed, at_times, timed_after};
ghost use Rattle.replay_model.specs.Inputs.{Input, OfCapture, OfScript, items_to, inputs};
ghost use Rattle.replay_model.specs.Inputs.{items_left, all_inputs, records_in, items_in};
ghost use Rattle.replay_model.specs.declared.Due.{Due};
ghost use Rattle.replay_model.specs.Events.{Timeline, front, items, lane};
ghost use Rattle.replay_model.specs.Turning.{turned, all_turns, settled};
ghost use Rattle.replay_model.specs.Serving.{first_due, serve_one, serve};
ghost use Rattle.replay_model.specs.declared.TheConstants.{END_OF_TIME as LAST};
ghost use Rattle.replay_model.specs.Lines.{lines};
ghost use Rattle.replay_model.specs.Log.{served, timeline, whole_timeline, log_part, log, Begins};
ghost use Rattle.replay_model.specs.Log.{with_input};
ghost use Rattle.replay_model.specs.Ending.{closed};
ghost use Rattle.jitter_model.specs.Runs.{Run};
ghost use Rattle.replay_model.specs.Lanes.{opened};
ghost use Rattle.replay_model.specs.Fitting.{IsSound, IsReplay};
ghost use Rattle.replay_model.specs.Keeping.{TimelinesKeep};
ghost use Rattle.replay_model.specs.Order.{IsInOrder, last_time, AreInOrder, came};

use jitter_model::laws::{turns_run_out, wakes_are_later};

/// What happened stays, whatever comes then. An input adds to what is told, whatever happened before
/// it. Without inputs nothing is told. What is told of some inputs begins what is told of them and
/// more, and the whole log of these.
pub fn goes_on()
    ensures past { (c : Contents) (newer older : List Input)
        → (more : Timeline) × (timeline c (newer ++ older) ≡ more ++ timeline c older) }
    ensures input { (c : Contents) (x : Input) (tl : Timeline)
        → Begins (lines tl) (lines (with_input c x tl)) }
    ensures none { (c : Contents) → log_part c [] ≡ [] }
    ensures part { (c : Contents) (xs more : List Input)
        → Begins (log_part c xs) (log_part c (xs ++ more)) }
    ensures whole { (c : Contents) (xs more : List Input)
        → Begins (log_part c xs) (log c (xs ++ more)) }
{}

/// What is told up to the last input begins what is told up to the end.
pub fn the_end_goes_on()
    ensures { (c : Contents) (tl : Timeline) → Begins (lines tl) (lines (closed c tl)) }
{}

/// The inputs of some records begin those of them and more. The next record comes behind the items
/// up to its time, and the items behind it are left.
pub fn inputs_go_on()
    ensures none { (items : List Item) → inputs items [] ≡ [] }
    ensures more { (items : List Item) (rs more : List Timed)
        → inputs items (rs ++ more) ≡ inputs items rs ++ inputs (items_left items rs) more }
    ensures next { (items : List Item) (rs : List Timed) (r : Timed)
        → inputs items (rs ++ r ∷ [])
        ≡ (inputs items rs ++ map OfScript (items_to r.time (items_left items rs)))
        ++ OfCapture r ∷ [] }
    ensures left { (items : List Item) (rs more : List Timed)
        → items_left items (rs ++ more) ≡ items_left (items_left items rs) more }
{}

/// All records come, and all items, each once and in their order.
pub fn all_come()
    ensures part { (items : List Item) (rs : List Timed) → records_in (inputs items rs) ≡ rs }
    ensures records { (items : List Item) (rs : List Timed)
        → records_in (all_inputs items rs) ≡ rs }
    ensures items { (items : List Item) (rs : List Timed) → items_in (all_inputs items rs) ≡ items }
{}

/// In what happens each record and each item comes once, in their order. The newest stands first.
pub fn each_comes_once()
    ensures records { (c : Contents) (xs : List Input)
        → came (front (timeline c xs)) ≡ records_in xs }
    ensures items { (c : Contents) (xs : List Input) → items (timeline c xs) ≡ items_in xs }
{}

/// A record's time hangs on it and the records before it alone.
pub fn times_go_on()
    ensures none { at_times [] ≡ [] }
    ensures next { (rs : List Record) (r : Record)
        → at_times (rs ++ r ∷ []) ≡ at_times rs ++ timed_after rs r ∷ [] }
{}

/// Turns are taken until one is answered Idle or Flushing: the definition's count of them is enough.
/// What is asked for in them changes nothing of that.
pub fn turns_come_to_rest()
    ensures rest { (c : Contents) (o : ℕ → Opening) (t l : ℕ) (tl : Timeline)
        → is_quiet (turn (o l).settings (lane l (settled c o t l tl))) ≡ true }
    ensures stop { (o : ℕ → Opening) (t l : ℕ) (tl : Timeline)
        → is_quiet (turn (o l).settings (lane l tl)) ≡ true → all_turns o t l tl ≡ tl }
    ensures step { (o : ℕ → Opening) (t l : ℕ) (tl : Timeline)
        → is_quiet (turn (o l).settings (lane l tl)) ≡ false
        → all_turns o t l tl ≡ all_turns o t l (turned o t l tl) }
{
    // A law for the proof; the call does nothing.
    turns_run_out();
}

/// Each report time and each wake up to a limit is served, one after the other in their order, until
/// none is due: the definition's count of them is enough.
pub fn serves_all()
    ensures none { (c : Contents) (o : ℕ → Opening) (reports : Bool) (count limit : ℕ)
        (tl : Timeline)
        → first_due c o reports count limit (serve c o reports count limit tl) ≡ None }
    ensures stop { (c : Contents) (o : ℕ → Opening) (reports : Bool) (count limit : ℕ)
        (tl : Timeline)
        → first_due c o reports count limit tl ≡ None → serve c o reports count limit tl ≡ tl }
    ensures step { (c : Contents) (o : ℕ → Opening) (reports : Bool) (count limit : ℕ)
        (tl : Timeline) (d : Due)
        → first_due c o reports count limit tl ≡ Some d
        → serve c o reports count limit tl ≡ serve c o reports count limit (serve_one c o d tl) }
{
    // A law for the proof; the call does nothing.
    wakes_are_later();
}

/// Where the inputs are in order of time, so is all that happens, in whatever lane, up to the end.
pub fn times_never_fall()
    ensures part { (c : Contents) (xs : List Input)
        → AreInOrder (reverse xs) → IsInOrder (timeline c (reverse xs)) }
    ensures whole { (c : Contents) (xs : List Input)
        → AreInOrder (reverse xs) → last_time (reverse xs) ≤ LAST
        → IsInOrder (whole_timeline c (reverse xs)) }
{
    // A law for the proof; the call does nothing.
    wakes_are_later();
}

/// In a replay each lane is a run of the list machine, up to its end, where the front gives the lanes
/// what fits them.
pub fn lanes_are_runs()
    ensures part { (c : Contents) (xs : List Input)
        → IsSound c → IsReplay c xs → (l : ℕ)
        → Run (opened c (timeline c (reverse xs)) l).settings (lane l (timeline c (reverse xs))) }
    ensures whole { (c : Contents) (xs : List Input)
        → IsSound c → IsReplay c xs → (l : ℕ)
        → Run (opened c (whole_timeline c (reverse xs)) l).settings
        (lane l (whole_timeline c (reverse xs))) }
{}

/// What is due up to one time and then up to a later one is what is due up to the later one: so it can be
/// served in parts.
pub fn serves_in_parts()
    ensures { (c : Contents) (limit t : ℕ) (tl : Timeline)
        → limit ≤ t → served c t (served c limit tl) ≡ served c t tl }
{
    // A law for the proof; the call does nothing.
    wakes_are_later();
}

/// The parts of a timeline leave what they are not about: a series of turns, ticks, an item's doing,
/// the front's steps and what is due each leave how lanes began, what came to the front or the
/// items. What comes of one event happens at its time.
pub fn timelines_keep()
    ensures { TimelinesKeep }
{}
