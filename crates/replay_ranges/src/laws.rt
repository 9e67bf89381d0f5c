//! Laws of what the front of a script gives the lanes. Each function's contract is a law, for all
//! scripts and all lists of what came. The functions do nothing.
ghost use Rattle.replay_ranges.specs.Ranges.{StayInRange, AreFew};

use front_model::laws::sources_stand_alone;

/// The packets and sender reports for lanes have their numbers in the ranges that a buffer takes.
pub fn ranges_hold()
    ensures { StayInRange }
{
    // A law for the proof; the call does nothing.
    sources_stand_alone();
}

/// A record gives at most 16 packets to lanes.
pub fn records_give_few()
    ensures { AreFew }
{
    // A law for the proof; the call does nothing.
    sources_stand_alone();
}
