//! Laws of the lanes of a bin. The contract is a law, for all lanes and timelines; the function
//! does nothing.
ghost use Rattle.lane_core.specs.Beside.{LanesStandBeside};

/// Lanes stand beside each other: each stands for its history whatever the others count; where one
/// goes on or comes to rest, so do all; and what happens in no lane leaves them.
pub fn lanes_stand_beside()
    ensures { LanesStandBeside }
{}
