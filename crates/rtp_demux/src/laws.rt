//! Laws of lanes: each function's contract holds after every list of calls. The functions do nothing.
ghost use Rattle.rtp_demux.specs.Lanes.{IsNumberedOnce, StaysNumbered, IsOneLane, IsOneFinding};
ghost use Rattle.rtp_demux.specs.Lanes.{IsNewLane, IsKnownLane, StaysFull};

/// No stream has two lanes.
pub fn numbered_once()
    ensures { IsNumberedOnce }
{}

/// A lane stays its stream's, with the rate that it began with.
pub fn stays_numbered()
    ensures { StaysNumbered }
{}

/// A stream is told one lane, and has one or none: those that the definitions name as functions.
pub fn streams_have_one_lane()
    ensures told { IsOneLane }
    ensures found { IsOneFinding }
{}

/// The lanes after one call more. A new stream comes behind them while there are fewer than 64; else they
/// stay as they are.
pub fn lanes_go_on()
    ensures new { IsNewLane }
    ensures known { IsKnownLane }
    ensures full { StaysFull }
{}
