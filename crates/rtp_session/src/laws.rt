//! Laws of what a session tells. Each function's contract is a law; the functions do nothing.
ghost use Rattle.rtp_session.specs.Laws.{IsLeftAlone, IsPacketToldAlone, IsCompoundToldAlone, IsReportedAlone};

use front_model::laws::sources_stand_alone;

/// What a session tells of a source hangs on what it was given about this source alone, and on whether
/// a new source is taken in.
pub fn sources_are_told_alone()
    ensures others { IsLeftAlone }
    ensures packet { IsPacketToldAlone }
    ensures compound { IsCompoundToldAlone }
    ensures report { IsReportedAlone }
{
    // A law for the proof; the call does nothing.
    sources_stand_alone();
}
