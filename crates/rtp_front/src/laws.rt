//! Laws of what a front tells. Each function's contract is a law; the functions do nothing.
ghost use Rattle.rtp_front.specs.Laws.{IsLeftAsItWas, IsPacketToldAsBefore, IsCompoundToldAsBefore};

use rtp_session::laws::sources_are_told_alone;

/// What comes to a front about others, however much, leaves a source of a session as it was: its
/// counts, its name and its waiting packets. A packet of a kept source, and a compound, are then told
/// as if nothing had come.
pub fn sources_stand_alone()
    ensures source { IsLeftAsItWas }
    ensures packet { IsPacketToldAsBefore }
    ensures compound { IsCompoundToldAsBefore }
{
    // A law for the proof; the call does nothing.
    sources_are_told_alone();
}
