//! What holds of every packet.
ghost use Rattle.rtp_wire.specs.View.{AreTheirBytes};

/// A packet is the one that its bytes show, and these fail no test.
pub fn packets_are_their_bytes()
    ensures { AreTheirBytes }
{}
