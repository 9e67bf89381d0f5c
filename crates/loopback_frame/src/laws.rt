//! What holds of every frame.
ghost use Rattle.loopback_frame.specs.Carried.{AreCarried};

/// A capture of raw IP packets has in such a frame the datagram whose payload it was made of, where
/// that has at most 9,216 bytes.
pub fn frames_carry_their_payloads()
    ensures { AreCarried }
{}
