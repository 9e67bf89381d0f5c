//! What holds after every list of packets and gaps.
ghost use Rattle.depay.specs.Laws.{UnitsAreWhole};

/// The packets of a unit are the latest that were given, neighbours with consecutive numbers and no gap
/// between them, and its bytes are those of one payload, of one unit of an aggregate, or of the fragments
/// from the start bit to the end bit, and of nothing else.
pub fn units_are_whole()
    ensures { UnitsAreWhole }
{}
