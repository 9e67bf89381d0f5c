//! Laws of retransmissions. Each function's contract is a law; the functions do nothing.
ghost use Rattle.rtx.specs.Answering.{IsOneAnswer, IsOneRemembering};
ghost use Rattle.rtx.specs.Inverse.{IsInverse};
ghost use Rattle.rtx.specs.Restored.{IsUnasked};
ghost use Rattle.rtx.specs.Restoring.{IsOneRestoring};

/// Where a request is answered and one line and one pair of the map fit, restoring the answer gives the
/// remembered packet's SSRC, number, type, marker, timestamp, CSRCs, extension and payload, and no padding.
pub fn restoring_inverts_answering()
    ensures { IsInverse }
{}

/// Restoring has one answer but want of memory, and leaves one receiver: those that the definitions name as
/// functions.
pub fn restoring_has_one_answer()
    ensures { IsOneRestoring }
{}

/// Remembering has one answer, and so has a request but for want of memory.
pub fn histories_have_one_answer()
    ensures remembered { IsOneRemembering }
    ensures answered { IsOneAnswer }
{}

/// Where no request was noted, finding streams by request finds no more than the map does.
pub fn nothing_is_found_unasked()
    ensures { IsUnasked }
{}
