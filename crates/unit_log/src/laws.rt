//! What holds of the unit lines of every log.
ghost use Rattle.unit_log.specs.Laws.{GoesOn};

/// Unit lines and their text go on as the log does.
pub fn goes_on()
    ensures { GoesOn }
{}
