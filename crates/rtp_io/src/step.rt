//! Reads and writes of few bytes at a time.
ghost use Rattle.std.specs.Prelude.{◌≡◌, ◌<◌, ◌≤◌};
ghost use Rattle.rtp_io.specs.Memory.{held_to};

/// A length that is held to a step, if there is one. A step of 0 counts as 1.
pub(crate) fn at_most(step: Option<usize>, len: usize) -> usize
    ensures bound { result ≤ len }
    ensures some { 0 < len → 0 < result }
    ensures exact { result ≡ held_to step len }
{
    match step {
        Some(step) => len.min(step.max(1)),
        None => len,
    }
}
