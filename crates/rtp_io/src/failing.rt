//! Calls that are to fail, by their numbers.
ghost use Rattle.std.specs.Prelude.{◌≡◌, ◌+◌, ◌-◌, ◌^◌, ◌↔◌, IsTrue, Contains, min};

/// Counts a call, from 1 on, and tells whether it is one of those that fail.
pub(crate) fn is_to_fail(failing: &[u64], calls: &mut u64) -> bool
    ensures fails { IsTrue result ↔ Contains failing.now calls.new }
    ensures calls { calls.new ≡ min (calls.old + 1) (2 ^ 64 - 1) }
{
    *calls = calls.saturating_add(1);
    failing.contains(calls)
}
