//! The rule that a group has no more than 100 sets.

ghost use Rattle.std.specs.Prelude.{◌≤◌, ◌+◌, IsTrue, ◌↔◌};

/// The most sets of a group.
const MOST_SETS: usize = 100;

/// Whether place `i` lies behind the first 100 places of a group that begins at `start`.
pub fn is_past_most(start: usize, i: usize) -> bool
    requires { start ≤ i }
    ensures { IsTrue result ↔ (start + 100 ≤ i) }
{
    i - start >= MOST_SETS
}
