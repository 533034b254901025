//! Whether a group has a healthy set, which decides which of its sets are considered.

ghost use Rattle.std.specs.Prelude.{◌≡◌};
ghost use Rattle.considered_sets.specs.Considered.{some_healthy};

/// Whether some set of a group is healthy. Where none is, all are considered.
pub fn some_healthy(healthy: &[bool]) -> bool
    ensures { result ≡ some_healthy healthy.now }
{
    healthy.iter().any(|h| *h)
}
