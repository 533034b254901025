//! Which sets are healthy, as far as choices ask.

ghost use Rattle.std.specs.Prelude.{◌≡◌, Bool, true};
ghost use Rattle.zone_table.specs.SetRefRecord.{SetRef};
ghost use Rattle.policy_select.specs.Groups.{ViewsAgree};

use zone_table::SetRef;

/// Tells of each set whether it is healthy.
pub trait HealthView {
    /// The test of healthy sets, by their references.
    ghost test: { Self → SetRef → Bool };

    /// Whether the set that a reference names is healthy.
    fn is_healthy(&self, set: SetRef) -> bool
        ensures { result ≡ test self.now set };
}

/// A view in which every set is healthy.
#[derive(Clone, Copy, Debug, PartialEq, Eq)]
pub struct AllHealthy;

impl HealthView for AllHealthy {
    ghost use Rattle.std.specs.Prelude.{true};

    ghost test = { λ view set. true };

    fn is_healthy(&self, set: SetRef) -> bool
        ensures { result ≡ true }
    {
        true
    }
}

/// A view says of each set what some test of keys says of its key; it does nothing.
pub fn views_agree()
    ensures { ViewsAgree }
{}
