//! The rule that the sets of a group have one policy.

ghost use Rattle.std.specs.Prelude.{◌≡◌, ◌<◌, [], length, IsTrue, ◌↔◌};
ghost use Rattle.batch_model.specs.Rules.{OnePolicy, BreaksAt, policy_of};
ghost use Rattle.batch_model.specs.Zones.{IsRising};
ghost use Rattle.zone_rules.specs.Groups.{IsStart};
ghost use Rattle.zone_rules.specs.Lent.{sets_lent};

use crate::lent::set_at;
use batch_model::{RecordSet, Routing};

/// Whether the set at place `i` has another policy than the set before it in its group, which
/// begins at `start`.
pub fn is_mixed(sets: &[&RecordSet], start: usize, i: usize) -> bool
    requires rising { IsRising (sets_lent sets.now) }
    requires within { i < length (sets_lent sets.now) }
    requires start { IsStart (sets_lent sets.now) start i }
    ensures { IsTrue result ↔ BreaksAt OnePolicy (sets_lent sets.now) [] i }
{
    if start == i {
        return false;
    }
    !is_one_policy(&set_at(sets, i - 1).routing, &set_at(sets, i).routing)
}

/// Whether the two have one policy.
pub fn is_one_policy(policy: &Routing, other: &Routing) -> bool
    ensures { IsTrue result ↔ (policy_of policy.now ≡ policy_of other.now) }
{
    policy_of(policy) == policy_of(other)
}

/// A number for each policy, and for IP-based routing that of its collection.
fn policy_of(policy: &Routing) -> (u8, u32)
    ensures { result ≡ policy_of policy.now }
{
    match policy {
        Routing::Simple => (0, 0),
        Routing::Weighted(..) => (1, 0),
        Routing::Failover(..) => (2, 0),
        Routing::Geolocation(..) => (3, 0),
        Routing::Latency(..) => (4, 0),
        Routing::Multivalue(_) => (5, 0),
        Routing::Cidr(_, collection, _) => (6, *collection),
    }
}
