//! The sets asked in turn: the healthy ones first, and of these the primary first.

ghost use Rattle.std.specs.Prelude.{◌≡◌, ◌≤◌, ◌<◌, ◌&&◌, ◌||◌, length, slice_get, IfSome};
ghost use Rattle.failover.specs.Choice.{chosen, is_role, sets_of};
ghost use Rattle.considered_sets.specs.Healthy.{asked};

use routing::Role;

/// Chooses a set of a failover group. The answer is its place.
///
/// It is the primary if healthy, else the secondary if healthy, else the primary; and the secondary
/// where there is no primary.
pub fn choose(roles: &[Role], healthy: &[bool]) -> usize
    requires one_length { length roles.now ≡ length healthy.now }
    requires some { 1 ≤ length healthy.now }
    ensures chosen { result ≡ chosen roles.now healthy.now }
    ensures within { result < length roles.now }
{
    if let Some(set) = find(roles, healthy, Role::Primary, false) {
        return set;
    }
    if let Some(set) = find(roles, healthy, Role::Secondary, false) {
        return set;
    }
    if let Some(set) = find(roles, healthy, Role::Primary, true) {
        return set;
    }
    // no set is a primary, so the first one is a secondary
    0
}

/// The first set of a role, among the healthy ones or among all.
fn find(roles: &[Role], healthy: &[bool], role: Role, all: bool) -> Option<usize>
    requires one_length { length roles.now ≡ length healthy.now }
    ensures first { result ≡ slice_get (asked all healthy.now (sets_of role roles.now)) 0 }
    ensures within { IfSome result (λ set. set < length roles.now) }
{
    for i in 0..roles.len() {
        if is_asked(roles[i], role, healthy[i], all) {
            return Some(i);
        }
    }
    None
}

/// Whether a set has the role and is one of those that are asked.
fn is_asked(here: Role, role: Role, healthy: bool, all: bool) -> bool
    ensures { result ≡ (is_role role here && (all || healthy)) }
{
    is_role(role, here) && (all || healthy)
}

/// Whether two roles are one.
fn is_role(role: Role, other: Role) -> bool
    ensures { result ≡ is_role role other }
{
    match (role, other) {
        (Role::Primary, Role::Primary) => true,
        (Role::Secondary, Role::Secondary) => true,
        _ => false,
    }
}
