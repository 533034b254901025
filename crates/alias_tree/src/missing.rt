//! The first alias whose target group has no sets.

ghost use Rattle.std.specs.Prelude.{◌↔◌, IsTrue};
ghost use Rattle.set_search.specs.Reasons.{IsAlias};
ghost use Rattle.set_search.specs.Walks.{HasNoTarget};
ghost use Rattle.set_search.specs.Zones.{IsRising};
ghost use Rattle.alias_tree.specs.Firsts.{IsFirstPlace};

use crate::targets::target_of;
use set_search::{Body, RecordSet};

/// The place of the first set that is an alias of an empty target group; None where no set is.
pub fn missing_target(sets: &[RecordSet]) -> Option<usize>
    requires { IsRising sets.now }
    ensures { IsFirstPlace (HasNoTarget sets.now) sets.now result }
{
    for i in 0..sets.len() {
        if has_no_target(sets, &sets[i]) {
            return Some(i);
        }
    }
    None
}

/// Whether the set is an alias of an empty target group.
fn has_no_target(sets: &[RecordSet], set: &RecordSet) -> bool
    requires { IsRising sets.now }
    ensures { IsTrue result ↔ HasNoTarget sets.now set.now }
{
    is_alias(&set.body) && target_of(sets, set).count == 0
}

/// Whether the set is an alias.
pub fn is_alias(body: &Body) -> bool
    ensures { IsTrue result ↔ IsAlias body.now }
{
    match body {
        Body::Values { .. } => false,
        Body::Alias { .. } => true,
    }
}
