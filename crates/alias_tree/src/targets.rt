//! Where the target groups of aliases stand in zone order.

ghost use Rattle.std.specs.Prelude.{IfOk};
ghost use Rattle.set_search.specs.Zones.{IsRising};
ghost use Rattle.alias_tree.specs.Targets.{IsTargetOf, AreTargets};

use crate::listed::Listed;
use octets::OutOfMemory;
use set_search::{Body, RecordSet, group_in};
use std::alloc::Global;

/// The places of a target group: the first of them, and how many they are.
#[derive(Clone, Copy)]
pub struct Target {
    pub start: usize,
    pub count: usize,
}

/// Where the target group of a set stands. A set that is no alias has one without places.
pub fn target_of(sets: &[RecordSet], set: &RecordSet) -> Target
    requires { IsRising sets.now }
    ensures { IsTargetOf sets.now set.now result }
{
    match &set.body {
        Body::Alias { target, .. } => {
            let (start, count) = group_in(&Listed { sets }, target, set.rtype, None);
            Target { start, count }
        }
        Body::Values { .. } => Target { start: 0, count: 0 },
    }
}

/// Where the target group of each set stands.
pub fn targets_of(alloc: Global, sets: &[RecordSet]) -> Result<Vec<Target>, OutOfMemory>
    requires { IsRising sets.now }
    ensures { IfOk result (λ targets. AreTargets sets.now targets.items) }
{
    let mut targets = Vec::with_capacity(alloc, sets.len())?;
    for i in 0..sets.len() {
        targets.push(target_of(sets, &sets[i]))?;
    }
    Ok(targets)
}
