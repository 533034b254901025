//! The first set at which a walk of 17 links starts, found in rounds.
//!
//! A walk of one link starts at each alias, and a walk of a link more where one starts at a set of
//! the target group.

ghost use Rattle.std.specs.Prelude.{◌≡◌, List, length, IfOk};
ghost use Rattle.set_search.specs.RecordSetRecord.{RecordSet};
ghost use Rattle.set_search.specs.Walks.{IsTooDeep};
ghost use Rattle.set_search.specs.Zones.{IsRising};
ghost use Rattle.alias_tree.specs.Firsts.{IsFirstPlace};
ghost use Rattle.alias_tree.specs.Starts.{AreStarts};
ghost use Rattle.alias_tree.specs.Targets.{AreTargets, AreWithin};

use crate::first::first_marked;
use crate::missing::is_alias;
use crate::rounds::lead_on;
use crate::targets::{Target, targets_of};
use octets::OutOfMemory;
use set_search::RecordSet;
use std::alloc::Global;

/// The most links of a walk.
const MOST_LINKS: usize = 16;

/// The place of the first set at which a walk of 17 links starts; None where none starts.
pub fn walk_of_17(alloc: Global, sets: &[RecordSet]) -> Result<Option<usize>, OutOfMemory>
    requires { IsRising sets.now }
    ensures { IfOk result (λ place. IsFirstPlace (IsTooDeep sets.now) sets.now place) }
{
    let targets = targets_of(alloc, sets)?;
    let mut starts = aliases_of(alloc, sets)?;
    let mut next = marks(alloc, sets.len())?;
    lengthen(&targets, starts.as_mut_slice(), next.as_mut_slice());
    Ok(first_marked(&starts))
}

/// A mark at each alias: there a walk of one link starts.
fn aliases_of(alloc: Global, sets: &[RecordSet]) -> Result<Vec<bool>, OutOfMemory>
    ensures { IfOk result (λ starts. AreStarts sets.now 1 starts.items) }
{
    let mut starts = Vec::with_capacity(alloc, sets.len())?;
    for i in 0..sets.len() {
        starts.push(is_alias(&sets[i].body))?;
    }
    Ok(starts)
}

/// So many marks, none of which is set.
fn marks(alloc: Global, len: usize) -> Result<Vec<bool>, OutOfMemory>
    ensures { IfOk result (λ marks. length marks.items ≡ len) }
{
    let marks = vec![in alloc; false; len]?;
    Ok(marks)
}

/// From the marks where walks of one link start to those where walks of 17 do.
fn lengthen(targets: &[Target], starts: &mut [bool], next: &mut [bool])
    requires within { AreWithin targets.now (length starts.old) }
    requires starts { length starts.old ≡ length targets.now }
    requires next { length next.old ≡ length targets.now }
    ensures { (sets : List RecordSet) → AreTargets sets targets.now
        → AreStarts sets 1 starts.old → AreStarts sets 17 starts.new }
{
    for round in 0..MOST_LINKS {
        // Where no walk of so many links starts, no longer one does.
        if first_marked(starts).is_none() {
            return;
        }
        lead_on(targets, starts, next);
        starts.copy_from_slice(next);
    }
}
