//! What one walk over the groups finds: the first set that breaks each rule on groups.

ghost use Rattle.std.specs.Prelude.{◌≡◌, []};
ghost use Rattle.batch_model.specs.Rules.{OnePolicy, OwnPlace, GroupSize};
ghost use Rattle.batch_model.specs.Zones.{IsRising};
ghost use Rattle.zone_rules.specs.Breaks.{IsFirstPlace};
ghost use Rattle.zone_rules.specs.Lent.{sets_lent};

use crate::groups::start_of;
use crate::marks::mark_next;
use crate::places::has_same_place;
use crate::policies::is_mixed;
use crate::sizes::is_past_most;
use batch_model::RecordSet;

/// For each rule on groups, the place of the first set that breaks it.
#[derive(Clone, Copy)]
pub struct Findings {
    /// The policy differs from that of the set before it in its group.
    pub mixed: Option<usize>,
    /// An earlier set of the group has the place, failover role or region.
    pub same_place: Option<usize>,
    /// The group has more than 100 sets.
    pub full: Option<usize>,
}

/// Goes through the sets once, with all three rules.
pub fn look_at_groups(sets: &[&RecordSet]) -> Findings
    requires { IsRising (sets_lent sets.now) }
    ensures mixed { IsFirstPlace OnePolicy (sets_lent sets.now) [] result.mixed }
    ensures same_place { IsFirstPlace OwnPlace (sets_lent sets.now) [] result.same_place }
    ensures full { IsFirstPlace GroupSize (sets_lent sets.now) [] result.full }
{
    let mut mixed = None;
    let mut same_place = None;
    let mut full = None;
    let mut marks = [false; 256];
    let mut start = 0;
    for i in 0..sets.len() {
        start = start_of(sets, start, i);
        if mixed.is_none() && is_mixed(sets, start, i) {
            mixed = Some(i);
        }
        if same_place.is_none() && has_same_place(sets, &marks, start, i) {
            same_place = Some(i);
        }
        mark_next(&mut marks, sets, start, i);
        if full.is_none() && is_past_most(start, i) {
            full = Some(start);
        }
    }
    Findings {
        mixed,
        same_place,
        full,
    }
}
