//! The zone cut above a name (RFC 1034, 4.2 and 4.3.2, step 3b).

ghost use Rattle.std.specs.Prelude.{◌≡◌, ◌+◌, length};
ghost use Rattle.dns_name.specs.Suffix.{EndsWith};
ghost use Rattle.policy_select.specs.Looking.{IsApex};
ghost use Rattle.zone_lookup.specs.Cuts.{CutOrNone};
ghost use Rattle.zone_lookup.specs.Served.{zone_of};

use crate::groups::group_of;
use dns_name::Name;
use policy_select::{Group, Zones, cuts_are_nearest, names_exist};
use rdata_layout::RType;

/// The NS sets of the zone cut above or at a name of a zone: of those below the apex it is the one
/// nearest the apex. Most zones have none, and no name is looked up then.
#[inline(always)]
pub fn cut_above(zones: &Zones, zone: u32, apex: &Name, name: &Name) -> Option<Group>
    requires there { IsApex zones.now.zones zone apex.now }
    requires inside { EndsWith name.now apex.now }
    ensures { CutOrNone zones.now.zones (zone_of zones.now.zones zone apex.now) name.now result }
{
    cuts_are_nearest();
    if !zones.may_have_cuts(zone) {
        return None;
    }
    cut_below(zones, zone, apex, name, name.labels() - apex.labels())
}

/// The same for a name with so many labels below the apex.
// Apart from the way that most queries take, which is inlined.
#[inline(never)]
fn cut_below(zones: &Zones, zone: u32, apex: &Name, name: &Name, labels: usize) -> Option<Group>
    requires inside { EndsWith name.now apex.now }
    requires labels { length name.now ≡ length apex.now + labels }
    ensures { CutOrNone zones.now.zones (zone_of zones.now.zones zone apex.now) name.now result }
{
    names_exist();
    cuts_are_nearest();
    if labels == 0 {
        return None;
    }
    if labels == 1 {
        return group_of(zones, zone, name, RType::Ns);
    }
    let Some(parent) = name.parent() else {
        unreachable!();
    };
    match cut_below(zones, zone, apex, &parent, labels - 1) {
        Some(cut) => Some(cut),
        None => group_of(zones, zone, name, RType::Ns),
    }
}
