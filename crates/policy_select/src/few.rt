//! The bound on the sets of a group, and its test.

ghost use Rattle.std.specs.Prelude.{◌≡◌, ◌↔◌, IsTrue, length};
ghost use Rattle.zone_table.specs.Sets.{group, is_of_group};
ghost use Rattle.policy_select.specs.Groups.{FewByEachSet, FewInGroups};

use dns_name::Name;
use rdata_layout::RType;
use zone_table::RecordSet;

/// The most sets of a group (Route 53 quotas).
const MOST: usize = 100;

/// The groups of sets have few where that of each set has; it does nothing.
pub fn few_by_each_set()
    ensures { FewByEachSet }
{}

/// Whether no group of these sets has more than 100.
pub fn groups_are_few(sets: &[RecordSet]) -> bool
    ensures { IsTrue result ↔ FewInGroups sets.now }
{
    few_by_each_set();
    for set in sets {
        if count_in_group(sets, &set.name, set.rtype) > MOST {
            return false;
        }
    }
    true
}

/// How many of these sets have a name and a type.
fn count_in_group(sets: &[RecordSet], name: &Name, rtype: RType) -> usize
    ensures { result ≡ length (group sets.now name.now rtype) }
{
    let mut count = 0;
    for set in sets {
        count += usize::from(is_of_group(set, name, rtype));
    }
    count
}

/// Whether a set has the name and the type.
fn is_of_group(set: &RecordSet, name: &Name, rtype: RType) -> bool
    ensures { result ≡ is_of_group name.now rtype set.now }
{
    name == &set.name && rtype.number() == set.rtype.number()
}
