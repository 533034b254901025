//! Sets that are lent, in zone order: those that are there and those that changes give. None is
//! copied or moved where a change comes among them.

ghost use Rattle.std.specs.Prelude.{◌≡◌, ◌<◌, ◌≤◌, length, set, OnOk, IfOk, IsTrue, ◌↔◌};
ghost use Rattle.std.specs.List.{insert, remove};
ghost use Rattle.zone_rules.specs.Lent.{sets_lent};
ghost use Rattle.set_search.specs.Found.{IsOf};

use dns_name::Name;
use octets::OutOfMemory;
use rdata_layout::RType;
use set_search::{RecordSet, SetList, Stop, set_is_before, type_under};
use std::alloc::Global;
use zone_rules::set_at;

/// Sets that are searched where they stand.
#[derive(Clone, Copy)]
pub struct Lent<'b, 'a> {
    pub sets: &'b [&'a RecordSet],
}

impl<'b, 'a> SetList for Lent<'b, 'a> {
    ghost sets = { λ list. sets_lent list.sets.now };

    fn count(&self) -> usize {
        self.sets.len()
    }

    fn is_before(&self, place: usize, stop: &Stop) -> bool {
        set_is_before(set_at(self.sets, place), stop)
    }

    fn is_below(&self, place: usize, name: &Name) -> bool {
        set_at(self.sets, place).name.ends_with(name)
    }

    fn is_of(&self, place: usize, name: &Name, rtype: RType) -> bool {
        has_both(set_at(self.sets, place), name, rtype)
    }

    fn type_at(&self, place: usize, name: &Name) -> Option<u16> {
        type_under(set_at(self.sets, place), name)
    }
}

/// Whether a set has the name and the type.
fn has_both(set: &RecordSet, name: &Name, rtype: RType) -> bool
    ensures { IsTrue result ↔ IsOf name.now rtype set.now }
{
    if set.rtype != rtype {
        return false;
    }
    set.name.is_same(name)
}

/// Copies of the sets.
pub fn copy_all(alloc: Global, sets: &[&RecordSet]) -> Result<Vec<RecordSet>, OutOfMemory>
    ensures { IfOk result (λ copies. copies.items ≡ sets_lent sets.now) }
{
    let mut copies = Vec::with_capacity(alloc, sets.len())?;
    for place in 0..sets.len() {
        copies.push(set_at(sets, place).copy(alloc)?)?;
    }
    Ok(copies)
}

/// Puts a set before the place.
pub fn insert_at<'a>(
    sets: &mut Vec<&'a RecordSet>,
    place: usize,
    given: &'a RecordSet,
) -> Result<(), OutOfMemory>
    requires { place ≤ length (sets_lent sets.old.items) }
    ensures { OnOk result (
        sets_lent sets.new.items ≡ insert (sets_lent sets.old.items) place given.now) }
{
    sets.insert(place, given)?;
    Ok(())
}

/// Puts a set in the place of another.
pub fn replace_at<'a>(sets: &mut Vec<&'a RecordSet>, place: usize, given: &'a RecordSet)
    requires { place < length (sets_lent sets.old.items) }
    ensures { sets_lent sets.new.items ≡ set (sets_lent sets.old.items) place given.now }
{
    sets[place] = given;
}

/// Takes away the set at the place.
pub fn take_away<'a>(sets: &mut Vec<&'a RecordSet>, place: usize)
    requires { place < length (sets_lent sets.old.items) }
    ensures { sets_lent sets.new.items ≡ remove (sets_lent sets.old.items) place }
{
    sets.remove(place);
}
