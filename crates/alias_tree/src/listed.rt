//! A slice of sets as a list that is searched.

ghost use Rattle.std.specs.Prelude.{IsTrue, ◌↔◌};
ghost use Rattle.set_search.specs.Found.{IsOf};

use dns_name::Name;
use rdata_layout::RType;
use set_search::{RecordSet, SetList, Stop, set_is_before, type_under};

/// Sets that are searched where they stand.
#[derive(Clone, Copy)]
pub struct Listed<'a> {
    pub sets: &'a [RecordSet],
}

impl<'a> SetList for Listed<'a> {
    ghost sets = { λ list. list.sets.now };

    fn count(&self) -> usize {
        self.sets.len()
    }

    fn is_before(&self, place: usize, stop: &Stop) -> bool {
        set_is_before(&self.sets[place], stop)
    }

    fn is_below(&self, place: usize, name: &Name) -> bool {
        self.sets[place].name.ends_with(name)
    }

    fn is_of(&self, place: usize, name: &Name, rtype: RType) -> bool {
        has_both(&self.sets[place], name, rtype)
    }

    fn type_at(&self, place: usize, name: &Name) -> Option<u16> {
        type_under(&self.sets[place], name)
    }
}

/// Whether a set has the name and the type.
fn has_both(set: &RecordSet, name: &Name, rtype: RType) -> bool
    ensures { IsTrue result ↔ IsOf name.now rtype set.now }
{
    if set.rtype != rtype {
        return false;
    }
    set.name.is_same(name)
}
