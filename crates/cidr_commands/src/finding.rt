//! Collections found by their numbers.

ghost use Rattle.std.specs.Prelude.{◌≡◌};
ghost use Rattle.cidr_commands.specs.Stored.{IdsRise, NextIdOrNone, PlaceOrNone};

use cidr_changes::Collection;

/// Where the collection of a number stands.
pub fn place_of(list: &[(u32, Collection)], id: u32) -> Option<usize>
    ensures { PlaceOrNone list.now id result }
{
    for i in 0..list.len() {
        if list[i].0 == id {
            return Some(i);
        }
    }
    None
}

/// The least number above a given one.
pub fn id_after(list: &[(u32, Collection)], id: u32) -> Option<u32>
    requires { IdsRise list.now }
    ensures { NextIdOrNone list.now id result }
{
    for held in list {
        if held.0 > id {
            return Some(held.0);
        }
    }
    None
}
