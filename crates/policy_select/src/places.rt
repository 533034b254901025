//! The places of a group that were chosen.

ghost use Rattle.std.specs.Prelude.{◌≡◌};
ghost use Rattle.policy_select.specs.Selecting.{places_of};

use multivalue::Picked;

/// The places, in the order of the choice.
pub fn places_of(picked: &Picked) -> &[usize]
    ensures { result.now ≡ places_of picked.now }
{
    let count = picked.count.min(8);
    &picked.places[..count]
}
