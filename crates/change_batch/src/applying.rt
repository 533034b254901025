//! One change, applied to the sets.

ghost use Rattle.std.specs.Prelude.{◌≡◌, OnOk, IfErr, Ok, Err, IsTrue, ◌↔◌};
ghost use Rattle.dns_name.specs.Suffix.{EndsWith};
ghost use Rattle.set_search.specs.Reasons.{IsOfZone};
ghost use Rattle.set_search.specs.Sets.{key_of};
ghost use Rattle.batch_limits.specs.ActionRecord.TheVariants.{Create, Delete, Upsert};
ghost use Rattle.batch_limits.specs.Changing.{Applies, IsProtected, IsThereAsGiven};
ghost use Rattle.set_search.specs.Zones.{IsRising};
ghost use Rattle.set_search.specs.Found.{Finds, FindsAt};
ghost use Rattle.zone_rules.specs.Lent.{sets_lent};

use crate::lent::{Lent, insert_at, replace_at, take_away};
use crate::near::Near;
use batch_limits::{Action, Change, ChangeRefusal};
use dns_name::Name;
use octets::OutOfMemory;
use rdata_layout::RType;
use set_search::{RecordSet, find_near, same};
use zone_rules::set_at;

/// Applies a change. Where it is refused, the sets may be thrown away.
///
/// Its set may stand near that of the change before.
pub fn apply<'a>(
    sets: &mut Vec<&'a RecordSet>,
    apex: &Name,
    change: &'a Change,
    near: &mut Near,
) -> Result<(), ChangeRefusal>
    requires { IsRising (sets_lent sets.old.items) }
    ensures ok { OnOk result (
        Applies (sets_lent sets.old.items) apex.now change.now (Ok (sets_lent sets.new.items))) }
    ensures err { IfErr result (λ why.
        Applies (sets_lent sets.old.items) apex.now change.now (Err why)) }
{
    if !change.set.name.ends_with(apex) {
        return Err(ChangeRefusal::NotInZone);
    }
    match change.action {
        Action::Create => create(sets, apex, change, near),
        Action::Delete => delete(sets, apex, change, near),
        Action::Upsert => upsert(sets, apex, change, near),
    }
}

/// Adds a set whose key isn't there.
fn create<'a>(
    sets: &mut Vec<&'a RecordSet>,
    apex: &Name,
    change: &'a Change,
    near: &mut Near,
) -> Result<(), ChangeRefusal>
    requires rising { IsRising (sets_lent sets.old.items) }
    requires inside { EndsWith change.now.set.name apex.now }
    requires action { change.now.action ≡ Create }
    ensures ok { OnOk result (
        Applies (sets_lent sets.old.items) apex.now change.now (Ok (sets_lent sets.new.items))) }
    ensures err { IfErr result (λ why.
        Applies (sets_lent sets.old.items) apex.now change.now (Err why)) }
{
    let place = match find_set(sets, &change.set, near) {
        Ok(_) => return Err(ChangeRefusal::AlreadyExists),
        Err(place) => place,
    };
    match insert_at(sets, place, &change.set) {
        Ok(()) => Ok(()),
        Err(OutOfMemory) => Err(ChangeRefusal::OutOfMemory),
    }
}

/// Takes away a set that is there as it is given.
fn delete<'a>(
    sets: &mut Vec<&'a RecordSet>,
    apex: &Name,
    change: &'a Change,
    near: &mut Near,
) -> Result<(), ChangeRefusal>
    requires rising { IsRising (sets_lent sets.old.items) }
    requires inside { EndsWith change.now.set.name apex.now }
    requires action { change.now.action ≡ Delete }
    ensures ok { OnOk result (
        Applies (sets_lent sets.old.items) apex.now change.now (Ok (sets_lent sets.new.items))) }
    ensures err { IfErr result (λ why.
        Applies (sets_lent sets.old.items) apex.now change.now (Err why)) }
{
    let place = match find_set(sets, &change.set, near) {
        Ok(place) => place,
        Err(_) => return Err(ChangeRefusal::NotFound),
    };
    if !is_as_given(sets.as_slice(), place, &change.set) {
        return Err(ChangeRefusal::ValuesDiffer);
    }
    if is_protected(&change.set, apex) {
        return Err(ChangeRefusal::ApexProtected);
    }
    take_away(sets, place);
    Ok(())
}

/// Adds a set, or puts it in the place of the one with its key.
fn upsert<'a>(
    sets: &mut Vec<&'a RecordSet>,
    apex: &Name,
    change: &'a Change,
    near: &mut Near,
) -> Result<(), ChangeRefusal>
    requires rising { IsRising (sets_lent sets.old.items) }
    requires inside { EndsWith change.now.set.name apex.now }
    requires action { change.now.action ≡ Upsert }
    ensures ok { OnOk result (
        Applies (sets_lent sets.old.items) apex.now change.now (Ok (sets_lent sets.new.items))) }
    ensures err { IfErr result (λ why.
        Applies (sets_lent sets.old.items) apex.now change.now (Err why)) }
{
    match find_set(sets, &change.set, near) {
        Ok(place) => {
            replace_at(sets, place, &change.set);
            Ok(())
        }
        Err(place) => match insert_at(sets, place, &change.set) {
            Ok(()) => Ok(()),
            Err(OutOfMemory) => Err(ChangeRefusal::OutOfMemory),
        },
    }
}

/// The place of the set with the key of this one, or else that at which it would stand.
fn find_set(sets: &Vec<&RecordSet>, given: &RecordSet, near: &mut Near) -> Result<usize, usize>
    requires { IsRising (sets_lent sets.now.items) }
    ensures { Finds (sets_lent sets.now.items) (key_of given.now) result }
{
    let found = find_near(
        &Lent {
            sets: sets.as_slice(),
        },
        &given.key(),
        near.hint(),
    );
    near.found(&found);
    found
}

/// Whether the set with the key of this one, which stands at the place, is equal to it.
fn is_as_given(sets: &[&RecordSet], place: usize, given: &RecordSet) -> bool
    requires { FindsAt (sets_lent sets.now) (key_of given.now) place }
    ensures { IsTrue result ↔ IsThereAsGiven (sets_lent sets.now) given.now }
{
    same(set_at(sets, place), given)
}

/// Whether the set can't be deleted: the NS or SOA set at the apex.
fn is_protected(set: &RecordSet, apex: &Name) -> bool
    ensures { IsTrue result ↔ IsProtected set.now apex.now }
{
    is_of_zone(set.rtype) && set.name.is_same(apex)
}

/// Whether the type says how a zone is served.
fn is_of_zone(rtype: RType) -> bool
    ensures { IsTrue result ↔ IsOfZone rtype }
{
    rtype == RType::Ns || rtype == RType::Soa
}
