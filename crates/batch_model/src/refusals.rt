//! Why a batch is refused, and why one change of it is.

ghost use Rattle.std.specs.Prelude.{◌≡◌};
ghost use Rattle.batch_model.specs.Telling.{refusal_at};

use zone_model::{Name, RType, Reason, SetKey};

/// Why a batch is refused. Of several refusals the first in this order is told; those with the
/// place of a change are told change by change, an earlier change's first.
///
/// A key, a name or a group that is told is the first in zone order.
#[derive(Clone, Copy)]
pub enum BatchRefusal {
    /// It has no changes.
    EmptyBatch,
    /// The set of this change is refused by itself, for this reason.
    InvalidInput(usize, Reason),
    /// It has more than 1,000 values and aliases, those of an UPSERT counted twice.
    TooManyValues,
    /// Its value texts have more than 32,000 bytes, those of an UPSERT counted twice; or a set has
    /// more than 65,536 octets.
    TooManyCharacters,
    /// The name of this change is not at or below the apex.
    NotInZone(usize),
    /// CREATE of a set whose key is there.
    AlreadyExists(usize),
    /// DELETE of a set whose key isn't there.
    NotFound(usize),
    /// DELETE of a set that is there otherwise than it is given.
    ValuesDiffer(usize),
    /// DELETE of the NS or SOA set at the apex.
    ApexProtected(usize),
    /// This set has another policy than the set before it in its group.
    MixedPolicies(SetKey),
    /// This name has a CNAME set beside a set of another type, or is the apex and has a CNAME set.
    CnameConflict(Name),
    /// This set has the place, the failover role, the region or the location of an earlier set of its group.
    SamePlace(SetKey),
    /// The group of this name and type has more than 100 sets.
    GroupFull(Name, RType),
    OutOfMemory,
}

/// Why one change is refused. Of several reasons the first in this order is told.
#[derive(Clone, Copy, Debug, PartialEq, Eq)]
pub enum ChangeRefusal {
    /// The name is not at or below the apex.
    NotInZone,
    /// CREATE of a set whose key is there.
    AlreadyExists,
    /// DELETE of a set whose key isn't there.
    NotFound,
    /// DELETE of a set that is there otherwise than it is given.
    ValuesDiffer,
    /// DELETE of the NS or SOA set at the apex.
    ApexProtected,
    OutOfMemory,
}

impl ChangeRefusal {
    /// The refusal of a batch of which the change at this place is refused so.
    pub fn at(self, i: usize) -> BatchRefusal
        ensures { result ≡ refusal_at i self }
    {
        match self {
            ChangeRefusal::NotInZone => BatchRefusal::NotInZone(i),
            ChangeRefusal::AlreadyExists => BatchRefusal::AlreadyExists(i),
            ChangeRefusal::NotFound => BatchRefusal::NotFound(i),
            ChangeRefusal::ValuesDiffer => BatchRefusal::ValuesDiffer(i),
            ChangeRefusal::ApexProtected => BatchRefusal::ApexProtected(i),
            ChangeRefusal::OutOfMemory => BatchRefusal::OutOfMemory,
        }
    }
}
