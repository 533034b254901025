//! Why a command is refused, and what one makes.

ghost use Rattle.std.specs.Prelude.{◌≡◌};
ghost use Rattle.config_model.specs.Telling.{of_batch, of_check, of_fault};

use check_model::CheckRefusal;
use command_octets::{BatchRefusal, CidrFault, Ident};
use set_reading::{Name, RType, Reason, SetKey};

/// What is wrong with a command by itself, or beside what is there.
#[derive(Clone, Copy)]
pub enum InputReason {
    /// A batch without changes.
    EmptyBatch,
    /// The set of a change is refused by itself.
    Set(Reason),
    /// A zone's name is the root, or its first label is `*`.
    BadZoneName,
    /// Two of the four name servers are equal.
    RepeatedValue,
    /// A zone of the name is there.
    ZoneExists,
    /// A child is named twice.
    ChildRepeated,
    /// A walk of five checks would stand, each a child of the one before.
    ChildTooDeep,
    /// A check of an endpoint has neither a threshold of healthy children nor children.
    WrongMember,
    /// A collection of the name is there.
    CollectionExists,
    /// A block's length is outside 1 to 24 (IPv4) and 1 to 48 (IPv6).
    BlockLength,
}

/// Why a command is refused. Of several refusals that hold the first is told, in the order that
/// the command's rules have.
#[derive(Clone, Copy)]
pub enum Refusal {
    /// No zone has the number.
    NoSuchHostedZone,
    /// Told with the place of a change where the set of a change is refused by itself.
    InvalidInput {
        change: Option<usize>,
        reason: InputReason,
    },
    /// More than 1,000 values and aliases, those of an UPSERT counted twice.
    TooManyValues,
    /// More than 32,000 bytes of value texts, those of an UPSERT counted twice; or a set of more
    /// than 65,536 octets.
    TooManyCharacters,
    /// The name of this change is not at or below the apex.
    NotInZone(usize),
    /// CREATE of a set whose key is there.
    AlreadyExists(usize),
    /// DELETE of a set whose key isn't there.
    NotFound(usize),
    /// DELETE of a set that is there otherwise than it is given.
    ValuesDiffer(usize),
    /// DELETE of the NS or SOA set at the apex.
    ApexProtected(usize),
    /// This set has another policy than the set before it in its group.
    MixedPolicies(SetKey),
    /// This name has a CNAME set beside a set of another type, or is the apex and has a CNAME set.
    CnameConflict(Name),
    /// This set has the place, the failover role, the region or the location of an earlier set of
    /// its group.
    SamePlace(SetKey),
    /// The group of this name and type has more than 100 sets.
    GroupFull(Name, RType),
    /// No check has this number.
    NoSuchHealthCheck(u32),
    /// This set is an alias, and its target group is empty.
    AliasTargetMissing(SetKey),
    /// A walk of 17 alias links starts at this set.
    AliasTooDeep(SetKey),
    /// More than 10,000 sets in the zone.
    ZoneFull,
    /// More than 100,000 sets, or more than 67,108,864 octets of sets, in all zones.
    StoreFull,
    /// The journal would have more octets than it may, from this length.
    JournalFull(u64),
    OutOfMemory,
    /// A device failed.
    DiskFault,
    /// The zone has a set other than the NS and SOA sets of its apex.
    HostedZoneNotEmpty,
    /// A set or a calculated check names this check.
    HealthCheckInUse(u32),
    /// 200 checks are there.
    TooManyHealthChecks,
    /// 500 zones are there.
    TooManyHostedZones,
    /// There is no number for another zone, check or collection.
    IdsEnded,
    /// 100 collections are there.
    TooManyCidrCollections,
    /// No collection has this number.
    NoSuchCidrCollection(u32),
    /// A block that is put stands under another location.
    CidrBlockInUse,
    /// A collection of more than 1,000 blocks.
    TooManyCidrBlocks,
    /// The collection has a block, or a set names it.
    CidrCollectionInUse,
    /// A set names this location, which would have no block.
    CidrLocationInUse(Ident),
    /// This location, which a set names, has no block in its collection.
    NoSuchCidrLocation(Ident),
}

/// What a command makes, by its number.
#[derive(Clone, Copy, Debug, PartialEq, Eq)]
pub enum Made {
    Zone(u32),
    Check(u32),
    Collection(u32),
    Nothing,
}

/// The refusal of a batch, as that of a command.
pub fn of_batch(why: &BatchRefusal) -> Refusal
    ensures { result ≡ of_batch why.now }
{
    match why {
        BatchRefusal::EmptyBatch => invalid(InputReason::EmptyBatch),
        BatchRefusal::InvalidInput(i, reason) => Refusal::InvalidInput {
            change: Some(*i),
            reason: InputReason::Set(*reason),
        },
        BatchRefusal::TooManyValues => Refusal::TooManyValues,
        BatchRefusal::TooManyCharacters => Refusal::TooManyCharacters,
        BatchRefusal::NotInZone(i) => Refusal::NotInZone(*i),
        BatchRefusal::AlreadyExists(i) => Refusal::AlreadyExists(*i),
        BatchRefusal::NotFound(i) => Refusal::NotFound(*i),
        BatchRefusal::ValuesDiffer(i) => Refusal::ValuesDiffer(*i),
        BatchRefusal::ApexProtected(i) => Refusal::ApexProtected(*i),
        BatchRefusal::MixedPolicies(key) => Refusal::MixedPolicies(*key),
        BatchRefusal::CnameConflict(name) => Refusal::CnameConflict(*name),
        BatchRefusal::SamePlace(key) => Refusal::SamePlace(*key),
        BatchRefusal::GroupFull(name, rtype) => Refusal::GroupFull(*name, *rtype),
        BatchRefusal::OutOfMemory => Refusal::OutOfMemory,
    }
}

/// The refusal of a command on health checks, as that of a command.
pub fn of_check(why: CheckRefusal) -> Refusal
    ensures { result ≡ of_check why }
{
    match why {
        CheckRefusal::ChildRepeated => invalid(InputReason::ChildRepeated),
        CheckRefusal::ChildTooDeep => invalid(InputReason::ChildTooDeep),
        CheckRefusal::WrongMember => invalid(InputReason::WrongMember),
        CheckRefusal::NoSuchHealthCheck(id) => Refusal::NoSuchHealthCheck(id),
        CheckRefusal::HealthCheckInUse(id) => Refusal::HealthCheckInUse(id),
        CheckRefusal::TooManyHealthChecks => Refusal::TooManyHealthChecks,
        CheckRefusal::IdsEnded => Refusal::IdsEnded,
    }
}

/// The refusal of a command on collections, as that of a command.
pub fn of_fault(why: &CidrFault) -> Refusal
    ensures { result ≡ of_fault why.now }
{
    match why {
        CidrFault::CollectionExists => invalid(InputReason::CollectionExists),
        CidrFault::BlockLength => invalid(InputReason::BlockLength),
        CidrFault::IdsEnded => Refusal::IdsEnded,
        CidrFault::TooManyCidrCollections => Refusal::TooManyCidrCollections,
        CidrFault::NoSuchCidrCollection(id) => Refusal::NoSuchCidrCollection(*id),
        CidrFault::CidrBlockInUse => Refusal::CidrBlockInUse,
        CidrFault::TooManyCidrBlocks => Refusal::TooManyCidrBlocks,
        CidrFault::CidrCollectionInUse => Refusal::CidrCollectionInUse,
        CidrFault::CidrLocationInUse(location) => Refusal::CidrLocationInUse(*location),
        CidrFault::OutOfMemory => Refusal::OutOfMemory,
    }
}

/// What is wrong with a command other than a batch's change.
fn invalid(reason: InputReason) -> Refusal
    ensures { result ≡ Rattle.config_model.specs.Telling.invalid reason }
{
    Refusal::InvalidInput {
        change: None,
        reason,
    }
}
