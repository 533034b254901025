//! Laws over the definitions, each the contract of a function that does nothing.

ghost use Rattle.store_model.specs.Laws.{AcceptedAreTaken, AppendsMayOpen, AppendsOpen};
ghost use Rattle.store_model.specs.Laws.{BaselessIsNoStore, BrokenIsNoStore, CompactedOpens};
ghost use Rattle.store_model.specs.Laws.{DecidingOpens, EmptyIsWritten, EmptyOpens};
ghost use Rattle.store_model.specs.Laws.{FaultyIsNoStore, InitOpens, LastIsTaken, LastWasTaken};
ghost use Rattle.store_model.specs.Laws.{NoStoreOrConfig, NoneOrEmptyOpens, OneFault, OneMoreMakes};
ghost use Rattle.store_model.specs.Laws.{OneMoreOpens, OneShape, OpenedAreSound};
ghost use Rattle.store_model.specs.Laws.{PairOpensToOneConfig};
ghost use Rattle.store_model.specs.Laws.{PiecesFollow, PiecesMayOpen, PiecesOpen, PlanBegins};
ghost use Rattle.store_model.specs.Laws.{PlanGoesOn, PlanMakes};
ghost use Rattle.store_model.specs.Laws.{RefusedAreRefused, SnapshotIsRead, SoundAreBases};
ghost use Rattle.store_model.specs.Laws.{StandingOpens, StandingPlace, StandingShapes, StoreIsTold};
ghost use Rattle.store_model.specs.Laws.{TakenAreSound};
ghost use Rattle.store_model.specs.Laws.{UnreadAreBaseless, UnreadAreRefused, UnsoundAreBaseless};

use r53_disk::Disk;

// ---- one answer

/// Two files open to one configuration at most.
pub fn pair_opens_to_one_config()
    ensures { PairOpensToOneConfig }
{
    command_codec::read_as_nothing_else();
    config_model::one_outcome();
    snapshot_octets::one_configuration();
    zone_journal::pair_opens_to_one();
}

/// Files that open to a configuration are not told to be no store.
pub fn no_store_or_config()
    ensures { NoStoreOrConfig }
{
    command_codec::read_as_nothing_else();
    config_model::one_outcome();
    snapshot_octets::one_configuration();
}

/// Files that are no store are told so at one place of one side.
pub fn one_fault()
    ensures { OneFault }
{
    command_codec::read_as_nothing_else();
    config_model::one_outcome();
    snapshot_octets::one_configuration();
}

// ---- what is read

/// What was read of a file has the snapshot of the file.
pub fn snapshot_is_read()
    ensures { SnapshotIsRead }
{}

/// Where the file that decides opens to what makes a configuration, so do the two files.
pub fn deciding_opens()
    ensures { DecidingOpens }
{}

/// Octets that are read as no command are no entry that is taken.
pub fn unread_are_refused()
    ensures { UnreadAreRefused }
{
    command_codec::read_as_nothing_else();
}

/// Nor are the octets of a command that is refused.
pub fn refused_are_refused()
    ensures { RefusedAreRefused }
{
    command_codec::read_as_nothing_else();
    config_model::one_outcome();
}

/// The files are no store where the journal finds none in them.
pub fn broken_is_no_store()
    ensures { BrokenIsNoStore }
{}

/// Nor where the snapshot of the one that decides is of no sound configuration.
pub fn baseless_is_no_store()
    ensures { BaselessIsNoStore }
{}

/// Nor where at a gate behind it no entry can be taken.
pub fn faulty_is_no_store()
    ensures { FaultyIsNoStore }
{}

/// Octets that are read as no snapshot are none of a sound configuration.
pub fn unread_are_baseless()
    ensures { UnreadAreBaseless }
{
    snapshot_octets::snapshots_read_back();
}

/// Nor is the snapshot of a configuration that isn't sound.
pub fn unsound_are_baseless()
    ensures { UnsoundAreBaseless }
{
    snapshot_octets::one_configuration();
}

// ---- entries from behind

/// Entries that are taken, and then one more, are taken together.
pub fn last_is_taken()
    ensures { LastIsTaken }
{}

/// Of entries that are taken the last one is, behind the others.
pub fn last_was_taken()
    ensures { LastWasTaken }
{}

/// With one more entry that is taken, a snapshot and entries make the configuration after it.
pub fn one_more_makes()
    ensures { OneMoreMakes }
{}

/// Files that hold one more entry, which is taken, open to the configuration after it.
pub fn one_more_opens()
    ensures { OneMoreOpens }
{}

/// A command that is accepted is an entry that is taken, as it is written.
pub fn accepted_are_taken()
    ensures { AcceptedAreTaken }
{}

/// What entries make of a sound configuration is sound.
pub fn taken_are_sound()
    ensures { TakenAreSound }
{
    command_bounds::spelled_are_bounded();
    config_model::commands_keep_sound();
}

/// Files open to a sound configuration.
pub fn opened_are_sound()
    ensures { OpenedAreSound }
{
    taken_are_sound();
}

// ---- snapshots

/// The snapshot that is written of a sound configuration is one to begin with.
pub fn sound_are_bases()
    ensures { SoundAreBases }
{
    snapshot_octets::sound_have_snapshots();
}

/// The snapshot with which a compaction began, and the entries since, open to the configuration.
pub fn compacted_opens()
    ensures { CompactedOpens }
{
    sound_are_bases();
}

/// A compaction begins at the closed gate with the snapshot of the configuration.
pub fn plan_begins()
    ensures { PlanBegins }
{}

/// An entry that is appended during a compaction is one since its beginning.
pub fn plan_goes_on()
    ensures { PlanGoesOn }
{}

/// The snapshot of a compaction in progress makes, with the entries since, the configuration.
pub fn plan_makes()
    ensures { PlanMakes }
{
    sound_are_bases();
}

/// The snapshot of a new store is that of the configuration with nothing in it.
pub fn empty_is_written()
    ensures { EmptyIsWritten }
{}

/// A new store opens to the configuration with nothing in it.
pub fn empty_opens()
    ensures { EmptyOpens }
{
    config_model::empty_is_sound();
    sound_are_bases();
}

/// Where the making of a store may have written, there is none yet, or one with nothing in it.
pub fn none_or_empty_opens()
    ensures { NoneOrEmptyOpens }
{
    empty_opens();
}

/// Two files have one shape at most.
pub fn one_shape()
    ensures { OneShape }
{}

// ---- what calls leave

/// Once a store is made, each pair of images opens to the configuration with nothing in it.
pub fn init_opens<D: Disk>()
    ensures { InitOpens D.reading D.images }
{
    empty_opens();
}

/// Where a journal stands, each pair of images opens to what the files are read as.
pub fn standing_opens<D: Disk>()
    ensures { StandingOpens D.reading D.images }
{}

/// A journal stands at the closed gate of the file that decides, and is of its generation.
pub fn standing_place<D: Disk>()
    ensures { StandingPlace D.reading D.images }
{}

/// Where a journal stands, each pair of images has the shape that it tells.
pub fn standing_shapes<D: Disk>()
    ensures { StandingShapes D.reading D.images }
{}

/// The files of a store are not told to be none.
pub fn store_is_told<D: Disk>()
    ensures { StoreIsTold D.reading D.images }
{
    no_store_or_config();
}

/// A crash during the append of a command leaves the configuration before it, or after it.
pub fn appends_may_open<D: Disk>()
    ensures { AppendsMayOpen D.moment D.images_since }
{}

/// After the append of a command its files are read as the configuration that its answer tells.
pub fn appends_open<D: Disk>()
    ensures { AppendsOpen D.reading }
{}

/// A crash during a piece of a compaction leaves the configuration.
pub fn pieces_may_open<D: Disk>()
    ensures { PiecesMayOpen D.moment D.images_since }
{}

/// After a piece of a compaction the files are read as the configuration.
pub fn pieces_open<D: Disk>()
    ensures { PiecesOpen D.reading }
{}

/// What holds of each pair of images during some pieces and during more of them, holds during all.
pub fn pieces_follow<D: Disk>()
    ensures { PiecesFollow D.reading D.images D.moment D.images_since }
{}
