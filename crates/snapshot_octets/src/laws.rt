//! Laws over the definitions, each the contract of a function that does nothing.

ghost use Rattle.snapshot_octets.specs.Laws.{OneConfiguration, SnapshotsAreTold};
ghost use Rattle.snapshot_octets.specs.Laws.{SnapshotsReadBack, SoundAreShort};
ghost use Rattle.snapshot_octets.specs.Laws.{SoundHaveSnapshots};

/// Octets are a snapshot of one configuration at most.
pub fn one_configuration()
    ensures { OneConfiguration }
{
    config_model::written_reads_back();
    config_model::sets_are_told();
}

/// In each version a configuration has one snapshot, which is read as that configuration.
pub fn snapshots_read_back()
    ensures { SnapshotsReadBack }
{
    config_model::written_reads_back();
    config_model::sets_are_told();
}

/// Reading tells the configuration of which octets are a snapshot, or that they are one of none.
pub fn snapshots_are_told()
    ensures { SnapshotsAreTold }
{
    config_model::written_reads_back();
    config_model::sets_are_told();
}

/// What is written of a sound configuration is a snapshot of it.
pub fn sound_have_snapshots()
    ensures { SoundHaveSnapshots }
{}

/// What is written of a sound configuration is no longer than a compaction takes.
pub fn sound_are_short()
    ensures { SoundAreShort }
{
    config_model::refusals_are_told();
}
