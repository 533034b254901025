//! Laws over the definitions, each the contract of a function that does nothing.

ghost use Rattle.snapshot_faults.specs.Laws.{FaultsStandFirst, NoFieldIsEmpty};
ghost use Rattle.snapshot_faults.specs.Laws.{OneFaultOfSnapshots, SnapshotFaultsAsTold};
ghost use Rattle.snapshot_faults.specs.Laws.{SnapshotsAreFields};

/// The octets of a configuration in a version are its fields, one behind another.
pub fn snapshots_are_fields()
    ensures { SnapshotsAreFields }
{}

/// Each field of a snapshot has an octet at least.
pub fn no_field_is_empty()
    ensures { NoFieldIsEmpty }
{}

/// Reading tells a place exactly where octets have their fault at it.
pub fn snapshot_faults_as_told()
    ensures { SnapshotFaultsAsTold }
{}

/// Octets have one fault at most.
pub fn one_fault_of_snapshots()
    ensures { OneFaultOfSnapshots }
{}

/// Up to where octets stop they could go on to a snapshot; with what stands there they can't.
pub fn faults_stand_first()
    ensures { FaultsStandFirst }
{}
