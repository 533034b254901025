//! A law over the definitions, the contract of a function that does nothing.

ghost use Rattle.snapshot_reading.specs.Laws.{SnapshotsReadInParts};

/// Octets of which the front, and behind it so many zones up to the end, are read are read as that
/// configuration; where a part isn't read, or octets are left, as none.
pub fn snapshots_read_in_parts()
    ensures { SnapshotsReadInParts }
{
    snapshot_octets::written_reads_back();
    snapshot_octets::sets_are_told();
}
