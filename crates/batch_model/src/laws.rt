//! Laws over the definitions, each the contract of a function that does nothing.

ghost use Rattle.batch_model.specs.Laws.{OneBatchOutcome, ZonesStay};

/// The sets after a change to those of a zone are those of a zone.
pub fn zones_stay()
    ensures { ZonesStay }
{}

/// A batch has one answer, but for want of memory.
pub fn one_batch_outcome()
    ensures { OneBatchOutcome }
{}
