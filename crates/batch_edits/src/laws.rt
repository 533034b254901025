//! A law over the definitions, as the contract of a function that does nothing.

ghost use Rattle.batch_edits.specs.Laws.{OneBatchEdit};

/// A batch makes one edit of a zone, or has one refusal, but for want of memory.
pub fn one_batch_edit()
    ensures { OneBatchEdit }
{}
