//! The law on names, as the contract of a function that does nothing.

ghost use Rattle.batch_names.specs.Laws.{NamesDecide};

/// A batch is decided by the sets of the names that it names.
pub fn names_decide()
    ensures { NamesDecide }
{}
