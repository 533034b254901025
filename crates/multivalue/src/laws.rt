//! Laws over the definitions. Each stands as the contract of a function that does nothing.

ghost use Rattle.multivalue.specs.Laws.{EightAtMost};

/// Eight considered sets are chosen, or all where they are fewer. None is chosen twice, and they
/// follow one another in cyclic order.
pub fn eight_at_most()
    ensures { EightAtMost }
{}
