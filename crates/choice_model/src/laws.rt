//! Laws on chosen sets. Each is the contract of a function that does nothing.

ghost use Rattle.choice_model.specs.Laws.{ChosenAreOfGroup, SomeIsChosen};

/// Chosen sets are sets of the group, and at most eight.
pub fn chosen_are_of_group()
    ensures { ChosenAreOfGroup }
{}

/// Some set of a group is chosen, but by place or by address block, where none may apply to the client.
pub fn some_is_chosen()
    ensures { SomeIsChosen }
{}
