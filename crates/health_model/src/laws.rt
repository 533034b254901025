//! Laws over the definitions, each the contract of a function that does nothing.

ghost use Rattle.health_model.specs.Laws.{HealthyAreListed, NewCheckHasNone, OneCheckChanges};
ghost use Rattle.health_model.specs.Laws.{OneHealth, OneMoreReport, OneNode, OnePass};
ghost use Rattle.health_model.specs.Laws.{OnlyGroupsChange, PathsEnd, RecursionMeets};

/// Values of the nodes that meet each local equation are those of the recursion.
pub fn one_health()
    ensures { OneHealth }
{}

/// The values of the recursion meet each local equation: its depth never runs out.
pub fn recursion_meets_equations()
    ensures { RecursionMeets }
{}

/// What making one node meet its equation leaves of the others.
pub fn one_node()
    ensures { OneNode }
{}

/// Where all nodes but those of a cone meet their equations, one pass over it, feeders first, mends
/// all.
pub fn one_pass()
    ensures { OnePass }
{}

/// No path of feeds has more than 38: so no node feeds itself, and a walk along feeds ends.
pub fn paths_end()
    ensures { PathsEnd }
{}

/// What one more report adds to the results of checkers.
pub fn one_more_report()
    ensures { OneMoreReport }
{}

/// The listed healthy sets are the sets of the zones that are healthy.
pub fn healthy_are_listed()
    ensures { HealthyAreListed }
{}

/// A check that comes has no results.
pub fn new_check_has_none()
    ensures { NewCheckHasNone }
{}

/// Which equations a command changes: that of its check, and those of groups that have other sets.
pub fn few_equations_change()
    ensures check { OneCheckChanges }
    ensures groups { OnlyGroupsChange }
{}
