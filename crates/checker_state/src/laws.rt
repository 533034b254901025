//! Laws over the definitions. Each stands as the contract of a function that does nothing.

ghost use Rattle.checker_state.specs.Laws.{FiftyAlone, OneMoreResult, OneStanding, OneView, ViewEndsTheLastRow};

/// The view is the result of the last place at which so many equal ones in a row end, and pass
/// where there is none.
pub fn view_ends_the_last_row()
    ensures { ViewEndsTheLastRow }
{}

/// There is one such result.
pub fn one_view()
    ensures { OneView }
{}

/// How one more result takes the view on.
pub fn one_more_result()
    ensures { OneMoreResult }
{}

/// What stands for lists of results is one value.
pub fn one_standing()
    ensures { OneStanding }
{}

/// The results of the fifty checkers alone count.
pub fn fifty_alone()
    ensures { FiftyAlone }
{}
