//! Laws over the definitions, each the contract of a function that does nothing.

ghost use Rattle.list_writing.specs.Laws.{ListsAreWhole, SetLinesAreWhole, SetsAreWhole};

/// The pieces of a set, one behind another, are its object.
pub fn sets_are_whole()
    ensures { SetsAreWhole }
{}

/// The pieces of a list, one behind another, are its line.
pub fn lists_are_whole()
    ensures { ListsAreWhole }
{}

/// The pieces of the line of a set in a dump, one behind another, are that line.
pub fn set_lines_are_whole()
    ensures { SetLinesAreWhole }
{}
