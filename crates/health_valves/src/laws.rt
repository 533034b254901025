//! Laws over the definitions. Each stands as the contract of a function that does nothing.

ghost use Rattle.health_valves.specs.Walk.{RanksEndPaths};

/// Ranks bound the length of paths.
pub fn ranks_end_paths()
    ensures { RanksEndPaths }
{}
