//! Laws over the definitions, each the contract of a function that does nothing.

ghost use Rattle.ip_table.specs.Laws.{ScopeReaches, NoShorterReaches, OneRowFound, OnePrefix};

/// Any two addresses that share the first bits of the one's scope find the same row, or both none.
pub fn scope_reaches<V>()
    ensures { ScopeReaches V }
{}

/// No smaller length has this that is at least the row's.
pub fn no_shorter_reaches<V>()
    ensures { NoShorterReaches V }
{}

/// An address has one location among the rows of a table.
pub fn one_row_found<V>()
    ensures { OneRowFound V }
{}

/// Prefixes with the same bits are one prefix.
pub fn one_prefix()
    ensures { OnePrefix }
{}
