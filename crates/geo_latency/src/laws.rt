//! Laws over the definitions, each the contract of a function that does nothing.

ghost use Rattle.geo_latency.specs.Laws.{FreePrefixes};

/// A table takes a row of a prefix where none of its rows has this prefix and it has fewer than
/// 100,000.
pub fn free_prefixes<V>()
    ensures { FreePrefixes V }
{}
