//! Laws over the definitions. Each stands as the contract of a function that does nothing.

ghost use Rattle.calculated_health.specs.Laws.{InvertedSwaps, TenOfFifty, ThresholdEnds};

/// Inverting a check swaps its status.
pub fn inverted_swaps()
    ensures { InvertedSwaps }
{}

/// An endpoint is healthy exactly where ten checkers or more see a pass.
pub fn ten_of_fifty()
    ensures { TenOfFifty }
{}

/// With threshold 0 a calculated check is always healthy, with one above the children never.
pub fn threshold_ends()
    ensures { ThresholdEnds }
{}
