//! Laws over the definitions. Each stands as the contract of a function that does nothing.

ghost use Rattle.weighted.specs.Laws.{FairCounting, RunningSum};

/// Among the words 0 to total - 1 each considered set is chosen as often as its weight says, or once each
/// where all considered weights are 0. No other set ever is.
pub fn fair_counting()
    ensures { FairCounting }
{}

/// Beside a weight above 0 the chosen set is the first whose running sum of weights exceeds `word mod total`.
pub fn running_sum()
    ensures { RunningSum }
{}
