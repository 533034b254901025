//! Laws over the definitions, each the contract of a function that does nothing.

ghost use Rattle.r53_io.specs.Laws.{OneArrival, OneScript};

/// What is still to come determines what a receive that succeeds gives.
pub fn one_arrival()
    ensures { OneArrival }
{}

/// A script determines its calls, but for want of memory.
pub fn one_script()
    ensures { OneScript }
{}
