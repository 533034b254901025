//! What a list is with one of its numbers taken out.

ghost use Rattle.valve_feeds.specs.Feeds.{OneFewer};

/// A list with a number taken out has it once less, and all others as often.
pub fn one_feed_fewer()
    ensures { OneFewer }
{}
