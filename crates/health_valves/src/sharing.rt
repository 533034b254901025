//! Valves that feed more than one, or one alone.

ghost use Rattle.std.specs.Prelude.{◌≡◌, ◌↔◌, ◌≤◌, ◌<◌, ℕ, All, IsTrue, None, Some, length};
ghost use Rattle.std.specs.List.{Contains};
ghost use Rattle.health_valves.specs.Valves.{FeedOthers, HasOther};

use valve_feeds::{FedWalk, FeedLists, FeedersWalk};

/// Whether another valve than this one is among those that a walk has left.
pub fn has_other(fed: FedWalk<'_>, valve: u32) -> bool
    ensures { IsTrue result ↔ HasOther valve fed.entry }
{
    for other in fed {
        if other != valve {
            return true;
        }
    }
    false
}

/// Whether each valve that a walk has left, from a number on, feeds another one than this.
pub fn feed_others(feeds: &FeedLists, feeders: FeedersWalk<'_>, valve: u32, first: usize) -> bool
    requires within { All (λ x. x < length feeds.now.fed) feeders }
    ensures { IsTrue result ↔ FeedOthers feeds.now valve first feeders.entry }
{
    for feeder in feeders {
        if feeder as usize >= first {
            if !has_other(feeds.fed(feeder), valve) {
                return false;
            }
        }
    }
    true
}

/// The first valve from a number on among those that a walk has left.
pub fn late_feeder(feeders: FeedersWalk<'_>, first: usize) -> Option<u32>
    ensures found { (x : ℕ) → result ≡ Some x → (first ≤ x) × Contains feeders.entry x }
    ensures none { result ≡ None → (x : ℕ) → first ≤ x → Contains feeders.entry x → ⊥ }
{
    for feeder in feeders {
        if feeder as usize >= first {
            return Some(feeder);
        }
    }
    None
}

/// Whether no other valve from a number on is among those that a walk has left.
pub fn is_only(feeders: FeedersWalk<'_>, feeder: u32, first: usize) -> bool
    ensures { IsTrue result
        ↔ ((x : ℕ) → first ≤ x → Contains feeders.entry x → x ≡ feeder) }
{
    for other in feeders {
        if other as usize >= first {
            if other != feeder {
                return false;
            }
        }
    }
    true
}
