//! Feeds into a valve that come.

ghost use Rattle.std.specs.Prelude.{◌≡◌, ◌≢◌, ◌≤◌, ◌<◌, ◌+◌, ◌^◌, ℕ, All, length};
ghost use Rattle.health_valves.specs.Valves.{count, value_in};
ghost use Rattle.valve_feeds.specs.Feeds.{fed_by, times};

use valve_feeds::FeedLists;

/// Each of some valves feeds another once more. It takes no memory.
pub(crate) fn add_feeders(feeds: &mut FeedLists, valve: u32, feeders: &[u32])
    requires valve { valve < length feeds.old.fed }
    requires within { All (λ x. x < length feeds.old.fed) feeders.now }
    requires room { length feeders.now ≤ feeds.old.room }
    ensures fed { (x : ℕ) → times valve (fed_by feeds.new x)
        ≡ times valve (fed_by feeds.old x) + times x feeders.now }
    ensures others { (x y : ℕ) → y ≢ valve
        → times y (fed_by feeds.new x) ≡ times y (fed_by feeds.old x) }
    ensures valves { length feeds.new.fed ≡ length feeds.old.fed }
    ensures most { feeds.new.most ≡ feeds.old.most }
    ensures valves_room { feeds.new.valves_room ≡ feeds.old.valves_room }
    ensures room { feeds.new.room + length feeders.now ≡ feeds.old.room }
{
    for feeder in feeders {
        feeds.feed(*feeder, valve);
    }
}

/// How many of some valves are open.
pub(crate) fn count_open(values: &[bool], valves: &[u32]) -> u32
    requires within { All (λ x. x < length values.now) valves.now }
    requires few { length valves.now < 2 ^ 31 }
    ensures { result ≡ count (value_in values.now) valves.now }
{
    let mut open: u32 = 0;
    for valve in valves {
        if values[*valve as usize] {
            open += 1;
        }
    }
    open
}
