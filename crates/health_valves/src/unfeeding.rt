//! Feeds into a valve that go.

ghost use Rattle.std.specs.Prelude.{◌≡◌, ◌≢◌, ◌≤◌, ◌<◌, ℕ, false, length, true};
ghost use Rattle.valve_feeds.specs.Feeds.{fed_by, feeders_of, times};

use valve_feeds::FeedLists;

/// Takes the feed into a valve that came last. The answer is whether there was one.
fn take_feeder(feeds: &mut FeedLists, valve: u32) -> bool
    requires valve { valve < length feeds.old.fed }
    ensures fewer { result ≡ true
        → length (feeders_of feeds.new valve) < length (feeders_of feeds.old valve) }
    ensures end { result ≡ false → (x : ℕ) → times valve (fed_by feeds.new x) ≡ 0 }
    ensures others { (x y : ℕ) → y ≢ valve
        → times y (fed_by feeds.new x) ≡ times y (fed_by feeds.old x) }
    ensures valves { length feeds.new.fed ≡ length feeds.old.fed }
    ensures most { feeds.new.most ≡ feeds.old.most }
    ensures room { feeds.old.room ≤ feeds.new.room }
    ensures valves_room { feeds.new.valves_room ≡ feeds.old.valves_room }
{
    // A valve is fed by others as often as they feed it.
    feeds.len();
    let Some(_feeder) = feeds.take_into(valve) else {
        return false;
    };
    true
}

/// Takes all feeds into a valve.
pub fn take_feeders(feeds: &mut FeedLists, valve: u32)
    requires valve { valve < length feeds.old.fed }
    ensures gone { (x : ℕ) → times valve (fed_by feeds.new x) ≡ 0 }
    ensures others { (x y : ℕ) → y ≢ valve
        → times y (fed_by feeds.new x) ≡ times y (fed_by feeds.old x) }
    ensures valves { length feeds.new.fed ≡ length feeds.old.fed }
    ensures most { feeds.new.most ≡ feeds.old.most }
    ensures room { feeds.old.room ≤ feeds.new.room }
    ensures valves_room { feeds.new.valves_room ≡ feeds.old.valves_room }
{
    while take_feeder(feeds, valve) {}
}
