//! Room for elements to come.

ghost use Rattle.std.specs.Prelude.{◌≡◌, ◌≤◌, ◌+◌, IsOk, OnOk, length, vec_capacity};

use cell_lists::make_room_for;
use octets::OutOfMemory;
use valve_feeds::FeedLists;

/// Makes room for so many elements in all. Those that there are stay.
pub fn make_room<T: Drop>(list: &mut Vec<T>, total: usize) -> Result<(), OutOfMemory>
    ensures room { OnOk result (total ≤ vec_capacity list.new) }
    ensures items { list.new.items ≡ list.old.items }
    ensures kept { vec_capacity list.old ≤ vec_capacity list.new }
    ensures ready { total ≤ vec_capacity list.old → IsOk result }
{
    let more = total.saturating_sub(list.len());
    make_room_for(list, more)
}

/// Makes room for so many valves and feeds in all. Those that there are stay.
pub fn make_feeds(feeds: &mut FeedLists, valves: usize, links: usize) -> Result<(), OutOfMemory>
    ensures room { OnOk result (links ≤ feeds.new.most) }
    ensures valves { OnOk result (valves ≤ feeds.new.valves_room + length feeds.new.fed) }
    ensures fed { feeds.new.fed ≡ feeds.old.fed }
    ensures links { feeds.new.most + feeds.old.room ≡ feeds.old.most + feeds.new.room }
    ensures kept { feeds.old.most ≤ feeds.new.most }
    ensures valves_kept { feeds.old.valves_room ≤ feeds.new.valves_room }
    ensures ready { links ≤ feeds.old.most → valves ≤ feeds.old.valves_room + length feeds.old.fed → IsOk result }
{
    let more_valves = valves.saturating_sub(feeds.len());
    let more = links.saturating_sub(feeds.feeds());
    if feeds.reserve(more_valves, more).is_err() {
        return Err(OutOfMemory);
    }
    Ok(())
}
