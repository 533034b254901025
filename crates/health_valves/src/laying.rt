//! A blueprint laid out: rows, feeds and counts.

ghost use Rattle.std.specs.Prelude.{◌≡◌, ◌≤◌, ◌<◌, ◌+◌, [], ℕ, All, false, length, map, replicate};
ghost use Rattle.std.specs.Prelude.{vec_capacity};
ghost use Rattle.health_valves.specs.Blueprint.{feeders_in};
ghost use Rattle.health_valves.specs.Laying.{row_of};
ghost use Rattle.health_valves.specs.declared.blueprint.Feeding.{Feeding};
ghost use Rattle.health_valves.specs.declared.blueprint.Trigger.{Trigger};
ghost use Rattle.valve_feeds.specs.Feeds.{fed_by, times};

use crate::blueprint::{Feeding, Trigger};
use crate::valves::ValveFeeds;
use valve_feeds::FeedLists;

/// The rows of valves: what opens each. It takes no memory.
pub fn lay_rows(rows: &mut Vec<ValveFeeds>, triggers: &[Trigger])
    requires empty { rows.old.items ≡ [] }
    requires room { length triggers.now ≤ vec_capacity rows.old }
    ensures rows { rows.new.items ≡ map row_of triggers.now }
    ensures room { vec_capacity rows.new ≡ vec_capacity rows.old }
{
    for trigger in triggers {
        rows.push_reserved(ValveFeeds {
            need: trigger.need,
            inverted: trigger.inverted,
        });
    }
}

/// So many valves that neither feed nor are fed. It takes no memory.
pub fn lay_valves(feeds: &mut FeedLists, valves: usize)
    requires empty { feeds.old.fed ≡ [] }
    requires none { feeds.old.feeders ≡ [] }
    requires room { valves ≤ feeds.old.valves_room }
    ensures valves { length feeds.new.fed ≡ valves }
    ensures fed { (x : ℕ) → fed_by feeds.new x ≡ [] }
    ensures room { feeds.new.room ≡ feeds.old.room }
    ensures most { feeds.new.most ≡ feeds.old.most }
    ensures valves_room { feeds.new.valves_room + valves ≡ feeds.old.valves_room }
{
    for _i in 0..valves {
        feeds.push_valve();
    }
}

/// What each valve feeds by these links. It takes no memory.
pub fn lay_links(feeds: &mut FeedLists, links: &[Feeding])
    requires none { (x : ℕ) → fed_by feeds.old x ≡ [] }
    requires within { All (λ (l : Feeding). l.feeder < length feeds.old.fed) links.now }
    requires to_within { All (λ (l : Feeding). l.fed < length feeds.old.fed) links.now }
    requires room { length links.now ≤ feeds.old.room }
    ensures fed { (x y : ℕ) → times y (fed_by feeds.new x) ≡ times x (feeders_in links.now y) }
    ensures valves { length feeds.new.fed ≡ length feeds.old.fed }
    ensures room { feeds.new.room + length links.now ≡ feeds.old.room }
    ensures most { feeds.new.most ≡ feeds.old.most }
    ensures valves_room { feeds.new.valves_room ≡ feeds.old.valves_room }
{
    for link in links {
        feeds.feed(link.feeder, link.fed);
    }
}

/// What is counted where no valve is open. It takes no memory.
pub fn lay_counts(counts: &mut Vec<u32>, triggers: &[Trigger])
    requires empty { counts.old.items ≡ [] }
    requires room { length triggers.now ≤ vec_capacity counts.old }
    ensures counts { counts.new.items ≡ map (λ (s : Trigger). s.own) triggers.now }
    ensures room { vec_capacity counts.new ≡ vec_capacity counts.old }
{
    for trigger in triggers {
        counts.push_reserved(trigger.own);
    }
}

/// So many that do not hold. It takes no memory.
pub fn lay_none(flags: &mut Vec<bool>, n: usize)
    requires empty { flags.old.items ≡ [] }
    requires room { n ≤ vec_capacity flags.old }
    ensures flags { flags.new.items ≡ replicate n false }
    ensures room { vec_capacity flags.new ≡ vec_capacity flags.old }
{
    for _i in 0..n {
        flags.push_reserved(false);
    }
}
