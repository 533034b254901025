//! Valves worked out one by one, and counts kept with the values that turn.

ghost use Rattle.std.specs.Prelude.{◌≡◌, ◌≢◌, ◌≤◌, ◌<◌, ◌+◌, ◌^◌, ◌↔◌, All, IsTrue, List};
ghost use Rattle.std.specs.Prelude.{length, nat_le, slice_index, ℕ};
ghost use Rattle.calculated_health.specs.Status.{swapped_if};
ghost use Rattle.health_valves.specs.Valves.{times, value_in, CountsFit, Flipped};

use valve_feeds::FedWalk;

/// Whether a valve is open at this count.
pub fn is_open(need: u32, inverted: bool, count: u32) -> bool
    ensures { result ≡ swapped_if inverted (nat_le need count) }
{
    if inverted {
        count < need
    } else {
        need <= count
    }
}

/// One more at each place that is listed.
pub fn add_one(counts: &mut [u32], places: FedWalk<'_>)
    requires within { All (λ y. y < length counts.old) places }
    requires small { (y : ℕ) → slice_index counts.old y + times y places < 2 ^ 32 }
    ensures { (y : ℕ) → slice_index counts.new y ≡ slice_index counts.old y + times y places.entry }
{
    for place in places {
        counts[place as usize] += 1;
    }
}

/// One fewer at each place that is listed.
pub fn take_one(counts: &mut [u32], places: FedWalk<'_>)
    requires within { All (λ y. y < length counts.old) places }
    requires enough { (y : ℕ) → times y places ≤ slice_index counts.old y }
    ensures { (y : ℕ) → slice_index counts.new y + times y places.entry ≡ slice_index counts.old y }
{
    for place in places {
        counts[place as usize] -= 1;
    }
}

/// Works a valve out from its count. The answer is whether its value changed; then the counts of
/// what it feeds change too.
pub fn work_out(
    values: &mut [bool],
    counts: &mut [u32],
    at: usize,
    need: u32,
    inverted: bool,
    fed: FedWalk<'_>,
) -> bool
    requires at_value { at < length values.old }
    requires at_count { at < length counts.old }
    requires within { All (λ y. y < length counts.old) fed }
    requires room { CountsFit (value_in values.old at) counts.old fed }
    ensures value { value_in values.new at
        ≡ swapped_if inverted (nat_le need (slice_index counts.old at)) }
    ensures others { (n : ℕ) → n ≢ at → value_in values.new n ≡ value_in values.old n }
    ensures counts { Flipped (value_in values.old at) (value_in values.new at) counts.old counts.new fed.entry }
    ensures changed { IsTrue result ↔ (value_in values.new at ≢ value_in values.old at) }
{
    let now = is_open(need, inverted, counts[at]);
    if now == values[at] {
        return false;
    }
    values[at] = now;
    if now {
        add_one(counts, fed);
    } else {
        take_one(counts, fed);
    }
    true
}
