//! The weights of the considered sets laid end to end, walked to the point that a word names.

ghost use Rattle.std.specs.Prelude.{◌≡◌, ◌≤◌, ◌<◌, ◌%◌, length, slice_index, if◌then◌else◌, false};
ghost use Rattle.weighted.specs.Choice.{chosen};
ghost use Rattle.weighted.specs.Line.{at_word, by_weight, one_each, stretch_of, rest_of_line};

use considered_sets::some_healthy;

/// Chooses a set of a weighted group by a random word. The answer is its place.
///
/// The weights of the healthy sets, or of all where none is healthy, are laid end to end. The set is chosen
/// whose stretch holds `word mod total`. Where these weights are all 0, each of these sets has weight 1.
pub fn choose(weights: &[u8], healthy: &[bool], word: u64) -> usize
    requires one_length { length weights.now ≡ length healthy.now }
    requires some { 1 ≤ length healthy.now }
    requires most { length healthy.now ≤ 100 }
    ensures { result ≡ chosen weights.now healthy.now word }
{
    let rule = StretchRule {
        all: false,
        even: false,
    };
    let weight = total(weights, healthy, rule);
    if weight > 0 {
        return place_at(weights, healthy, rule, point(word, weight));
    }
    choose_beside_zeros(weights, healthy, word)
}

/// Chooses a set where no healthy one has a weight above 0.
fn choose_beside_zeros(weights: &[u8], healthy: &[bool], word: u64) -> usize
    requires one_length { length weights.now ≡ length healthy.now }
    requires some { 1 ≤ length healthy.now }
    requires most { length healthy.now ≤ 100 }
    requires zeros { length (rest_of_line (by_weight false) weights.now 0 healthy.now) ≡ 0 }
    ensures { result ≡ chosen weights.now healthy.now word }
{
    if some_healthy(healthy) {
        return choose_evenly(weights, healthy, false, word);
    }
    let rule = StretchRule {
        all: true,
        even: false,
    };
    let weight = total(weights, healthy, rule);
    if weight > 0 {
        return place_at(weights, healthy, rule, point(word, weight));
    }
    choose_evenly(weights, healthy, true, word)
}

/// Chooses one of the healthy sets, or of all, with one chance each.
fn choose_evenly(weights: &[u8], healthy: &[bool], all: bool, word: u64) -> usize
    requires one_length { length weights.now ≡ length healthy.now }
    requires most { length healthy.now ≤ 100 }
    requires some { 0 < length (rest_of_line (one_each all) weights.now 0 healthy.now) }
    ensures { result ≡ at_word (rest_of_line (one_each all) weights.now 0 healthy.now) word }
{
    let rule = StretchRule { all, even: true };
    let sets = total(weights, healthy, rule);
    place_at(weights, healthy, rule, point(word, sets))
}

/// The point of a line of this length that a word names.
fn point(word: u64, total: u32) -> u32
    requires { 0 < total }
    ensures exact { result ≡ word % total }
    ensures within { result < total }
{
    (word % u64::from(total)) as u32
}

/// How long the stretches are that are laid end to end.
#[derive(Clone, Copy)]
struct StretchRule {
    /// Whether sets that are not healthy have stretches too.
    all: bool,
    /// Whether each stretch has the length 1 in place of the weight.
    even: bool,
}

impl StretchRule {
    /// The length of a set's stretch.
    fn stretch(self, weight: u8, healthy: bool) -> u32
        ensures exact { result ≡ stretch_of self weight healthy }
        ensures most { result ≤ 255 }
    {
        u32::from(healthy || self.all) * self.length(weight)
    }

    /// The length of the stretch of a set that has one.
    fn length(self, weight: u8) -> u32
        ensures exact { result ≡ (if self.even then 1 else weight) }
        ensures most { result ≤ 255 }
    {
        if self.even { 1 } else { u32::from(weight) }
    }
}

/// The length of all stretches.
fn total(weights: &[u8], healthy: &[bool], rule: StretchRule) -> u32
    requires one_length { length weights.now ≡ length healthy.now }
    requires most { length healthy.now ≤ 100 }
    ensures { result ≡ length (rest_of_line rule weights.now 0 healthy.now) }
{
    let mut total = 0;
    for i in 0..healthy.len() {
        total += rule.stretch(weights[i], healthy[i]);
    }
    total
}

/// The set whose stretch holds a point: before it stand as many sets as there are stretches that end at the
/// point or before it.
fn place_at(weights: &[u8], healthy: &[bool], rule: StretchRule, point: u32) -> usize
    requires one_length { length weights.now ≡ length healthy.now }
    requires most { length healthy.now ≤ 100 }
    requires within { point < length (rest_of_line rule weights.now 0 healthy.now) }
    ensures { result ≡ slice_index (rest_of_line rule weights.now 0 healthy.now) point }
{
    let mut end = 0;
    let mut place = 0;
    for i in 0..healthy.len() {
        end += rule.stretch(weights[i], healthy[i]);
        place += one_if_ended(end, point);
    }
    place
}

/// 1 for a stretch that ends at a point or before it, and else 0.
fn one_if_ended(end: u32, point: u32) -> usize
    ensures ended { end ≤ point → result ≡ 1 }
    ensures holds { point < end → result ≡ 0 }
{
    usize::from(end <= point)
}
