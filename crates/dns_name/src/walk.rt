//! Walks over the labels of a name's octets, by the places of their length octets.

ghost use Rattle.std.specs.Prelude.{◌≡◌, ℕ, ◌≤◌, ◌+◌, List, length, take, drop, IsTrue, ◌↔◌};
ghost use Rattle.dns_name.specs.Names.{IsName, AreOctets};
ghost use Rattle.dns_name.specs.Stored.{labels_of};
ghost use Rattle.dns_name.specs.Suffix.{EndsWith};
ghost use Rattle.dns_name.specs.Whole.{IsWire};

use octets::behind;

/// The labels of octets are a name.
pub fn name_octets(octets: &[u8])
    requires { IsWire octets.now }
    ensures octets { AreOctets octets.now }
    ensures name { IsName (labels_of octets.now) }
{}

/// How many labels the octets have.
pub fn count(octets: &[u8]) -> usize
    requires { IsWire octets.now }
    ensures { result ≡ length (labels_of octets.now) }
{
    let mut count = 0;
    let mut at = 0;
    while octets[at] != 0 {
        at += octets[at] as usize + 1;
        count += 1;
    }
    count
}

/// Where the labels stand that are behind so many.
pub fn skip(octets: &[u8], labels: usize) -> usize
    requires octets { IsWire octets.now }
    requires labels { labels ≤ length (labels_of octets.now) }
    ensures within { result ≤ length octets.now }
    ensures rest { IsWire (drop result octets.now) }
    ensures skipped { labels_of (drop result octets.now) ≡ drop labels (labels_of octets.now) }
{
    let mut at = 0;
    let mut left = labels;
    while left > 0 {
        at += octets[at] as usize + 1;
        left -= 1;
    }
    at
}

/// So many octets from a place on.
pub fn part(octets: &[u8], at: usize, n: usize) -> &[u8]
    requires { at + n ≤ length octets.now }
    ensures { result.now ≡ take n (drop at octets.now) }
{
    &octets[at..at + n]
}

/// Whether the labels end with those of the suffix.
pub fn ends_with(octets: &[u8], suffix: &[u8]) -> bool
    requires octets { IsWire octets.now }
    requires suffix { IsWire suffix.now }
    ensures { IsTrue result ↔ EndsWith (labels_of octets.now) (labels_of suffix.now) }
{
    let mut at = 0;
    while octets.len() - at > suffix.len() {
        at += octets[at] as usize + 1;
    }
    is_same(behind(octets, at), suffix)
}

/// Whether the octets are the same.
pub fn is_same(octets: &[u8], others: &[u8]) -> bool
    ensures { IsTrue result ↔ (octets.now ≡ others.now) }
{
    octets == others
}
