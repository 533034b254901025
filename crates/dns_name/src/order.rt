//! Zone order: labels from the root, octets compared, a parent before what is below it.

ghost use Rattle.std.specs.Prelude.{◌≡◌, ℕ, ◌≤◌, IfSome, List, length, drop, refl, Some};
ghost use Rattle.std.specs.Cmp.Lexicographic.{slice_cmp};
ghost use Rattle.std.specs.Ordering.{nat_cmp, ordering_then};
ghost use Rattle.dns_name.specs.Labels.{wire};
ghost use Rattle.dns_name.specs.Names.{IsName};
ghost use Rattle.dns_name.specs.Order.{same_labels, zone_cmp};
ghost use Rattle.dns_name.specs.OrderLaws.{same_labels_laws, same_labels_partial, zone_cmp_ties};
ghost use Rattle.dns_name.specs.OrderLaws.{zone_cmp_partial, zone_cmp_total};
ghost use Rattle.dns_name.specs.Stored.{labels_of};
ghost use Rattle.dns_name.specs.Whole.{IsWire};

use crate::Name;
use crate::walk::{count, is_same, part, skip};
use octets::behind;
use std::cmp::Ordering;

impl PartialEq for Name {
    ghost eq = { same_labels };

    ghost laws = { same_labels_partial };

    fn eq(&self, other: &Name) -> bool {
        self.is_same(other)
    }
}

impl Eq for Name {
    ghost laws = { same_labels_laws };
}

impl PartialOrd for Name {
    ghost partial_cmp = { λ name other. Some (zone_cmp name other) };

    ghost laws = { zone_cmp_partial };

    fn partial_cmp(&self, other: &Name) -> Option<Ordering> {
        Some(self.cmp(other))
    }
}

impl Ord for Name {
    ghost cmp = { zone_cmp };

    ghost total = { zone_cmp_total };

    ghost matches_partial_cmp = { λ name other. refl };

    ghost matches_eq = { zone_cmp_ties };

    fn cmp(&self, other: &Name) -> Ordering {
        octets_cmp(self.octets(), other.octets())
    }
}

/// Zone order of two names, told from their octets on the wire.
pub fn octets_cmp(octets: &[u8], others: &[u8]) -> Ordering
    requires octets { (name : List (List ℕ)) × IsName name × (octets.now ≡ wire name) }
    requires others { (other : List (List ℕ)) × IsName other × (others.now ≡ wire other) }
    ensures { (name other : List (List ℕ)) → IsName name → IsName other
        → octets.now ≡ wire name → others.now ≡ wire other → result ≡ zone_cmp name other }
{
    order_of(octets, others)
}

/// The order of the labels of two names' octets.
fn order_of(octets: &[u8], others: &[u8]) -> Ordering
    requires octets { IsWire octets.now }
    requires others { IsWire others.now }
    ensures { result ≡ zone_cmp (labels_of octets.now) (labels_of others.now) }
{
    if let Some(order) = order_beside(octets, others) {
        return order;
    }
    let n = count(octets);
    let m = count(others);
    if n < m {
        return order_at_depth(octets, behind(others, skip(others, m - n)), Ordering::Less);
    }
    if m < n {
        return order_at_depth(
            behind(octets, skip(octets, n - m)),
            others,
            Ordering::Greater,
        );
    }
    order_at_depth(octets, others, Ordering::Equal)
}

/// The order of two names that are right below one name, as those of most sets of a zone are: that of
/// their first labels. None where they aren't.
fn order_beside(octets: &[u8], others: &[u8]) -> Option<Ordering>
    requires octets { IsWire octets.now }
    requires others { IsWire others.now }
    ensures { IfSome result (λ order.
        order ≡ zone_cmp (labels_of octets.now) (labels_of others.now)) }
{
    let n = octets[0] as usize;
    let m = others[0] as usize;
    if n == 0 {
        return None;
    }
    if m == 0 {
        return None;
    }
    if !is_same(behind(octets, n + 1), behind(others, m + 1)) {
        return None;
    }
    Some(label_order(part(octets, 1, n), part(others, 1, m)))
}

/// The order of two names of as many labels, and `tie` where they are one.
fn order_at_depth(octets: &[u8], others: &[u8], tie: Ordering) -> Ordering
    requires octets { IsWire octets.now }
    requires others { IsWire others.now }
    requires depth { length (labels_of octets.now) ≡ length (labels_of others.now) }
    ensures { result ≡ ordering_then (zone_cmp (labels_of octets.now) (labels_of others.now)) tie }
{
    let mut order = tie;
    let mut at = 0;
    let mut other_at = 0;
    while octets[at] != 0 {
        let n = octets[at] as usize;
        let m = others[other_at] as usize;
        // A later label is nearer to the root, and its order comes first.
        order = label_order(part(octets, at + 1, n), part(others, other_at + 1, m)).then(order);
        at += n + 1;
        other_at += m + 1;
    }
    order
}

/// The order of two labels.
fn label_order(label: &[u8], other: &[u8]) -> Ordering
    ensures { result ≡ slice_cmp nat_cmp label.now other.now }
{
    label.cmp(other)
}
