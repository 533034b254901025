//! What a walk has seen of the rows, one row more.

ghost use Rattle.std.specs.Prelude.{◌≡◌, ℕ, ◌<◌, ◌≤◌, length, max, Some, ◌⊎◌, ◌↔◌};
ghost use Rattle.ip_table.specs.Bits.{width_of, first_bits};
ghost use Rattle.ip_table.specs.Prefixes.{IsPrefix};
ghost use Rattle.ip_table.specs.Trees.{IsTrueOf, IsDone, HasLength, prefix_at};

use crate::IpPrefix;
use crate::tree::Walked;
use address_text::IpAddress;

/// What has been seen with one more row of the address's family, of this length, that shares so
/// many of its bits.
#[inline(always)]
pub(crate) fn with_row(
    prefixes: &[IpPrefix],
    row: u32,
    long: u8,
    shared: u32,
    address: IpAddress,
    walked: Walked,
) -> Walked
    requires row { row < length prefixes.now }
    requires prefix { IsPrefix (prefix_at prefixes.now row).address
        (prefix_at prefixes.now row).length }
    requires long { long ≡ (prefix_at prefixes.now row).length }
    requires family { width_of (prefix_at prefixes.now row).address ≡ width_of address }
    requires shared { (n : ℕ) → n ≤ (prefix_at prefixes.now row).length
        → (n ≤ shared ↔ (first_bits n (prefix_at prefixes.now row).address ≡ first_bits n address)) }
    requires sound { IsTrueOf prefixes.now address walked }
    ensures sound { IsTrueOf prefixes.now address result }
    ensures done { IsDone prefixes.now address result row }
    ensures keeps { (r : ℕ) → IsDone prefixes.now address walked r
        → IsDone prefixes.now address result r }
{
    if u32::from(long) <= shared {
        return with_found(prefixes, row, long, walked);
    }
    with_apart(prefixes, row, shared, address, walked)
}

/// What has been seen with one more row of the address's family that shares so many of its bits,
/// fewer than it has. No step asks which row that is.
#[inline(always)]
pub(crate) fn with_apart(
    prefixes: &[IpPrefix],
    row: u32,
    shared: u32,
    address: IpAddress,
    walked: Walked,
) -> Walked
    requires row { row < length prefixes.now }
    requires less { shared < (prefix_at prefixes.now row).length }
    requires few { shared < 255 }
    requires family { width_of (prefix_at prefixes.now row).address ≡ width_of address }
    requires shared { (n : ℕ) → n ≤ (prefix_at prefixes.now row).length
        → (n ≤ shared ↔ (first_bits n (prefix_at prefixes.now row).address ≡ first_bits n address)) }
    requires sound { IsTrueOf prefixes.now address walked }
    ensures sound { IsTrueOf prefixes.now address result }
    ensures done { IsDone prefixes.now address result row }
    ensures keeps { (r : ℕ) → IsDone prefixes.now address walked r
        → IsDone prefixes.now address result r }
{
    with_past(shared + 1, walked)
}

/// The prefix of a row.
pub(crate) fn prefix_of(prefixes: &[IpPrefix], row: u32) -> IpPrefix
    requires { row < length prefixes.now }
    ensures { result ≡ prefix_at prefixes.now row }
{
    prefixes[row as usize]
}

/// A row of this length is found where it is longer than the one before.
fn with_found(prefixes: &[IpPrefix], row: u32, long: u8, walked: Walked) -> Walked
    requires same { long ≡ (prefix_at prefixes.now row).length }
    requires found { (r : ℕ) → walked.found ≡ Some r → walked.long ≡ (prefix_at prefixes.now r).length }
    ensures past { result.past ≡ walked.past }
    ensures found { (result.found ≡ Some row) × (result.long ≡ long)
        ⊎ (result.found ≡ walked.found) × (result.long ≡ walked.long) }
    ensures long { HasLength prefixes.now result.found long }
    ensures keeps { (n : ℕ) → HasLength prefixes.now walked.found n
        → HasLength prefixes.now result.found n }
{
    if let Some(_found) = walked.found {
        if long <= walked.long {
            return walked;
        }
    }
    Walked {
        found: Some(row),
        long,
        past: walked.past,
    }
}

/// So many bits are not shared.
pub(crate) fn with_past(past: u32, walked: Walked) -> Walked
    ensures found { result.found ≡ walked.found }
    ensures long { result.long ≡ walked.long }
    ensures past { result.past ≡ max walked.past past }
{
    Walked {
        found: walked.found,
        long: walked.long,
        past: walked.past.max(past),
    }
}
