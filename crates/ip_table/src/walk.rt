//! The walk from the root along an address's bits.

ghost use Rattle.std.specs.Prelude.{◌≡◌, ℕ, Bool, not, ◌+◌, ◌-◌, ◌/◌, ◌^◌, ◌<◌, ◌≤◌, ◌⊎◌, length, IsTrue, ◌↔◌, max, None, cond};
ghost use Rattle.ip_table.specs.Bits.{width_of, number_of, first_bits};
ghost use Rattle.ip_table.specs.Prefixes.{IsPrefix};
ghost use Rattle.ip_table.specs.Trees.{HasPrefix, AllPrefixes, IsTree, SharesBits, IsTrueOf, IsDone, SumsUp, AllStand, fork_at, prefix_at, child_pair, child, bit_behind, window};
ghost use Rattle.ip_table.specs.Visits.{IsVisit};

use crate::IpPrefix;
use crate::bits::{
    bit_of, first_half, has_bit, has_bit_at, number_of, shared_before, shared_bits, width_of,
    window_of,
};
use crate::tree::{Fork, Walked};
use crate::walked::{prefix_of, with_apart, with_past, with_row};
use address_text::IpAddress;

/// What a walk has seen at one more fork, and where it goes on.
#[derive(Clone, Copy)]
pub struct Visited {
    pub walked: Walked,
    pub next: u32,
    /// 255 less how deep that is: the place of the next bit, if places are counted by 64.
    pub place: u32,
}

/// Visits a fork on the way along the bits of an address.
#[inline(always)]
fn at_fork(
    prefixes: &[IpPrefix],
    forks: &[Fork],
    at: u32,
    place: u32,
    address: IpAddress,
    number: u128,
    walked: Walked,
) -> Visited
    requires prefixes { AllPrefixes prefixes.now }
    requires tree { IsTree prefixes.now forks.now (width_of address) }
    requires number { number ≡ number_of address }
    requires at { at < length forks.now }
    requires place { place ≡ 255 - (fork_at forks.now at).depth }
    requires meets { SharesBits prefixes.now forks.now address at }
    requires sound { IsTrueOf prefixes.now address walked }
    ensures { IsVisit prefixes.now forks.now address at walked result }
{
    let depth = 255 - place;
    let fork = fork_of(forks, at);
    let shared = shared_at(prefixes, fork, address, number);
    let on = has_bit(depth, number);
    visit(
        prefixes, forks, at, fork, shared, on, depth, place, address, walked,
    )
}

/// Visits a fork of IPv4 on the way along the bits of an address, by its first 32 bits and by the
/// first half of its number.
#[inline(always)]
fn at_fork_of_v4(
    prefixes: &[IpPrefix],
    forks: &[Fork],
    at: u32,
    place: u32,
    address: IpAddress,
    first: u32,
    half: u64,
    walked: Walked,
) -> Visited
    requires prefixes { AllPrefixes prefixes.now }
    requires tree { IsTree prefixes.now forks.now (width_of address) }
    requires family { width_of address ≡ 32 }
    requires first { first ≡ window 0 address }
    requires half { half ≡ number_of address / 2 ^ 64 }
    requires at { at < length forks.now }
    requires place { place ≡ 255 - (fork_at forks.now at).depth }
    requires meets { SharesBits prefixes.now forks.now address at }
    requires sound { IsTrueOf prefixes.now address walked }
    ensures { IsVisit prefixes.now forks.now address at walked result }
{
    let depth = 255 - place;
    let fork = fork_of(forks, at);
    let shared = shared_at_first(prefixes, fork, address, first);
    let on = has_bit_at(place, half);
    visit(
        prefixes, forks, at, fork, shared, on, depth, place, address, walked,
    )
}

/// Visits a fork on the way along the bits of an address: of those the row there shares so many, and
/// the one behind the fork's is set or not.
///
/// Where the row doesn't contain the address, it shares no fewer bits than the rows that stand aside
/// from the way: those needn't be asked for then, nor which row it is, which is read only where it
/// contains the address.
#[inline(always)]
fn visit(
    prefixes: &[IpPrefix],
    forks: &[Fork],
    at: u32,
    fork: Fork,
    shared: u32,
    on: bool,
    depth: u32,
    place: u32,
    address: IpAddress,
    walked: Walked,
) -> Visited
    requires prefixes { AllPrefixes prefixes.now }
    requires tree { IsTree prefixes.now forks.now (width_of address) }
    requires at { at < length forks.now }
    requires fork { fork ≡ fork_at forks.now at }
    requires shared { (n : ℕ) → n ≤ (prefix_at prefixes.now fork.row).length
        → (n ≤ shared ↔ (first_bits n (prefix_at prefixes.now fork.row).address
        ≡ first_bits n address)) }
    requires few { shared < 256 }
    requires depth { depth ≡ (fork_at forks.now at).depth }
    requires place { place + depth ≡ 255 }
    requires on { cond on 1 0 ≡ bit_behind depth address }
    requires sound { IsTrueOf prefixes.now address walked }
    ensures { IsVisit prefixes.now forks.now address at walked result }
{
    if shared + place < 255 {
        return Visited {
            walked: with_apart(prefixes, fork.row, shared, address, walked),
            next: 0,
            place: 0,
        };
    }
    let child_pair = word_of(fork, on);
    if shared < u32::from(fork.long) {
        return Visited {
            walked: with_apart(prefixes, fork.row, shared, address, walked),
            next: child_pair >> 8,
            place: child_pair % 256,
        };
    }
    let row = fork_of(forks, at).row;
    let here = with_row(prefixes, row, fork.long, shared, address, walked);
    Visited {
        walked: with_other(other_word(fork, child_pair) >> 8, depth, here),
        next: child_pair >> 8,
        place: child_pair % 256,
    }
}

/// What a fork tells of the one to which a bit leads, be it set or not.
#[inline(always)]
fn word_of(fork: Fork, on: bool) -> u32
    ensures { result ≡ child_pair fork (cond on 1 0) }
{
    if on { fork.one } else { fork.zero }
}

/// What a fork tells of the one to which the other bit leads. The bit isn't asked again, so that a
/// walk needs it once a fork.
#[inline(always)]
fn other_word(fork: Fork, taken: u32) -> u32
    ensures { (on : Bool) → taken ≡ child_pair fork (cond on 1 0)
        → result ≡ child_pair fork (cond (not on) 1 0) }
{
    if taken == fork.one {
        fork.zero
    } else {
        fork.one
    }
}

/// How many first bits the row at a fork shares with an address that has those before its window;
/// where it shares all of its own, not how many more.
fn shared_at(prefixes: &[IpPrefix], fork: Fork, address: IpAddress, number: u128) -> u32
    requires row { fork.row < length prefixes.now }
    requires prefix { IsPrefix (prefix_at prefixes.now fork.row).address
        (prefix_at prefixes.now fork.row).length }
    requires low { fork.start ≤ 96 }
    requires long { fork.long ≡ (prefix_at prefixes.now fork.row).length }
    requires meets { first_bits fork.start (prefix_at prefixes.now fork.row).address
        ≡ first_bits fork.start address }
    requires window { fork.window ≡ window fork.start (prefix_at prefixes.now fork.row).address }
    requires number { number ≡ number_of address }
    ensures low { result < 256 }
    ensures same { (n : ℕ) → n ≤ (prefix_at prefixes.now fork.row).length
        → (n ≤ result ↔ (first_bits n (prefix_at prefixes.now fork.row).address ≡ first_bits n address)) }
{
    let window = window_of(fork.start, number);
    if fork.window != window {
        return shared_before(fork.start, fork.window, window);
    }
    if fork.long <= fork.start + 32 {
        return u32::from(fork.long);
    }
    u32::from(shared_bits(prefix_of(prefixes, fork.row).address(), address))
}

/// How many first bits the row at a fork of IPv4, whose window is the whole address, shares with an
/// address of these first 32 bits.
#[inline(always)]
fn shared_at_first(prefixes: &[IpPrefix], fork: Fork, address: IpAddress, first: u32) -> u32
    requires row { fork.row < length prefixes.now }
    requires few { (prefix_at prefixes.now fork.row).length ≤ 32 }
    requires flat { fork.start ≡ 0 }
    requires meets { first_bits fork.start (prefix_at prefixes.now fork.row).address
        ≡ first_bits fork.start address }
    requires window { fork.window ≡ window fork.start (prefix_at prefixes.now fork.row).address }
    requires first { first ≡ window 0 address }
    ensures low { result < 256 }
    ensures same { (n : ℕ) → n ≤ (prefix_at prefixes.now fork.row).length
        → (n ≤ result ↔ (first_bits n (prefix_at prefixes.now fork.row).address ≡ first_bits n address)) }
{
    shared_before(0, fork.window, first)
}

/// Where rows stand aside from the way, the next bit is not shared.
fn with_other(other: u32, depth: u32, walked: Walked) -> Walked
    requires { depth < 255 }
    ensures found { result.found ≡ walked.found }
    ensures long { result.long ≡ walked.long }
    ensures past { (result.past ≡ max walked.past (depth + 1)) × (0 < other)
        ⊎ (result.past ≡ walked.past) × (other ≡ 0) }
{
    if other == 0 {
        return walked;
    }
    with_past(depth + 1, walked)
}

/// The fork at a place.
pub(crate) fn fork_of(forks: &[Fork], at: u32) -> Fork
    requires { at < length forks.now }
    ensures { result ≡ fork_at forks.now at }
{
    forks[at as usize]
}

/// The fork that a bit leads to.
pub(crate) fn child_of(fork: Fork, bit: u8) -> u32
    ensures { result ≡ child fork bit }
{
    if bit == 0 {
        fork.zero >> 8
    } else {
        fork.one >> 8
    }
}

/// Sums up all rows of the address's family.
pub(crate) fn sum_up(prefixes: &[IpPrefix], forks: &[Fork], address: IpAddress) -> Walked
    requires prefixes { AllPrefixes prefixes.now }
    requires tree { IsTree prefixes.now forks.now (width_of address) }
    requires all { AllStand prefixes.now forks.now (width_of address) (length prefixes.now) }
    ensures sums { SumsUp prefixes.now address result }
    ensures low { result.past ≤ 128 }
{
    if forks.is_empty() {
        return nothing();
    }
    if width_of(address) == 32 {
        return walk_of_v4(prefixes, forks, address);
    }
    walk(prefixes, forks, address)
}

/// No row was found.
fn nothing() -> Walked
    ensures { result ≡ record { found = None; long = 0; past = 0 } }
{
    Walked {
        found: None,
        long: 0,
        past: 0,
    }
}

/// Sums up all rows of the address's family by a walk along its bits.
fn walk(prefixes: &[IpPrefix], forks: &[Fork], address: IpAddress) -> Walked
    requires prefixes { AllPrefixes prefixes.now }
    requires tree { IsTree prefixes.now forks.now (width_of address) }
    requires all { AllStand prefixes.now forks.now (width_of address) (length prefixes.now) }
    requires some { 0 < length forks.now }
    ensures { SumsUp prefixes.now address result }
{
    let number = number_of(address);
    let mut walked = nothing();
    let mut at = 0;
    let mut place = 255;
    loop {
        let visited = at_fork(prefixes, forks, at, place, address, number, walked);
        walked = visited.walked;
        if visited.next == 0 {
            return walked;
        }
        at = visited.next;
        place = visited.place;
    }
}

/// Sums up all rows of IPv4 by a walk along an address's bits.
fn walk_of_v4(prefixes: &[IpPrefix], forks: &[Fork], address: IpAddress) -> Walked
    requires prefixes { AllPrefixes prefixes.now }
    requires tree { IsTree prefixes.now forks.now (width_of address) }
    requires all { AllStand prefixes.now forks.now (width_of address) (length prefixes.now) }
    requires some { 0 < length forks.now }
    requires family { width_of address ≡ 32 }
    ensures { SumsUp prefixes.now address result }
{
    let number = number_of(address);
    let half = first_half(number);
    let first = window_of(0, number);
    let mut walked = nothing();
    let mut at = 0;
    let mut place = 255;
    loop {
        let visited = at_fork_of_v4(prefixes, forks, at, place, address, first, half, walked);
        walked = visited.walked;
        if visited.next == 0 {
            return walked;
        }
        at = visited.next;
        place = visited.place;
    }
}

/// Whether a row has this prefix.
pub(crate) fn is_there(prefixes: &[IpPrefix], forks: &[Fork], prefix: IpPrefix) -> bool
    requires prefixes { AllPrefixes prefixes.now }
    requires tree { IsTree prefixes.now forks.now (width_of prefix.address) }
    requires all { AllStand prefixes.now forks.now (width_of prefix.address) (length prefixes.now) }
    ensures { IsTrue result ↔ HasPrefix prefixes.now prefix }
{
    if forks.is_empty() {
        return false;
    }
    let number = number_of(prefix.address());
    let mut at = 0;
    loop {
        let fork = fork_of(forks, at);
        if is_same(prefix_of(prefixes, fork.row), prefix) {
            return true;
        }
        let next = child_of(fork, bit_of(fork.depth, number));
        if next == 0 {
            return false;
        }
        at = next;
    }
}

/// Whether two prefixes are one.
fn is_same(p: IpPrefix, q: IpPrefix) -> bool
    ensures { IsTrue result ↔ (p ≡ q) }
{
    p == q
}
