//! Where a row is placed in the tree, and what it moves.

ghost use Rattle.std.specs.Prelude.{◌≡◌, ◌≢◌, ℕ, ◌+◌, ◌^◌, ◌<◌, ◌≤◌, length, ◌↔◌, [], ◌∷◌, ◌++◌, slice_set, vec_len, vec_capacity};
ghost use Rattle.ip_table.specs.Bits.{width_of, first_bits};
ghost use Rattle.ip_table.specs.Prefixes.{IsPrefix};
ghost use Rattle.ip_table.specs.Trees.{HasPrefix, AllPrefixes, AreApart, IsTree, IsCarried, AllStand, IsGrown, bit_behind, taken_by, leaf, linked, pair_of, grown, prefix_at, fork_at};

use crate::IpPrefix;
use crate::bits::{bit_of, number_of, shared_bits, width_of, window_of};
use crate::tree::Fork;
use crate::walk::{child_of, fork_of};
use crate::walked::prefix_of;
use address_text::IpAddress;

/// The most bits before a window, since it has 32 of 128.
const MAX_START: u8 = 96;

/// Where the window of a fork begins below one of this depth: behind bits that lead to it. The
/// window of an IPv4 address is the address.
fn start_below(depth: u8, address: IpAddress) -> u8
    ensures low { result ≤ 96 }
    ensures up { result ≤ depth }
    ensures flat { width_of address ≡ 32 → result ≡ 0 }
{
    if width_of(address) == 32 {
        return 0;
    }
    depth.min(MAX_START)
}

/// A fork that a row takes.
fn taken_by(fork: Fork, prefixes: &[IpPrefix], row: u32) -> Fork
    requires row { row < length prefixes.now }
    requires low { fork.start ≤ 96 }
    ensures { result ≡ taken_by fork prefixes.now row }
{
    let prefix = prefix_of(prefixes, row);
    Fork {
        row,
        window: window_of(fork.start, number_of(prefix.address())),
        start: fork.start,
        long: prefix.length(),
        depth: fork.depth,
        zero: fork.zero,
        one: fork.one,
    }
}

/// A fork for a row, with no fork below it.
fn leaf(prefixes: &[IpPrefix], start: u8, depth: u8, row: u32) -> Fork
    requires row { row < length prefixes.now }
    requires low { start ≤ 96 }
    ensures { result ≡ leaf prefixes.now start depth row }
{
    let fork = Fork {
        row: 0,
        window: 0,
        start,
        long: 0,
        depth,
        zero: 0,
        one: 0,
    };
    taken_by(fork, prefixes, row)
}

/// A fork with a bit that leads on, to one of this depth.
fn linked(fork: Fork, bit: u8, at: u32, depth: u8) -> Fork
    requires { at < 2 ^ 24 }
    ensures { result ≡ linked fork bit (pair_of at depth) }
{
    let child_pair = at * 256 + (255 - u32::from(depth));
    if bit == 0 {
        return Fork {
            zero: child_pair,
            ..fork
        };
    }
    Fork {
        one: child_pair,
        ..fork
    }
}

/// A fork for a row, with this fork below it.
fn between(prefixes: &[IpPrefix], start: u8, depth: u8, row: u32, next: u32, below: Fork) -> Fork
    requires row { row < length prefixes.now }
    requires below { below.row < length prefixes.now }
    requires low { start ≤ 96 }
    requires next { next < 2 ^ 24 }
    ensures { result ≡ linked (leaf prefixes.now start depth row)
        (bit_behind depth (prefix_at prefixes.now below.row).address)
        (pair_of next below.depth) }
{
    let bit = bit_of(depth, number_of(prefix_of(prefixes, below.row).address()));
    linked(leaf(prefixes, start, depth, row), bit, next, below.depth)
}

/// Puts a row at a fork of the tree, and takes the one that stands there.
fn put_row(prefixes: &[IpPrefix], forks: &mut Vec<Fork>, at: u32, row: u32) -> u32
    requires at { at < length forks.old.items }
    requires row { row < length prefixes.now }
    requires low { (fork_at forks.old.items at).start ≤ 96 }
    ensures taken { result ≡ (fork_at forks.old.items at).row }
    ensures items { forks.new.items ≡ slice_set forks.old.items at
        (taken_by (fork_at forks.old.items at) prefixes.now row) }
    ensures len { vec_len forks.new ≡ vec_len forks.old }
    ensures capacity { vec_capacity forks.new ≡ vec_capacity forks.old }
{
    let fork = fork_of(forks, at);
    forks[at as usize] = taken_by(fork, prefixes, row);
    fork.row
}

/// Adds a fork below another.
fn add_fork(forks: &mut Vec<Fork>, above: u32, bit: u8, fork: Fork)
    requires above { above < length forks.old.items }
    requires few { length forks.old.items < 2 ^ 24 }
    requires room { vec_len forks.old < vec_capacity forks.old }
    ensures items { forks.new.items ≡ grown forks.old.items above bit fork }
    ensures capacity { vec_capacity forks.new ≡ vec_capacity forks.old }
{
    let next = forks.len() as u32;
    forks[above as usize] = linked(fork_of(forks, above), bit, next, fork.depth);
    forks.push_reserved(fork);
}

/// Puts the row that is carried at this fork, where it can go no deeper, and answers which row goes
/// on.
fn settle(prefixes: &[IpPrefix], forks: &mut Vec<Fork>, at: u32, carried: u32) -> u32
    requires prefixes { AllPrefixes prefixes.now }
    requires apart { AreApart prefixes.now }
    requires carried { IsCarried prefixes.now forks.old.items
        (width_of (prefix_at prefixes.now carried).address) at carried }
    ensures carried { IsCarried prefixes.now forks.new.items
        (width_of (prefix_at prefixes.now carried).address) at result }
    ensures deeper { (fork_at forks.new.items at).depth < (prefix_at prefixes.now result).length }
    ensures depth { (fork_at forks.new.items at).depth ≡ (fork_at forks.old.items at).depth }
    ensures length { length forks.new.items ≡ length forks.old.items }
    ensures len { vec_len forks.new ≡ vec_len forks.old }
    ensures capacity { vec_capacity forks.new ≡ vec_capacity forks.old }
{
    if fork_of(forks, at).depth < prefix_of(prefixes, carried).length() {
        return carried;
    }
    put_row(prefixes, forks, at, carried)
}

/// How many first bits a row has in common with another, no more than the other one has.
fn shared_with(prefixes: &[IpPrefix], row: u32, other: u32) -> u8
    requires row { row < length prefixes.now }
    requires other { other < length prefixes.now }
    ensures { (n : ℕ) → n ≤ 128 → (n ≤ result ↔ ((n ≤ (prefix_at prefixes.now other).length)
        × (first_bits n (prefix_at prefixes.now row).address
        ≡ first_bits n (prefix_at prefixes.now other).address))) }
{
    let prefix = prefix_of(prefixes, other);
    shared_bits(prefix_of(prefixes, row).address(), prefix.address()).min(prefix.length())
}

/// Puts the row that is carried below a fork, and answers 0; or answers the fork below to which it
/// is carried on.
///
/// Where it hasn't all bits of the rows there, it gets a fork between.
fn carry(prefixes: &[IpPrefix], forks: &mut Vec<Fork>, above: u32, carried: u32) -> u32
    requires prefixes { AllPrefixes prefixes.now }
    requires carried { IsCarried prefixes.now forks.old.items
        (width_of (prefix_at prefixes.now carried).address) above carried }
    requires deeper { (fork_at forks.old.items above).depth
        < (prefix_at prefixes.now carried).length }
    requires few { length forks.old.items < 2 ^ 24 }
    requires room { vec_len forks.old < vec_capacity forks.old }
    ensures added { result ≡ 0 → IsGrown prefixes.now forks.new.items
        (width_of (prefix_at prefixes.now carried).address) (length forks.old.items) }
    ensures stays { 0 < result → forks.new.items ≡ forks.old.items }
    ensures on { 0 < result → IsCarried prefixes.now forks.old.items
        (width_of (prefix_at prefixes.now carried).address) result carried }
    ensures further { 0 < result → (fork_at forks.old.items above).depth
        < (fork_at forks.old.items result).depth }
    ensures len { 0 < result → vec_len forks.new ≡ vec_len forks.old }
    ensures capacity { vec_capacity forks.new ≡ vec_capacity forks.old }
{
    let fork = fork_of(forks, above);
    let prefix = prefix_of(prefixes, carried);
    let start = start_below(fork.depth, prefix.address());
    let bit = bit_of(fork.depth, number_of(prefix.address()));
    let next = child_of(fork, bit);
    if next == 0 {
        add_fork(
            forks,
            above,
            bit,
            leaf(prefixes, start, prefix.length(), carried),
        );
        return 0;
    }
    let below = fork_of(forks, next);
    let depth = shared_with(prefixes, below.row, carried);
    if depth < below.depth {
        add_fork(
            forks,
            above,
            bit,
            between(prefixes, start, depth, carried, next, below),
        );
        return 0;
    }
    next
}

/// Puts a row of the family into the tree.
///
/// A row stands no deeper than it is long: there it takes the place of a longer one, which goes on
/// further down.
fn place(prefixes: &[IpPrefix], forks: &mut Vec<Fork>, row: u32)
    requires prefixes { AllPrefixes prefixes.now }
    requires apart { AreApart prefixes.now }
    requires row { row < length prefixes.now }
    requires some { 0 < length forks.old.items }
    requires tree { IsTree prefixes.now forks.old.items
        (width_of (prefix_at prefixes.now row).address) }
    requires fresh { (i : ℕ) → i < length forks.old.items → (fork_at forks.old.items i).row ≢ row }
    requires others { AllStand prefixes.now forks.old.items
        (width_of (prefix_at prefixes.now row).address) row }
    requires few { length forks.old.items < 2 ^ 24 }
    requires room { vec_len forks.old < vec_capacity forks.old }
    ensures grown { IsGrown prefixes.now forks.new.items
        (width_of (prefix_at prefixes.now row).address) (length forks.old.items) }
    ensures capacity { vec_capacity forks.new ≡ vec_capacity forks.old }
{
    let mut carried = row;
    let mut at = 0;
    loop {
        carried = settle(prefixes, forks, at, carried);
        let next = carry(prefixes, forks, at, carried);
        if next == 0 {
            return;
        }
        at = next;
    }
}

/// Adds a row of the tree's family at the end.
pub(crate) fn add_row(prefixes: &mut Vec<IpPrefix>, forks: &mut Vec<Fork>, prefix: IpPrefix)
    requires prefixes { AllPrefixes prefixes.old.items }
    requires apart { AreApart prefixes.old.items }
    requires tree { IsTree prefixes.old.items forks.old.items (width_of prefix.address) }
    requires all { AllStand prefixes.old.items forks.old.items (width_of prefix.address)
        (length prefixes.old.items) }
    requires prefix { IsPrefix prefix.address prefix.length }
    requires absent { ¬ HasPrefix prefixes.old.items prefix }
    requires few { length prefixes.old.items + 1 < 2 ^ 24 }
    requires forks { length forks.old.items ≤ length prefixes.old.items }
    requires room { vec_len prefixes.old < vec_capacity prefixes.old }
    requires fork_room { vec_len forks.old < vec_capacity forks.old }
    ensures items { prefixes.new.items ≡ prefixes.old.items ++ prefix ∷ [] }
    ensures grown { IsGrown prefixes.new.items forks.new.items (width_of prefix.address)
        (length forks.old.items) }
{
    let row = prefixes.len() as u32;
    prefixes.push_reserved(prefix);
    if forks.is_empty() {
        forks.push_reserved(leaf(prefixes, 0, 0, row));
        return;
    }
    place(prefixes, forks, row);
}
