//! The checks that sets name, told by the slots of these, and how many sets name each.

ghost use Rattle.std.specs.Prelude.{◌≡◌, ◌≢◌, ◌≤◌, ◌+◌, ◌<◌, ◌==◌, ◌↔◌, ℕ, [], IsOk, IsTrue, false, vec_len};
ghost use Rattle.check_commands.specs.Counts.{AreCounted, IsTold, counted, one_if, times, told_at};

use crate::counting::{CheckUse, fall, is_counted, rise};
use octets::OutOfMemory;
use std::alloc::Global;
use std::marker::Model;

/// There are no more checks than these.
const MOST_CHECKS: usize = 200;

/// By the slot of a set the check that it names. Contracts see the numbers of the checks, 0 for
/// none.
#[derive(Drop)]
pub struct NamedChecks {
    /// It is only as long as the highest slot of a set that named a check.
    list: Vec<u32>,
    /// The checks that are named, in any order.
    uses: Vec<CheckUse>,
}

impl Model for NamedChecks {
    ghost use Rattle.std.specs.Prelude.{List, ℕ};
    ghost use Rattle.check_commands.specs.Counts.{AreCounted};

    ghost Value = { List ℕ };

    ghost view = { λ n. n.list.items };

    ghost invariant = { λ n. AreCounted n.uses.items n.list.items };
}

impl NamedChecks {
    /// No set names a check.
    pub fn new(alloc: Global) -> NamedChecks
        ensures { result ≡ [] }
    {
        NamedChecks {
            list: Vec::new(alloc),
            uses: Vec::new(alloc),
        }
    }

    /// Makes room for so many slots in all, and for so many checks more. Where no set that comes
    /// names one it takes no memory, since nothing is put for these.
    pub fn reserve(&mut self, slots: usize, checks: usize) -> Result<(), OutOfMemory>
        ensures same { self.new ≡ self.old }
        ensures plain { checks ≡ 0 → IsOk result }
    {
        if checks == 0 {
            return Ok(());
        }
        make_room(&mut self.list, slots)?;
        let all = self.uses.len().saturating_add(checks);
        make_room(&mut self.uses, all.min(MOST_CHECKS))
    }

    /// Whether some set names a check.
    pub fn is_told(&self, check: u32) -> bool
        requires some { check ≢ 0 }
        ensures { IsTrue result ↔ IsTold self.now check }
    {
        is_counted(&self.uses, check)
    }

    /// The set in a slot names this check from now on; none where the number is 0. It takes no
    /// memory: `false` where there is no room, and then all is as it was.
    pub fn put(&mut self, slot: u32, check: u32) -> bool
        ensures told { IsTrue result → told_at self.new slot ≡ check }
        ensures same { result ≡ false → told_at self.new slot ≡ told_at self.old slot }
        ensures others { (other : ℕ) → other ≢ slot
            → told_at self.new other ≡ told_at self.old other }
    {
        put(&mut self.list, &mut self.uses, slot, check)
    }
}

/// Makes room for so many elements in all, and for a sixteenth more where it can.
fn make_room<T>(list: &mut Vec<T>, total: usize) -> Result<(), OutOfMemory>
    ensures { list.new.items ≡ list.old.items }
{
    if total <= list.capacity() {
        return Ok(());
    }
    let ample = total.saturating_add(total / 16);
    let len = list.len();
    if list.reserve_exact(ample.saturating_sub(len)).is_ok() {
        return Ok(());
    }
    match list.reserve_exact(total.saturating_sub(len)) {
        Ok(()) => Ok(()),
        Err(_) => Err(OutOfMemory),
    }
}

/// The number that is told at a slot.
fn told(list: &[u32], slot: u32) -> u32
    ensures { result ≡ told_at list.now slot }
{
    if slot as usize >= list.len() {
        return 0;
    }
    list[slot as usize]
}

/// Tells this check at a slot, and counts it in place of the one that was told there.
fn put(list: &mut Vec<u32>, uses: &mut Vec<CheckUse>, slot: u32, check: u32) -> bool
    requires counted { AreCounted uses.old.items list.old.items }
    ensures counted { AreCounted uses.new.items list.new.items }
    ensures told { IsTrue result → told_at list.new.items slot ≡ check }
    ensures same { result ≡ false
        → told_at list.new.items slot ≡ told_at list.old.items slot }
    ensures others { (other : ℕ) → other ≢ slot
        → told_at list.new.items other ≡ told_at list.old.items other }
{
    let was = told(list, slot);
    if was == check {
        return true;
    }
    if !reach(list, slot) {
        return false;
    }
    if !turn(uses, was, check) {
        return false;
    }
    list[slot as usize] = check;
    true
}

/// Adds slots of sets that name no check, up to this one. `false` where there is no room.
fn reach(list: &mut Vec<u32>, slot: u32) -> bool
    ensures told { (other : ℕ) → told_at list.new.items other ≡ told_at list.old.items other }
    ensures times { (check : ℕ) → check ≢ 0 → times check list.new.items ≡ times check list.old.items }
    ensures there { IsTrue result → slot < vec_len list.new }
{
    while list.len() <= slot as usize {
        if list.len() >= list.capacity() {
            return false;
        }
        list.push_reserved(0);
    }
    true
}

/// One set names a check in place of another one, or of none, which has number 0. Where this isn't
/// counted, all is as it was.
fn turn(uses: &mut Vec<CheckUse>, was: u32, check: u32) -> bool
    requires some { was ≢ 0 → 0 < counted was uses.old.items }
    ensures turned { IsTrue result → (other : ℕ) → other ≢ 0
        → counted other uses.new.items + one_if (was == other)
        ≡ counted other uses.old.items + one_if (check == other) }
    ensures same { result ≡ false → uses.new.items ≡ uses.old.items }
{
    if !come(uses, check) {
        return false;
    }
    if was != 0 {
        fall(uses, was);
    }
    true
}

/// A set more names a check, unless its number is 0.
fn come(uses: &mut Vec<CheckUse>, check: u32) -> bool
    ensures more { IsTrue result → (other : ℕ) → other ≢ 0 → counted other uses.new.items
        ≡ counted other uses.old.items + one_if (check == other) }
    ensures same { result ≡ false → uses.new.items ≡ uses.old.items }
{
    if check == 0 {
        return true;
    }
    rise(uses, check)
}
