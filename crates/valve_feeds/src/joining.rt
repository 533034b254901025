//! Feeds as cells: each in the list of its feeder and in that of the valve that it feeds.

ghost use Rattle.std.specs.Prelude.{◌≡◌, ◌≤◌, ◌<◌, ◌+◌, ◌-◌, ◌++◌, ◌∷◌, [], ◌^◌, ℕ, suc, length};
ghost use Rattle.std.specs.List.{Contains};
ghost use Rattle.cell_lists.specs.Lists.{IsFree, list_of, with_list, without};
ghost use Rattle.valve_feeds.specs.Joined.{IsJoined, HasCell, ends_at, more_in, of_valves};

use cell_lists::CellLists;

/// The valves of a feed.
#[derive(Clone, Copy, Debug, PartialEq, Eq)]
pub struct Ends {
    pub feeder: u32,
    pub fed: u32,
}

/// The list of the cells that are no feeds, among those of the feeders; the valves come behind it.
pub const FREE: usize = 0;

/// The list of the feeds of a valve.
pub fn list_from(valve: u32) -> usize
    ensures { result ≡ suc valve }
{
    valve as usize + 1
}

/// How many cells are no feeds.
pub fn free_count(out: &CellLists) -> usize
    ensures count { result ≡ length (list_of out.now 0) }
    ensures most { result < 2 ^ 32 }
{
    if out.owners() == 0 {
        return 0;
    }
    out.count(FREE) as usize
}

/// Takes a cell that is no feed, in no list then: one that was, or a new one.
pub fn free_cell(ends: &mut Vec<Ends>, out: &mut CellLists, into: &mut CellLists) -> u32
    requires joined { IsJoined ends.old.items out.old into.old }
    requires some { 0 < length out.old.lists }
    requires room { 1 ≤ length (list_of out.old 0) + more_in ends.old out.old into.old }
    ensures { HasCell ends.old ends.new out.old out.new into.old into.new result }
{
    if let Some(cell) = out.first(FREE) {
        out.take(FREE, cell);
        return cell;
    }
    let cell = out.len() as u32;
    out.push_cell();
    into.push_cell();
    ends.push_reserved(Ends { feeder: 0, fed: 0 });
    cell
}

/// One list more, of a valve: behind the first one, which is there then too.
pub fn push_list(out: &mut CellLists)
    requires { 1 ≤ out.old.owners_room - (1 - length out.old.lists) }
    ensures valves { of_valves out.new.lists ≡ of_valves out.old.lists ++ [] ∷ [] }
    ensures free { list_of out.new 0 ≡ list_of out.old 0 }
    ensures some { 0 < length out.new.lists }
    ensures cells { out.new.cells ≡ out.old.cells }
    ensures room { out.new.owners_room + 1 ≡ out.old.owners_room - (1 - length out.old.lists) }
    ensures cells_room { out.new.cells_room ≡ out.old.cells_room }
{
    if out.owners() == 0 {
        out.push_owner();
        out.push_owner();
        return;
    }
    out.push_owner();
}

/// A cell is no feed any longer. The answer is what it was.
pub fn part(ends: &[Ends], out: &mut CellLists, into: &mut CellLists, cell: u32) -> Ends
    requires ends { cell < length ends.now }
    requires cell { cell < out.old.cells }
    requires out { Contains (list_of out.old (suc (ends_at ends.now cell).feeder)) cell }
    requires into { Contains (list_of into.old (ends_at ends.now cell).fed) cell }
    ensures ends { result ≡ ends_at ends.now cell }
    ensures out { out.new ≡ with_list 0 (cell ∷ list_of out.old 0)
        (with_list (suc result.feeder) (without cell (list_of out.old (suc result.feeder)))
        out.old) }
    ensures into { into.new
        ≡ with_list result.fed (without cell (list_of into.old result.fed)) into.old }
    ensures free { IsFree into.new.lists cell }
{
    let ends = ends[cell as usize];
    out.take(list_from(ends.feeder), cell);
    out.put(FREE, cell);
    into.take(ends.fed as usize, cell);
    ends
}
