//! The links of one list. The last cell has itself behind it, so no cell stands for none.

ghost use Rattle.std.specs.Prelude.{◌≡◌, ◌≢◌, ◌≤◌, ◌<◌, ◌==◌, ◌+◌, ◌^◌, ℕ, length, slice_index};
ghost use Rattle.std.specs.Prelude.{slice_set, vec_capacity};
ghost use Rattle.cell_lists.specs.Linked.{behind_first, behind_gone, head_at, head_without};
ghost use Rattle.cell_lists.specs.Linked.{before_without, next_without};

/// Where a list begins, and how many cells it has.
#[derive(Clone, Copy, Debug, PartialEq, Eq)]
pub struct Head {
    pub first: u32,
    pub count: u32,
}

/// Where the list of an owner begins.
pub fn head_at(heads: &[Head], owner: usize) -> Head
    requires { owner < length heads.now }
    ensures { result ≡ head_at heads.now owner }
{
    heads[owner]
}

/// What a cell is linked to.
pub fn link_at(links: &[u32], cell: u32) -> u32
    requires { cell < length links.now }
    ensures { result ≡ slice_index links.now cell }
{
    links[cell as usize]
}

/// What stands behind a cell that comes to the front.
fn behind_first(head: Head, cell: u32) -> u32
    ensures { result ≡ behind_first head cell }
{
    if head.count == 0 { cell } else { head.first }
}

/// What stands behind the cell in front of one that goes.
fn behind_gone(behind: u32, cell: u32, front: u32) -> u32
    ensures { result ≡ behind_gone behind cell front }
{
    if behind == cell { front } else { behind }
}

/// Links a cell in front of a list. The answer is where the list begins then.
pub fn link(next: &mut Vec<u32>, before: &mut Vec<u32>, head: Head, cell: u32) -> Head
    requires cell { cell < length next.old.items }
    requires behind { behind_first head cell < length before.old.items }
    requires few { head.count + 1 < 2 ^ 32 }
    ensures next { next.new.items ≡ slice_set next.old.items cell (behind_first head cell) }
    ensures before { before.new.items ≡ slice_set before.old.items (behind_first head cell) cell }
    ensures head { result ≡ record { first = cell; count = head.count + 1 } }
    ensures next_room { vec_capacity next.new ≡ vec_capacity next.old }
    ensures before_room { vec_capacity before.new ≡ vec_capacity before.old }
{
    let behind = behind_first(head, cell);
    next[cell as usize] = behind;
    before[behind as usize] = cell;
    Head {
        first: cell,
        count: head.count + 1,
    }
}

/// Links what stands before a cell to what stands behind it. The answer is where its list begins
/// then.
pub fn unlink(next: &mut Vec<u32>, before: &mut Vec<u32>, head: Head, cell: u32) -> Head
    requires cell { cell < length next.old.items }
    requires some { 0 < head.count }
    requires long { length before.old.items ≡ length next.old.items }
    requires front { head.first ≢ cell → slice_index before.old.items cell < length next.old.items }
    requires behind { slice_index next.old.items cell < length next.old.items }
    ensures next { next.new.items ≡ next_without head next.old.items before.old.items cell }
    ensures before { before.new.items ≡ before_without head next.old.items before.old.items cell }
    ensures head { result ≡ head_without head next.old.items cell }
    ensures next_room { vec_capacity next.new ≡ vec_capacity next.old }
    ensures before_room { vec_capacity before.new ≡ vec_capacity before.old }
{
    let behind = link_at(next, cell);
    let count = head.count - 1;
    if head.first == cell {
        return Head {
            first: behind,
            count,
        };
    }
    let front = link_at(before, cell);
    next[front as usize] = behind_gone(behind, cell, front);
    before[behind as usize] = front;
    Head {
        first: head.first,
        count,
    }
}
