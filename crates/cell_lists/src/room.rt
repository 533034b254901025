//! Room for elements to come.

ghost use Rattle.std.specs.Prelude.{◌≡◌, ◌≤◌, ◌+◌, IsOk, OnOk, vec_capacity, vec_len};

use octets::OutOfMemory;
use std::mem;

/// Makes room for so many elements more. Those that there are stay. Where a list moves they alone are
/// copied, and not the room behind them, so that memory which was never written stays so.
pub fn make_room_for<T: Drop>(list: &mut Vec<T>, more: usize) -> Result<(), OutOfMemory>
    ensures items { list.new.items ≡ list.old.items }
    ensures room { OnOk result (vec_len list.new + more ≤ vec_capacity list.new) }
    ensures kept { vec_capacity list.old ≤ vec_capacity list.new }
    ensures ready { vec_len list.old + more ≤ vec_capacity list.old → IsOk result }
{
    let room = list.capacity();
    if more <= room - list.len() {
        return Ok(());
    }
    let Some(total) = list.len().checked_add(more) else {
        return Err(OutOfMemory);
    };
    let wide = total.max(room.saturating_mul(2));
    let Ok(mut wider) = Vec::with_capacity(*list.allocator(), wide) else {
        return Err(OutOfMemory);
    };
    let Ok(()) = wider.append(list) else {
        return Err(OutOfMemory);
    };
    mem::swap(list, &mut wider);
    Ok(())
}
