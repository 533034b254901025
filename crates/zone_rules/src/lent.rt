//! Sets that are lent, so that sets which are there and sets which come can stand in one list and
//! none is copied.

ghost use Rattle.std.specs.Prelude.{◌≡◌, ◌<◌, length, slice_get, Some, IfOk};
ghost use Rattle.zone_rules.specs.Lent.{sets_lent};

use batch_model::RecordSet;
use octets::OutOfMemory;
use std::alloc::Global;

/// The set at a place.
pub fn set_at<'a>(sets: &[&'a RecordSet], place: usize) -> &'a RecordSet
    requires { place < length (sets_lent sets.now) }
    ensures { slice_get (sets_lent sets.now) place ≡ Some result.now }
{
    sets[place]
}

/// All sets lent, and room for so many more.
pub fn lend_all<'a>(
    alloc: Global,
    sets: &'a [RecordSet],
    more: usize,
) -> Result<Vec<&'a RecordSet>, OutOfMemory>
    ensures { IfOk result (λ lent. sets_lent lent.items ≡ sets.now) }
{
    let mut lent = Vec::with_capacity(alloc, sets.len().saturating_add(more))?;
    for set in sets {
        lent.push(set)?;
    }
    Ok(lent)
}
