//! Where the next change's set may stand, which is a hint and may be wrong.

/// How far apart places are at which one is no hint of the other: from there on halving all sets of a
/// batch takes as many comparisons.
const FAR: usize = 16;

/// The place behind the set that was found last, and whether that tells where the next one may stand.
/// Batches mostly name sets in zone order.
#[derive(Drop)]
pub struct Near {
    place: usize,
    is_near: bool,
}

impl Near {
    /// None was found yet.
    pub fn new() -> Near {
        Near {
            place: 0,
            is_near: false,
        }
    }

    /// A place at which the next set may stand.
    pub fn hint(&self) -> Option<usize> {
        if self.is_near { Some(self.place) } else { None }
    }

    /// A set was found at a place, or would stand there.
    pub fn found(&mut self, found: &Result<usize, usize>) {
        let (Ok(place) | Err(place)) = found;
        self.is_near = place.abs_diff(self.place) < FAR;
        self.place = place.wrapping_add(1);
    }
}
