//! What a look-up answers: places of a group.

/// The sets of one name and type of a zone, by their places in zone order.
#[derive(Clone, Copy, Debug, PartialEq, Eq)]
pub struct Group {
    /// The number of the zone.
    pub zone: u32,
    /// The place of the first set.
    pub start: usize,
    /// How many sets there are.
    pub length: usize,
}
