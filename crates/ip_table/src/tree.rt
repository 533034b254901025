/// A place in the tree of one family. The rows here and below begin with the same bits, as many as
/// the fork is deep.
#[derive(Clone, Copy)]
pub struct Fork {
    /// The row that stands here.
    pub row: u32,
    /// Its 32 bits behind the first `start`.
    pub window: u32,
    /// How many bits stand before the window: no more than lead here, and none of IPv4.
    pub start: u8,
    /// How many bits the row has.
    pub long: u8,
    /// How many bits all rows here and below have in common.
    pub depth: u8,
    /// The forks below, by the next bit, each times 256 and with its depth, so that a walk needn't
    /// wait for the fork to know its next bit; 0 for none: the root is below no fork.
    pub zero: u32,
    pub one: u32,
}

/// What a walk has seen.
#[derive(Clone, Copy)]
pub struct Walked {
    /// The longest row that contains the address.
    pub found: Option<u32>,
    /// How many bits that row has, 0 for none.
    pub long: u8,
    /// One more than the most first bits that the address shares with a row that doesn't contain
    /// it; 0 for none. A number of 32 bits, with which a walk works in fewer instructions.
    pub past: u32,
}
