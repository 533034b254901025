//! What choices use of what is told of a client.

/// What the choices of a query used: the answer holds for all clients of whom these tell the same.
#[derive(Clone, Copy, Debug, PartialEq, Eq)]
pub struct Used {
    /// A geolocation group was chosen from, and so the table of places.
    pub places: bool,
    /// A latency group was chosen from, and so the table of latencies.
    pub latencies: bool,
    /// The greatest scope of the collections of address blocks by which a group was chosen from, in
    /// bits (RFC 7871, 7.2.1); 0 where there was none.
    pub blocks: u8,
}
