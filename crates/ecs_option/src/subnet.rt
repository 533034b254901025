//! The client's network, and where data that tell none have their first fault.

/// The client's network, as a query's option tells it (RFC 7871, 6).
#[derive(Clone, Copy, Debug, PartialEq, Eq)]
pub struct ClientSubnet {
    /// FAMILY: 1 for IPv4, 2 for IPv6, 0 where no address is told.
    pub family: u16,
    /// SOURCE PREFIX-LENGTH, in bits.
    pub source: u8,
    /// ADDRESS; the octets behind the source length are 0.
    pub address: [u8; 16],
}

/// The place of the first fault of an option's data: their length where they are under four octets,
/// else 0 for the family, 2 for the source length, 3 for the scope length, 4 for the address.
#[derive(Clone, Copy, Debug, PartialEq, Eq)]
pub struct Malformed(pub usize);
