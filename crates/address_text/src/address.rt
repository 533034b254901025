//! An address of either version of the Internet Protocol.

/// An address of the Internet Protocol, in network order.
#[derive(Clone, Copy, Debug, PartialEq, Eq)]
pub enum IpAddress {
    V4([u8; 4]),
    V6([u8; 16]),
}
