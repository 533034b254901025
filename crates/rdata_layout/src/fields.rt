//! The kinds of fields that a value has, and of what stands behind them.

/// A field that says by itself where it ends.
#[derive(Clone, Copy, Debug, PartialEq, Eq)]
pub enum Field {
    /// An address of 4 octets.
    Ipv4,
    /// An address of 16 octets.
    Ipv6,
    /// A domain name.
    Name,
    /// A number of 8 bits.
    Number8,
    /// A number of 16 bits.
    Number16,
    /// A number of 32 bits.
    Number32,
    /// The tag of a CAA property.
    Tag,
}

/// What stands behind the fields of a value, to its end.
#[derive(Clone, Copy, Debug, PartialEq, Eq)]
pub enum Tail {
    Nothing,
    /// One or more strings of at most 255 octets, each behind an octet of length.
    Strings,
    /// At most 255 octets, without a length.
    Value,
}
