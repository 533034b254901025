//! Response codes (RFC 1035, 4.1.1; RFC 6891, 9).

/// The packet can't be read as a query.
pub const FORMERR: u8 = 1;

/// No such name.
pub const NXDOMAIN: u8 = 3;

/// The kind of query isn't supported.
pub const NOTIMP: u8 = 4;

/// The server doesn't answer this query.
pub const REFUSED: u8 = 5;

/// The version of EDNS isn't supported. It needs an OPT record.
pub const BADVERS: u16 = 16;
