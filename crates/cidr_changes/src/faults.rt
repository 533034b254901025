//! Why a command on collections is refused.

use cidr_blocks::Ident;

/// Why a command on collections is not carried out.
#[derive(Clone, Copy, Debug, PartialEq, Eq)]
pub enum CidrFault {
    /// A collection has this name.
    CollectionExists,
    /// A block has 0 bits, or more than 24 of IPv4 or 48 of IPv6.
    BlockLength,
    /// There is no number for one more collection.
    IdsEnded,
    /// There are 100 collections.
    TooManyCidrCollections,
    /// No collection has this number.
    NoSuchCidrCollection(u32),
    /// A block that is put stands under another location.
    CidrBlockInUse,
    /// There would be more than 1,000 blocks.
    TooManyCidrBlocks,
    /// The collection has a block, or a record set names it.
    CidrCollectionInUse,
    /// A record set names this location, which would have no block.
    CidrLocationInUse(Ident),
    OutOfMemory,
}
