//! Blocks in their order, each with its location, and what one change does to them.

ghost use Rattle.std.specs.Prelude.{◌≡◌, ◌&&◌, OnOk, is_some};
ghost use Rattle.std.specs.List.{list_any};
ghost use Rattle.cidr_changes.specs.Changes.{is_elsewhere, put, put_all, removed, removed_all, stands_at};
ghost use Rattle.cidr_changes.specs.Changes.{changed, has_bad_length, has_block_in_use};
ghost use Rattle.cidr_changes.specs.Changes.{location_of};

use crate::changes::CidrChange;
use cidr_blocks::{Block, Ident, IpPrefix, is_block};
use octets::OutOfMemory;
use std::collections::BTreeMap;

/// Whether a block stands under another location than this one.
fn is_elsewhere(rows: &BTreeMap<Block, Ident>, name: &Ident, block: IpPrefix) -> bool
    ensures { result ≡ is_elsewhere name.now rows.now.entries block }
{
    match rows.get(&Block { prefix: block }) {
        Some(other) => other.bytes() != name.bytes(),
        None => false,
    }
}

/// Whether a block stands under this location.
fn stands_at(rows: &BTreeMap<Block, Ident>, name: &Ident, block: IpPrefix) -> bool
    ensures { result ≡ stands_at name.now rows.now.entries block }
{
    match rows.get(&Block { prefix: block }) {
        Some(other) => other.bytes() == name.bytes(),
        None => false,
    }
}

/// Puts a block under a location. One that stands anywhere stays where it is.
fn put(rows: &mut BTreeMap<Block, Ident>, name: Ident, block: IpPrefix) -> Result<(), OutOfMemory>
    ensures { OnOk result (rows.new.entries ≡ put name block rows.old.entries) }
{
    let key = Block { prefix: block };
    if rows.contains_key(&key) {
        return Ok(());
    }
    match rows.insert(key, name) {
        Ok(_) => Ok(()),
        Err(_) => Err(OutOfMemory),
    }
}

/// Takes a block from a location. One that doesn't stand there changes nothing.
fn remove(rows: &mut BTreeMap<Block, Ident>, name: &Ident, block: IpPrefix)
    ensures { rows.new.entries ≡ removed name.now block rows.old.entries }
{
    if stands_at(rows, name, block) {
        rows.remove(&Block { prefix: block });
    }
}

/// Puts blocks under a location.
pub(crate) fn put_all(
    rows: &mut BTreeMap<Block, Ident>,
    name: Ident,
    blocks: &[IpPrefix],
) -> Result<(), OutOfMemory>
    ensures { OnOk result (rows.new.entries ≡ put_all name blocks.now rows.old.entries) }
{
    for block in blocks {
        put(rows, name, *block)?;
    }
    Ok(())
}

/// Takes blocks from a location.
fn remove_all(rows: &mut BTreeMap<Block, Ident>, name: &Ident, blocks: &[IpPrefix])
    ensures { rows.new.entries ≡ removed_all name.now blocks.now rows.old.entries }
{
    for block in blocks {
        remove(rows, name, *block);
    }
}

/// Whether one of these prefixes hasn't the length of a block.
pub(crate) fn has_bad_length(blocks: &[IpPrefix]) -> bool
    ensures { result ≡ has_bad_length blocks.now }
{
    for block in blocks {
        if !is_block(*block) {
            return true;
        }
    }
    false
}

/// Whether one of these blocks stands under another location.
fn is_any_elsewhere(rows: &BTreeMap<Block, Ident>, name: &Ident, blocks: &[IpPrefix]) -> bool
    ensures { result ≡ list_any (is_elsewhere name.now rows.now.entries) blocks.now }
{
    for block in blocks {
        if is_elsewhere(rows, name, *block) {
            return true;
        }
    }
    false
}

/// Whether a block that the change puts stands under another location.
pub(crate) fn has_block_in_use(rows: &BTreeMap<Block, Ident>, change: &CidrChange) -> bool
    ensures { result ≡ has_block_in_use change.now rows.now.entries }
{
    change.put && is_any_elsewhere(rows, &change.location, change.blocks.as_slice())
}

/// Does what a change says.
pub(crate) fn apply(
    rows: &mut BTreeMap<Block, Ident>,
    change: &CidrChange,
) -> Result<(), OutOfMemory>
    ensures { OnOk result (rows.new.entries ≡ changed change.now rows.old.entries) }
{
    if change.put {
        return put_all(rows, change.location, change.blocks.as_slice());
    }
    remove_all(rows, &change.location, change.blocks.as_slice());
    Ok(())
}
