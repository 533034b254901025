//! Commands on collections as octets.

ghost use Rattle.std.specs.Prelude.{◌≡◌, ◌<◌, ◌^◌, ◌∷◌, [], ◌++◌, length, OnOk};
ghost use Rattle.std.specs.List.{AllByRecursion, flat_map};
ghost use Rattle.octet_reading.specs.Rules.{list_octets, text_octets};
ghost use Rattle.block_octets.specs.Octets.{block_octets, change_octets, put_number, kind_of};
ghost use Rattle.block_octets.specs.Octets.{field_octets, HasFewBlocks, HasSpelling};

use cidr_commands::{CidrChange, CidrCommand, Ident, IpAddress, IpPrefix};
use octets::{OutOfMemory, append, four_octets, two_octets};

/// Appends the kind of a command and its fields.
pub fn write_cidr_command(command: &CidrCommand, into: &mut Vec<u8>) -> Result<(), OutOfMemory>
    requires { HasSpelling command.now }
    ensures { OnOk result (into.new.items
        ≡ into.old.items ++ kind_of command.now ∷ field_octets command.now) }
{
    match command {
        CidrCommand::Create(name) => {
            append(&[7], into)?;
            write_name(name, into)
        }
        CidrCommand::Change { id, changes } => {
            append(&[8], into)?;
            append(&four_octets(*id), into)?;
            append_list(changes.as_slice(), into)
        }
        CidrCommand::Delete(id) => {
            append(&[9], into)?;
            append(&four_octets(*id), into)
        }
    }
}

/// Appends a name behind its length.
pub fn write_name(name: &Ident, into: &mut Vec<u8>) -> Result<(), OutOfMemory>
    ensures { OnOk result (into.new.items ≡ into.old.items ++ text_octets name.now) }
{
    let bytes = name.bytes();
    append(&[bytes.len() as u8], into)?;
    append(bytes, into)
}

/// Appends the number of changes, and these.
fn append_list(changes: &[CidrChange], into: &mut Vec<u8>) -> Result<(), OutOfMemory>
    requires { (length changes.now < 2 ^ 16) × AllByRecursion HasFewBlocks changes.now }
    ensures { OnOk result (into.new.items
        ≡ into.old.items ++ list_octets change_octets changes.now) }
{
    append(&two_octets(changes.len() as u16), into)?;
    append_changes(changes, into)
}

/// Appends changes one behind another.
fn append_changes(changes: &[CidrChange], into: &mut Vec<u8>) -> Result<(), OutOfMemory>
    requires { AllByRecursion HasFewBlocks changes.now }
    ensures { OnOk result (into.new.items ≡ into.old.items ++ flat_map change_octets changes.now) }
{
    for change in changes {
        if let Err(OutOfMemory) = append_change(change, into) {
            return Err(OutOfMemory);
        }
    }
    Ok(())
}

/// Appends a change.
fn append_change(change: &CidrChange, into: &mut Vec<u8>) -> Result<(), OutOfMemory>
    requires { HasFewBlocks change.now }
    ensures { OnOk result (into.new.items ≡ into.old.items ++ change_octets change.now) }
{
    append(&[put_number(change.put)], into)?;
    write_name(&change.location, into)?;
    write_blocks(change.blocks.as_slice(), into)
}

/// The number of what a change does.
fn put_number(put: bool) -> u8
    ensures { result ≡ put_number put }
{
    if put { 1 } else { 2 }
}

/// Appends the number of blocks, and these.
pub fn write_blocks(blocks: &[IpPrefix], into: &mut Vec<u8>) -> Result<(), OutOfMemory>
    requires { length blocks.now < 2 ^ 16 }
    ensures { OnOk result (into.new.items
        ≡ into.old.items ++ list_octets block_octets blocks.now) }
{
    append(&two_octets(blocks.len() as u16), into)?;
    append_blocks(blocks, into)
}

/// Appends blocks one behind another.
fn append_blocks(blocks: &[IpPrefix], into: &mut Vec<u8>) -> Result<(), OutOfMemory>
    ensures { OnOk result (into.new.items ≡ into.old.items ++ flat_map block_octets blocks.now) }
{
    for block in blocks {
        if let Err(OutOfMemory) = append_block(block, into) {
            return Err(OutOfMemory);
        }
    }
    Ok(())
}

/// Appends a block.
fn append_block(block: &IpPrefix, into: &mut Vec<u8>) -> Result<(), OutOfMemory>
    ensures { OnOk result (into.new.items ≡ into.old.items ++ block_octets block.now) }
{
    match block.address() {
        IpAddress::V4(octets) => {
            append(&[4], into)?;
            append(&octets, into)?;
        }
        IpAddress::V6(octets) => {
            append(&[6], into)?;
            append(&octets, into)?;
        }
    }
    append(&[block.length()], into)
}
