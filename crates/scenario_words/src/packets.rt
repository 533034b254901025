//! The packet of a query: id 1234, RD and class IN, one question, and an OPT record where there is one.

ghost use Rattle.std.specs.Prelude.{◌≡◌, ◌+◌, ◌*◌, ◌≤◌, ◌++◌, IfOk, OnOk, length};
ghost use Rattle.scenario_words.specs.Packets.{flags, header, octets_for, opt_record, options};
ghost use Rattle.scenario_words.specs.Packets.{packet, question, subnet_of, subnet_option};

use crate::asking::{Opt, Query};
use address_text::IpAddress;
use dns_name::Name;
use ip_table::IpPrefix;
use octets::{OutOfMemory, append, front, two_octets};
use std::alloc::Global;

/// The packet of a query.
pub fn packet_of(alloc: Global, query: &Query) -> Result<Vec<u8>, OutOfMemory>
    ensures { IfOk result (λ octets. octets.items ≡ packet query.now) }
{
    let mut octets = Vec::new(alloc);
    match &query.opt {
        Some(opt) => {
            put_header(1, &mut octets)?;
            put_question(&query.name, query.qtype, &mut octets)?;
            put_opt(alloc, opt, &mut octets)?;
        }
        None => {
            put_header(0, &mut octets)?;
            put_question(&query.name, query.qtype, &mut octets)?;
        }
    }
    Ok(octets)
}

/// Appends the header, with so many additional records.
fn put_header(additional: u8, into: &mut Vec<u8>) -> Result<(), OutOfMemory>
    ensures { OnOk result (into.new.items ≡ into.old.items ++ header additional) }
{
    append(&[0x12, 0x34, 1, 0, 0, 1, 0, 0, 0, 0, 0, additional], into)
}

/// Appends the question.
fn put_question(name: &Name, qtype: u16, into: &mut Vec<u8>) -> Result<(), OutOfMemory>
    ensures { OnOk result (into.new.items ≡ into.old.items ++ question name.now qtype) }
{
    append(name.octets(), into)?;
    append(&two_octets(qtype), into)?;
    append(&[0, 1], into)
}

/// Appends the OPT record.
fn put_opt(alloc: Global, opt: &Opt, into: &mut Vec<u8>) -> Result<(), OutOfMemory>
    ensures { OnOk result (into.new.items ≡ into.old.items ++ opt_record opt.now) }
{
    let data = options_of(alloc, &opt.subnet)?;
    append(&[0, 0, 41], into)?;
    append(&two_octets(opt.size), into)?;
    append(
        &[0, opt.version, flags_of(opt.dnssec), 0, 0, data.len() as u8],
        into,
    )?;
    append(&data, into)
}

/// The octet of the flags that has DO.
fn flags_of(dnssec: bool) -> u8
    ensures { result ≡ flags dnssec }
{
    if dnssec { 0x80 } else { 0 }
}

/// The options of an OPT record.
fn options_of(alloc: Global, subnet: &Option<IpPrefix>) -> Result<Vec<u8>, OutOfMemory>
    ensures value { IfOk result (λ octets. octets.items ≡ options subnet.now) }
    ensures short { IfOk result (λ octets. length octets.items ≤ 24) }
{
    let mut octets = Vec::new(alloc);
    match subnet {
        Some(prefix) => {
            put_subnet(prefix, &mut octets)?;
            Ok(octets)
        }
        None => Ok(octets),
    }
}

/// Appends the client subnet option of a prefix, which has at most 24 octets.
fn put_subnet(prefix: &IpPrefix, into: &mut Vec<u8>) -> Result<(), OutOfMemory>
    ensures value { OnOk result
        (into.new.items ≡ into.old.items ++ subnet_of prefix.now.address prefix.now.length) }
    ensures short { OnOk result (length into.new.items ≤ length into.old.items + 24) }
{
    match prefix.address() {
        IpAddress::V4(octets) => put_family(1, prefix.length(), &octets, into),
        IpAddress::V6(octets) => put_family(2, prefix.length(), &octets, into),
    }
}

/// Appends the option of a family, with the octets that hold the bits that count.
fn put_family(family: u8, bits: u8, octets: &[u8], into: &mut Vec<u8>) -> Result<(), OutOfMemory>
    requires bits { bits ≤ 8 * length octets.now }
    requires within { bits ≤ 128 }
    ensures value { OnOk result
        (into.new.items ≡ into.old.items ++ subnet_option family bits octets.now) }
    ensures short { OnOk result (length into.new.items ≤ length into.old.items + 24) }
{
    let count = octets_for(bits);
    append(&[0, 8, 0, 4 + count, 0, family, bits, 0], into)?;
    append(front(octets, count as usize), into)
}

/// How many octets hold so many bits.
fn octets_for(bits: u8) -> u8
    requires { bits ≤ 128 }
    ensures value { result ≡ octets_for bits }
    ensures most { result ≤ 16 }
{
    (bits + 7) / 8
}
