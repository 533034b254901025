//! The control line of a packet, and the packet in the reply line.

ghost use Rattle.std.specs.Prelude.{◌≡◌, ◌++◌, Ok, IfOk, OnOk, decimal, length, option_map};
ghost use Rattle.std.specs.List.{flat_map};
ghost use Rattle.std.specs.Net.Text.{ipv4_text};
ghost use Rattle.address_text.specs.Spelling.{colon_hex};
ghost use Rattle.hex.specs.Hex.{decode_of, encode_lower};
ghost use Rattle.scenario_words.specs.Control.{TellsReply, address_text, behind_comma};
ghost use Rattle.scenario_words.specs.Control.{numbers_text, query_line};

use crate::fault::Fault;
use crate::lines::put_number;
use address_text::{IpAddress, write_ipv4, write_ipv6};
use hex::FromHexError;
use octets::{OutOfMemory, append, front};
use std::alloc::Global;

/// The Query line of a packet from an address, with its random words.
pub fn query_line(
    alloc: Global,
    packet: &[u8],
    from: IpAddress,
    words: &[u64; 8],
) -> Result<Vec<u8>, OutOfMemory>
    ensures { IfOk result (λ line. line.items ≡ query_line packet.now from words.now) }
{
    let mut line = Vec::new(alloc);
    append(b"{\"Query\":{\"Packet\":\"", &mut line)?;
    put_hex(alloc, packet, &mut line)?;
    append(b"\",\"Address\":\"", &mut line)?;
    put_ip_address(from, &mut line)?;
    append(b"\",\"Words\":[", &mut line)?;
    put_numbers(words.as_slice(), &mut line)?;
    append(b"]}}", &mut line)?;
    Ok(line)
}

/// Appends octets as hexadecimal digits.
pub fn put_hex(alloc: Global, octets: &[u8], into: &mut Vec<u8>) -> Result<(), OutOfMemory>
    ensures { OnOk result (into.new.items ≡ into.old.items ++ encode_lower octets.now) }
{
    let digits = hex::encode(alloc, octets)?;
    append(digits.as_bytes(), into)
}

/// Appends an address of either version.
fn put_ip_address(address: IpAddress, into: &mut Vec<u8>) -> Result<(), OutOfMemory>
    ensures { OnOk result (into.new.items ≡ into.old.items ++ address_text address) }
{
    match address {
        IpAddress::V4(octets) => put_ipv4(&octets, into),
        IpAddress::V6(octets) => put_ipv6(&octets, into),
    }
}

/// Appends an IPv4 address.
fn put_ipv4(octets: &[u8], into: &mut Vec<u8>) -> Result<(), OutOfMemory>
    requires { length octets.now ≡ 4 }
    ensures { OnOk result (into.new.items ≡ into.old.items ++ ipv4_text octets.now) }
{
    let mut text = [0; 15];
    let end = write_ipv4(octets, &mut text, 0);
    append(front(&text, end), into)
}

/// Appends an IPv6 address.
fn put_ipv6(octets: &[u8], into: &mut Vec<u8>) -> Result<(), OutOfMemory>
    requires { length octets.now ≡ 16 }
    ensures { OnOk result (into.new.items ≡ into.old.items ++ colon_hex octets.now) }
{
    let mut text = [0; 39];
    let end = write_ipv6(octets, &mut text, 0);
    append(front(&text, end), into)
}

/// Appends numbers with commas between.
fn put_numbers(numbers: &[u64], into: &mut Vec<u8>) -> Result<(), OutOfMemory>
    ensures { OnOk result (into.new.items ≡ into.old.items ++ numbers_text numbers.now) }
{
    match numbers {
        [] => Ok(()),
        [first, more @ ..] => {
            put_number(*first, into)?;
            put_more(more, into)
        }
    }
}

/// Appends numbers, each behind a comma.
fn put_more(numbers: &[u64], into: &mut Vec<u8>) -> Result<(), OutOfMemory>
    ensures { OnOk result
        (into.new.items ≡ into.old.items ++ flat_map behind_comma numbers.now) }
{
    for number in numbers {
        append(b",", into)?;
        put_number(*number, into)?;
    }
    Ok(())
}

/// The packet in the reply to a Query line, if there is one.
pub fn reply_packet(alloc: Global, line: &[u8]) -> Result<Option<Vec<u8>>, Fault>
    ensures { IfOk result (λ told. TellsReply line.now (option_map (λ packet. packet.items) told)) }
{
    if line == b"{\"Ok\":\"Query\",\"Reply\":null}".as_slice() {
        return Ok(None);
    }
    let Some(behind) = line.strip_prefix(b"{\"Ok\":\"Query\",\"Reply\":\"") else {
        return Err(Fault::NoMessage);
    };
    let Some(digits) = behind.strip_suffix(b"\"}") else {
        return Err(Fault::NoMessage);
    };
    let packet = read_hex(alloc, digits)?;
    Ok(Some(packet))
}

/// The octets of hexadecimal digits.
pub fn read_hex(alloc: Global, digits: &[u8]) -> Result<Vec<u8>, Fault>
    ensures { IfOk result (λ octets. decode_of digits.now ≡ Ok octets.items) }
{
    match hex::decode(alloc, digits) {
        Ok(octets) => Ok(octets),
        Err(FromHexError::OutOfMemory) => Err(Fault::OutOfMemory),
        Err(_) => Err(Fault::NoSuchForm),
    }
}
