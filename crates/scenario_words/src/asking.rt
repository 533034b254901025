//! Queries in words.
//!
//! `www.example.com A from 198.51.100.7 words 3,0` asks for the addresses of a name, from an address,
//! with the first random words that choices take. An OPT record goes with it where one of these
//! stands: `udp 4096`, `version 1`, `dnssec`, `subnet 198.51.100.0/24`.

ghost use Rattle.std.specs.Prelude.{◌≡◌, Ok, IfSome};
ghost use Rattle.dns_name.specs.Text.{name_of_text};
ghost use Rattle.prefix_text.specs.Prefixes.{plain_number};
ghost use Rattle.scenario_words.specs.Asking.{AsksSame, IsType};
ghost use Rattle.scenario_words.specs.Parting.{before, behind};

use crate::lines::parted;
use address_text::IpAddress;
use dns_name::Name;
use ip_table::IpPrefix;
use prefix_text::{read_address, read_number, read_prefix};
use rdata_layout::RType;

/// The address from which queries come that don't say.
const ANYBODY: IpAddress = IpAddress::V4([203, 0, 113, 1]);

/// A query: what is asked, by whom, and the random words with which it is answered.
#[derive(Clone, Copy)]
pub struct Query {
    /// The name that is asked for.
    pub name: Name,
    /// The number of the type.
    pub qtype: u16,
    /// Who asks.
    pub from: IpAddress,
    /// The random words.
    pub words: [u64; 8],
    /// The OPT record.
    pub opt: Option<Opt>,
}

/// What an OPT record tells (RFC 6891, 6.1; RFC 7871, 6).
#[derive(Clone, Copy)]
pub struct Opt {
    /// The size of replies that it takes.
    pub size: u16,
    /// The version of EDNS.
    pub version: u8,
    /// Whether it takes DNSSEC.
    pub dnssec: bool,
    /// The subnet of the client.
    pub subnet: Option<IpPrefix>,
}

/// The OPT record that tells nothing but a size.
const PLAIN: Opt = Opt {
    size: 1232,
    version: 0,
    dnssec: false,
    subnet: None,
};

/// The query of a text, where it is of the form.
pub fn read_query(text: &[u8]) -> Option<Query>
    ensures name { IfSome result (λ query. name_of_text (before 0x20 text.now) ≡ Ok query.name) }
    ensures qtype { IfSome result
        (λ query. IsType (before 0x20 (behind 0x20 text.now)) query.qtype) }
{
    let (owner, behind_owner) = parted(text, b' ');
    let (qtype, rest) = parted(behind_owner, b' ');
    let Ok(name) = Name::from_text(owner) else {
        return None;
    };
    let Some(qtype) = type_of(qtype) else {
        return None;
    };
    let mut query = Query {
        name,
        qtype,
        from: ANYBODY,
        words: [0; 8],
        opt: None,
    };
    if !take_options(rest, &mut query) {
        return None;
    }
    Some(query)
}

/// The number of a type: of one that sets have, or of any as in `TYPE65280` (RFC 3597, 5).
fn type_of(text: &[u8]) -> Option<u16>
    ensures { IfSome result (λ number. IsType text.now number) }
{
    if let Some(rtype) = RType::from_text(text) {
        return Some(rtype.number());
    }
    let Some(digits) = text.strip_prefix(b"TYPE") else {
        return None;
    };
    number_of(digits)
}

/// A number of 16 bits.
fn number_of(digits: &[u8]) -> Option<u16>
    ensures { result ≡ plain_number 65535 digits.now }
{
    match read_number(digits, 65_535) {
        Some(number) => Some(number as u16),
        None => None,
    }
}

/// Takes the words behind a question, and tells whether they are of the form.
fn take_options(text: &[u8], query: &mut Query) -> bool
    ensures { AsksSame query.old query.new }
{
    let mut rest = text;
    'words: for _ in 0..text.len() {
        if rest.is_empty() {
            break;
        }
        let (word, behind_word) = parted(rest, b' ');
        if word == b"dnssec".as_slice() {
            take_dnssec(query);
            rest = behind_word;
            continue;
        }
        let (value, behind_value) = parted(behind_word, b' ');
        if !take_option(word, value, query) {
            return false;
        }
        rest = behind_value;
    }
    true
}

/// The OPT record of a query, or a plain one.
fn opt_of(query: &Query) -> Opt {
    query.opt.unwrap_or(PLAIN)
}

/// Takes the word `dnssec`.
fn take_dnssec(query: &mut Query)
    ensures { AsksSame query.old query.new }
{
    let mut opt = opt_of(query);
    opt.dnssec = true;
    query.opt = Some(opt);
}

/// Takes an option that has a value, and tells whether it is one.
fn take_option(word: &[u8], value: &[u8], query: &mut Query) -> bool
    ensures { AsksSame query.old query.new }
{
    match word {
        b"from" => take_from(value, query),
        b"words" => take_words(value, query),
        _ => take_edns(word, value, query),
    }
}

/// Takes who asks.
fn take_from(value: &[u8], query: &mut Query) -> bool
    ensures { AsksSame query.old query.new }
{
    let Some(address) = read_address(value) else {
        return false;
    };
    query.from = address;
    true
}

/// Takes the random words.
fn take_words(value: &[u8], query: &mut Query) -> bool
    ensures { AsksSame query.old query.new }
{
    let Some(words) = words_of(value) else {
        return false;
    };
    query.words = words;
    true
}

/// Takes an option of EDNS.
fn take_edns(word: &[u8], value: &[u8], query: &mut Query) -> bool
    ensures { AsksSame query.old query.new }
{
    let mut opt = opt_of(query);
    let taken = match word {
        b"udp" => take_size(value, &mut opt),
        b"version" => take_version(value, &mut opt),
        b"subnet" => take_subnet(value, &mut opt),
        _ => false,
    };
    query.opt = Some(opt);
    taken
}

/// Takes a size.
fn take_size(value: &[u8], opt: &mut Opt) -> bool {
    let Some(size) = number_of(value) else {
        return false;
    };
    opt.size = size;
    true
}

/// Takes a version.
fn take_version(value: &[u8], opt: &mut Opt) -> bool {
    let Some(version) = read_number(value, 255) else {
        return false;
    };
    opt.version = version as u8;
    true
}

/// Takes a subnet.
fn take_subnet(value: &[u8], opt: &mut Opt) -> bool {
    let Some(prefix) = read_prefix(value) else {
        return false;
    };
    opt.subnet = Some(prefix);
    true
}

/// The words, of which those that aren't given are 0.
fn words_of(text: &[u8]) -> Option<[u64; 8]> {
    let mut words = [0; 8];
    let mut rest = text;
    for i in 0..8 {
        if rest.is_empty() {
            break;
        }
        let (digits, behind) = parted(rest, b',');
        match read_number(digits, u32::MAX) {
            Some(word) => words[i] = u64::from(word),
            None => return None,
        }
        rest = behind;
    }
    Some(words)
}
