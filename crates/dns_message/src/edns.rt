//! What an OPT record tells (RFC 6891, 6.1.3), read where it stands.

ghost use Rattle.std.specs.Prelude.{◌≡◌, ◌+◌, ◌≤◌, ◌/◌, ◌%◌, ◌==◌, List, ◌∷◌, [], length, take, IfSome, IfNone, Some, IsTrue, ◌↔◌};
ghost use Rattle.octets.specs.Numbers.{number_at, long_at};
ghost use Rattle.dns_message.specs.Edns.{AreOptions, EdnsOption};
ghost use Rattle.dns_message.specs.Records.{record_of};
ghost use Rattle.dns_message.specs.Walk.{HasSubnet, IsOptOf, Opt, SubnetRead, edns_of, opt_with};
ghost use Rattle.dns_message.specs.Walk.SubnetRead.{Faulty};

use crate::Edns;
use crate::options::{body_at, piece, subnet_among};
use crate::walked::Walked;
use ecs_option::ClientSubnet;
use octets::{long_at, number_at};

/// The octets of an OPT record in front of its data: the root's, and the fixed ones.
const HEAD_LEN: usize = 11;

/// Reads what the OPT record at the front tells beside its version, and says whether its first option
/// for the client's network is malformed. Data that aren't options tell nothing.
pub(crate) fn read_opt(octets: &[u8], edns: &mut Option<Edns>) -> Option<bool>
    requires whole { 11 + number_at octets.now 9 ≤ length octets.now }
    requires root { take 1 octets.now ≡ 0 ∷ [] }
    ensures some { IfSome result (λ malformed. (opt : Opt) × IsOptOf (record_of octets.now 1) opt
        × (edns.new ≡ Some (edns_of opt)) × (IsTrue malformed ↔ (opt.subnet ≡ Faulty))) }
    ensures none { IfNone result ((options : List EdnsOption)
        → AreOptions (record_of octets.now 1).rdata options → ⊥) }
{
    let data = piece(octets, HEAD_LEN, HEAD_LEN + number_at(octets, 9) as usize);
    match subnet_among(data) {
        Walked::Broken => return None,
        Walked::Plain => {
            *edns = Some(edns_with(octets, None));
            return Some(false);
        }
        Walked::At(at) => return Some(read_subnet(octets, body_at(data, at), edns)),
    }
}

/// Reads it with the client's network that an option's data tell, and says whether these are malformed.
fn read_subnet(octets: &[u8], body: &[u8], edns: &mut Option<Edns>) -> bool
    requires { 11 ≤ length octets.now }
    ensures { (subnet : SubnetRead) × HasSubnet (Some body.now) subnet
        × (edns.new ≡ Some (edns_of (opt_with octets.now subnet)))
        × (IsTrue result ↔ (subnet ≡ Faulty)) }
{
    match ecs_option::read(body) {
        Ok(subnet) => {
            *edns = Some(edns_with(octets, Some(subnet)));
            return false;
        }
        Err(_) => {
            *edns = Some(edns_with(octets, None));
            return true;
        }
    }
}

/// What it tells with this client's network.
fn edns_with(octets: &[u8], subnet: Option<ClientSubnet>) -> Edns
    requires { 11 ≤ length octets.now }
    ensures { result ≡ record {
      size = number_at octets.now 3;
      dnssec_ok = long_at octets.now 5 / 32768 % 2 == 1;
      subnet = subnet;
    } }
{
    Edns {
        size: number_at(octets, 3),
        dnssec_ok: long_at(octets, 5) / 32768 % 2 == 1,
        subnet,
    }
}

/// The version of EDNS.
pub(crate) fn version_of(octets: &[u8]) -> u32
    requires { 11 ≤ length octets.now }
    ensures { result ≡ long_at octets.now 5 / 65536 % 256 }
{
    long_at(octets, 5) / 65536 % 256
}
