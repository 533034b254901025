//! The option of a reply: what the query told, with the server's scope (RFC 7871, 7.2.1).

ghost use Rattle.std.specs.Prelude.{◌≡◌, ◌++◌, length, drop};
ghost use Rattle.ecs_option.specs.Grammar.{octets_for};
ghost use Rattle.ecs_option.specs.Writing.{IsSubnet, option_of};

use crate::ClientSubnet;
use octets::{front, put_at, two_octets};

impl ClientSubnet {
    /// Writes the option, its code and length included, with this scope. The answer is how many
    /// octets it takes.
    pub fn write(&self, scope: u8, into: &mut [u8; 24]) -> usize
        requires { IsSubnet self.now }
        ensures length { result ≡ length (option_of self.now scope) }
        ensures written { into.new ≡ option_of self.now scope ++ drop result into.old }
    {
        let used = octets_for(self.source);
        let length = two_octets(4 + used as u16);
        let family = two_octets(self.family);
        let head = [
            0,
            OPTION_CODE,
            length[0],
            length[1],
            family[0],
            family[1],
            self.source,
            scope,
        ];
        put_at(into, 0, &head);
        put_at(into, 8, front(&self.address, used));
        8 + used
    }
}

/// The code of the option (RFC 7871, 6).
const OPTION_CODE: u8 = 8;

/// How many octets cover so many bits.
fn octets_for(bits: u8) -> usize
    ensures { result ≡ octets_for bits }
{
    (usize::from(bits) + 7) / 8
}
