//! The twelve octets in front of every reply (RFC 1035, 4.1.1).

ghost use Rattle.std.specs.Prelude.{◌≡◌, ◌<◌};
ghost use Rattle.dns_wire.specs.Header.{header_octets};

use octets::two_octets;

/// The fields of a reply's header (RFC 1035, 4.1.1). Z and RA are 0.
#[derive(Clone, Copy)]
pub(crate) struct Header {
    pub id: u16,
    pub opcode: u8,
    pub aa: bool,
    pub tc: bool,
    pub rd: bool,
    pub rcode: u8,
    pub qdcount: u16,
    pub ancount: u16,
    pub nscount: u16,
    pub arcount: u16,
}

impl Header {
    /// The header's octets.
    pub fn octets(&self) -> [u8; 12]
        requires { self.now.opcode < 16 }
        ensures { result ≡ header_octets self.now }
    {
        let id = two_octets(self.id);
        let qdcount = two_octets(self.qdcount);
        let ancount = two_octets(self.ancount);
        let nscount = two_octets(self.nscount);
        let arcount = two_octets(self.arcount);
        [
            id[0],
            id[1],
            128 + 8 * self.opcode
                + 4 * u8::from(self.aa)
                + 2 * u8::from(self.tc)
                + u8::from(self.rd),
            self.rcode,
            qdcount[0],
            qdcount[1],
            ancount[0],
            ancount[1],
            nscount[0],
            nscount[1],
            arcount[0],
            arcount[1],
        ]
    }
}
