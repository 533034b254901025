//! The types of records, with their numbers and texts.

ghost use Rattle.std.specs.Prelude.{◌≡◌, ◌≢◌, IfSome, IfNone};
ghost use Rattle.rdata_layout.specs.Types.{number_of, text_of};

/// A type of records that a zone may have.
#[derive(Clone, Copy, Debug, PartialEq, Eq)]
pub enum RType {
    /// An IPv4 address (RFC 1035, 3.4.1).
    A,
    /// A name server (RFC 1035, 3.3.11).
    Ns,
    /// A canonical name (RFC 1035, 3.3.1).
    Cname,
    /// The start of a zone of authority (RFC 1035, 3.3.13).
    Soa,
    /// A pointer to a name (RFC 1035, 3.3.12).
    Ptr,
    /// A mail exchange (RFC 1035, 3.3.9).
    Mx,
    /// Strings of text (RFC 1035, 3.3.14).
    Txt,
    /// An IPv6 address (RFC 3596, 2.1).
    Aaaa,
    /// The place of a service (RFC 2782).
    Srv,
    /// Strings of a sender policy (RFC 4408, 3.1.1).
    Spf,
    /// Who may issue certificates (RFC 8659, 4.1).
    Caa,
}

impl RType {
    /// The type's number (RFC 1035, 3.2.2).
    pub fn number(self) -> u16
        ensures { result ≡ number_of self }
    {
        match self {
            RType::A => 1,
            RType::Ns => 2,
            RType::Cname => 5,
            RType::Soa => 6,
            RType::Ptr => 12,
            RType::Mx => 15,
            RType::Txt => 16,
            RType::Aaaa => 28,
            RType::Srv => 33,
            RType::Spf => 99,
            RType::Caa => 257,
        }
    }

    /// The type of a number.
    pub fn from_number(n: u16) -> Option<RType>
        ensures some { IfSome result (λ rtype. number_of rtype ≡ n) }
        ensures none { IfNone result ((rtype : RType) → number_of rtype ≢ n) }
    {
        match n {
            1 => Some(RType::A),
            2 => Some(RType::Ns),
            5 => Some(RType::Cname),
            6 => Some(RType::Soa),
            12 => Some(RType::Ptr),
            15 => Some(RType::Mx),
            16 => Some(RType::Txt),
            28 => Some(RType::Aaaa),
            33 => Some(RType::Srv),
            99 => Some(RType::Spf),
            257 => Some(RType::Caa),
            _ => None,
        }
    }

    /// The type's text, in capital letters.
    pub fn text(self) -> &'static [u8]
        ensures { result.now ≡ text_of self }
    {
        match self {
            RType::A => b"A",
            RType::Ns => b"NS",
            RType::Cname => b"CNAME",
            RType::Soa => b"SOA",
            RType::Ptr => b"PTR",
            RType::Mx => b"MX",
            RType::Txt => b"TXT",
            RType::Aaaa => b"AAAA",
            RType::Srv => b"SRV",
            RType::Spf => b"SPF",
            RType::Caa => b"CAA",
        }
    }

    /// The type of a text in capital letters.
    pub fn from_text(text: &[u8]) -> Option<RType>
        ensures some { IfSome result (λ rtype. text_of rtype ≡ text.now) }
        ensures none { IfNone result ((rtype : RType) → text_of rtype ≢ text.now) }
    {
        match text {
            b"A" => Some(RType::A),
            b"NS" => Some(RType::Ns),
            b"CNAME" => Some(RType::Cname),
            b"SOA" => Some(RType::Soa),
            b"PTR" => Some(RType::Ptr),
            b"MX" => Some(RType::Mx),
            b"TXT" => Some(RType::Txt),
            b"AAAA" => Some(RType::Aaaa),
            b"SRV" => Some(RType::Srv),
            b"SPF" => Some(RType::Spf),
            b"CAA" => Some(RType::Caa),
            _ => None,
        }
    }
}
