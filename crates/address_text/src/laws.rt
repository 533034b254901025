//! Laws over the definitions, each the contract of a function that does nothing.

ghost use Rattle.address_text.specs.Laws.{Ipv4OfText, Ipv6OfText, OneIpv4OfAText, OneIpv6OfAText, WrittenIpv4ReadsBack, WrittenIpv6ReadsBack};

/// A text spells one IPv4 address at most.
pub fn one_ipv4_of_a_text()
    ensures { OneIpv4OfAText }
{}

/// A text spells one IPv6 address at most.
pub fn one_ipv6_of_a_text()
    ensures { OneIpv6OfAText }
{}

/// The text written of an IPv4 address spells that address.
pub fn written_ipv4_reads_back()
    ensures { WrittenIpv4ReadsBack }
{}

/// The text written of an IPv6 address spells that address.
pub fn written_ipv6_reads_back()
    ensures { WrittenIpv6ReadsBack }
{}

/// The function `ipv4_of` gives the IPv4 address that a text spells.
pub fn ipv4_of_text()
    ensures { Ipv4OfText }
{}

/// The function `ipv6_of` gives the IPv6 address that a text spells.
pub fn ipv6_of_text()
    ensures { Ipv6OfText }
{}
