//! Laws over the definitions, each the contract of a function that does nothing.

ghost use Rattle.line_bounds.specs.Laws.{LinesAreBounded, ReadCountsAreSome, ReadLinesAreBounded};
ghost use Rattle.line_bounds.specs.Laws.{ReadListsAreAsked, TextsArePrefixes, TextsAreValues};

/// The octets that a text gives are in the layout of the type.
pub fn texts_are_values()
    ensures { TextsAreValues }
{
    field_text::spelled_is_field();
    value_text::fields_go_on();
    rdata::value_of_text();
}

/// The prefix that a text gives is one of an address.
pub fn texts_are_prefixes()
    ensures { TextsArePrefixes }
{
    address_text::ipv4_of_text();
    address_text::ipv6_of_text();
}

/// The command that a JSON value gives is within its bounds.
pub fn lines_are_bounded()
    ensures { LinesAreBounded }
{
    dns_name::texts_read_as_names();
    texts_are_values();
    texts_are_prefixes();
}

/// The command that was read of octets is within its bounds.
pub fn read_lines_are_bounded()
    ensures { ReadLinesAreBounded }
{
    lines_are_bounded();
}

/// The list that was read of octets starts where a list may, and gives 1 to 300 sets.
pub fn read_lists_are_asked()
    ensures { ReadListsAreAsked }
{
    dns_name::texts_read_as_names();
    texts_are_values();
    texts_are_prefixes();
}

/// The count that was read of octets is 1 to 1,000,000.
pub fn read_counts_are_some()
    ensures { ReadCountsAreSome }
{
    dns_name::texts_read_as_names();
    texts_are_values();
    texts_are_prefixes();
}
