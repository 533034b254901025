//! What the definitions come to. Each law is the contract of a function that does nothing.

ghost use Rattle.answer_model.specs.Laws.{AskedGroups, CutsAreNearest, EnclosersAreClosest};
ghost use Rattle.answer_model.specs.Laws.{FewChoices, LocatesAsTold, NamesBelow, NamesExist};
ghost use Rattle.answer_model.specs.Laws.{NoReply, OneReply, RcodesOfSections, ToldOnce};
ghost use Rattle.answer_model.specs.Laws.{ToldOnceIn, ZonesAreLongest};

use cidr_blocks::{Ident, one_row_found};
use dns_wire::one_judgement;

/// A packet has one reply, given what is served, who asks, and the words.
pub fn one_reply()
    ensures one { OneReply }
    ensures none { NoReply }
{
    one_judgement();
}

/// Names below a name, and names that exist.
pub fn names_exist()
    ensures below { NamesBelow }
    ensures exist { NamesExist }
{}

/// The closest encloser of a name is its longest ancestor that exists.
pub fn enclosers_are_closest()
    ensures { EnclosersAreClosest }
{}

/// A name is looked up in the zone of the longest name that holds it.
pub fn zones_are_longest()
    ensures { ZonesAreLongest }
{}

/// A referral is from the zone cut nearest the apex.
pub fn cuts_are_nearest()
    ensures { CutsAreNearest }
{}

/// The sets of QTYPE are a group.
pub fn asked_groups()
    ensures { AskedGroups }
{}

/// An address is located by the longest row that contains it.
pub fn locates_as_told<V>()
    ensures located { LocatesAsTold V }
    ensures once { ToldOnce V }
{
    one_row_found::<V>();
}

/// So it is in a collection of address blocks.
pub fn told_in_collections()
    ensures { ToldOnceIn }
{
    locates_as_told::<Ident>();
}

/// From a group to the sets that answer there are at most 17 choices.
pub fn few_choices()
    ensures { FewChoices }
{}

/// RCODE of an answer from a zone is 0 or NXDOMAIN.
pub fn rcodes_of_sections()
    ensures { RcodesOfSections }
{}
