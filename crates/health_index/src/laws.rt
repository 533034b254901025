//! Laws over the definitions. Each stands as the contract of a function that does nothing.

ghost use Rattle.health_index.specs.Laws.{AliasesCanCome, AliasesCanLeave, AliasesHaveRoom, ChecksAreLater};
ghost use Rattle.health_index.specs.Laws.{ChecksCanFollow, CommandsCanFollow, NodesAreNumbered, NodesHaveValues};
ghost use Rattle.health_index.specs.Laws.{FirstCanCome, FirstOwnedCanCome, IndexTells, LastCanLeave, SetsCanJoin, SetsCanLeave};
ghost use Rattle.health_index.specs.Laws.{StandsWhereAllMeet};

use health_model::one_health;
use health_planning::views_agree;

/// An index tells the health of that for which it stands.
pub fn index_tells_health()
    ensures { IndexTells }
{
    one_health();
    views_agree();
}

/// A command on checks keeps the thresholds of endpoints, and gives no number twice.
pub fn checks_are_later()
    ensures { ChecksAreLater }
{}

/// Each number is that of one node alone. Checks have one each, sets that something decides, and
/// groups to which evaluated aliases lead, and no others.
pub fn nodes_are_numbered()
    ensures { NodesAreNumbered }
{}

/// The values of nodes are those of their numbers, and an index stands where by these each node meets its
/// local equation.
pub fn nodes_have_values()
    ensures values { NodesHaveValues }
    ensures stands { StandsWhereAllMeet }
{
    views_agree();
}

/// Where no calculated check comes, goes or gets other children, checks follow in place of those for which an
/// index stands, by each way in which they do. So it is after each command on the check of an endpoint, and
/// after one that leaves a calculated check its children.
pub fn checks_can_follow()
    ensures checks { ChecksCanFollow }
    ensures commands { CommandsCanFollow }
{}

/// Where an index stands for zones, and one set that nothing decides goes from the target group of an
/// evaluated alias by an edit, or comes into one, the index has what it wants to count it in place.
pub fn sets_can_regroup()
    ensures leave { SetsCanLeave }
    ensures join { SetsCanJoin }
{}

/// Where an index stands for zones, and an evaluated alias goes by an edit, of a group to which none leads,
/// while another one leads to its target group, the index has what it wants to leave its valve vacant.
pub fn aliases_can_leave()
    ensures { AliasesCanLeave }
{}

/// Where an index stands for zones, and an evaluated alias goes by an edit, of a group to which none leads, and none
/// leads to its target group any more, the index has what it wants to leave both valves vacant.
pub fn last_can_leave()
    ensures { LastCanLeave }
{}

/// Where an index stands for zones, and an evaluated alias comes by an edit, of a group to which none leads, while
/// another one leads to its target group, the index has what it wants to give it a valve in place.
pub fn aliases_can_come()
    ensures { AliasesCanCome }
{}

/// Where an index stands for zones, and an evaluated alias comes by an edit, of a group to which none leads, and none
/// leads where it leads, and nothing decides any set there, the index has what it wants to give both a valve in place.
pub fn first_can_come()
    ensures { FirstCanCome }
{}

/// The same, where each set of the target group has a valve of its own, or nothing decides it.
pub fn first_owned_can_come()
    ensures { FirstOwnedCanCome }
{}

/// Where all was laid out at once, as `rebuild` does and `on_command` where nothing else is said of it, and an index has
/// room over all slots, it has what it wants to note or to list one set more, and to give it a valve, and its target group
/// one too.
pub fn aliases_have_room()
    ensures { AliasesHaveRoom }
{}
