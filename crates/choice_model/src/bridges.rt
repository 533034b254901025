//! What is chosen of a group, policy by policy. Each law is the contract of a function that does nothing.

ghost use Rattle.choice_model.specs.Bridges.{SimpleChoice, WeightedChoice, FailoverChoice};
ghost use Rattle.choice_model.specs.Bridges.{GeolocationChoice, LatencyChoice, MultivalueChoice};
ghost use Rattle.choice_model.specs.Bridges.{CidrChoice, PoliciesOfGroups};

/// Of simple sets the one that is there is chosen.
pub fn simple_choice()
    ensures { SimpleChoice }
{}

/// Of weighted sets that of `weighted::choose` is.
pub fn weighted_choice()
    ensures { WeightedChoice }
{}

/// Of failover sets that of `failover::choose` is.
pub fn failover_choice()
    ensures { FailoverChoice }
{}

/// Of geolocation sets that of `geo_latency::choose_place` is, and none where it gives none.
pub fn geolocation_choice()
    ensures { GeolocationChoice }
{}

/// Of latency sets that of `geo_latency::choose_region` is.
pub fn latency_choice()
    ensures { LatencyChoice }
{}

/// Of multivalue answer sets those of `multivalue::choose` are.
pub fn multivalue_choice()
    ensures { MultivalueChoice }
{}

/// Of sets of IP-based routing that of `cidr_routing::choose_block` is, and none where it gives none.
pub fn cidr_choice()
    ensures { CidrChoice }
{}

/// A group of which each set has a policy has that policy.
pub fn policies_of_groups()
    ensures { PoliciesOfGroups }
{}
