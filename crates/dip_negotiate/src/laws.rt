ghost use Rattle.dip_negotiate.specs.DemandsLaw.{DemandRefusalLaw, DemandedPortLaw};
ghost use Rattle.dip_negotiate.specs.Negotiation.{NegotiationLaw};

/// What the passes mean, for all rules and each design without a cycle whose binds name nodes, with edges
/// that these binds make.
///
/// Where a pass ends, each edge's equation holds of its ports, and of no others. Where it doesn't, it names
/// the first edge in its order whose port is refused.
pub fn negotiation_law()
    ensures { NegotiationLaw }
{}

/// What the answers of demands mean: where there is a solution, a port that is answered is the solution's; of
/// the ports on which one depends there is one first refusal at most, and then no port is answered.
pub fn demand_law()
    ensures port { DemandedPortLaw }
    ensures refusal { DemandRefusalLaw }
{}
