ghost use Rattle.dip_stars.specs.Filled.{EachHasItsEdges, EachHasItsPorts};
ghost use Rattle.dip_stars.specs.Follows.{EachFollowsItsBind, EachTakesTheNextPorts};

/// Each edge joins the nodes of the bind that makes it, at the next out port of the one and the next in
/// port of the other.
pub fn edges_law()
    ensures follows { EachFollowsItsBind }
    ensures ports { EachTakesTheNextPorts }
{}

/// Where no node fails, a source and a sink have an edge for each port, an adapter has as many edges in as
/// out and at least one, and a nexus has one on each side. The ports of a node are 0, 1, .. in the order of
/// edges.
pub fn filled_law()
    ensures edges { EachHasItsEdges }
    ensures ports { EachHasItsPorts }
{}
