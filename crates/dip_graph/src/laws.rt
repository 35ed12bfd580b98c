ghost use Rattle.dip_graph.specs.Orders.{EachLeftOutWaits, EachNextIsLeast, EachStandsBehind};
ghost use Rattle.dip_graph.specs.Orders.{EachWaitsForItsBinds};

/// In the canonical order each node stands behind the nodes that it is bound to, and only once. A node that
/// is left out is bound to one that is left out too. No node below the next one is ready, and at the end none
/// is.
pub fn order_law()
    ensures stands { EachStandsBehind }
    ensures waits { EachWaitsForItsBinds }
    ensures left { EachLeftOutWaits }
    ensures least { EachNextIsLeast }
{}
