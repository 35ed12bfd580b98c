ghost use Rattle.net_bar_cycle.specs.Laws.{CrossbarAtLaw};

/// In every locally valid state of a sound plan, what a crossbar of the network takes and puts in a cycle,
/// and its state afterwards, is what the machine says that its wires are: the crossing by the plan's policy.
pub fn crossbar_at_law()
    ensures { CrossbarAtLaw }
{}
