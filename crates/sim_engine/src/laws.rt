ghost use Rattle.sim_engine.specs.Orders.{EachCellOnce};

/// An order in which an engine evaluates the cells of a netlist has as many cells as the netlist: it has each
/// of them, and so each once.
pub fn order_law()
    ensures { EachCellOnce }
{}
