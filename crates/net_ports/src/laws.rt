ghost use Rattle.net_ports.specs.Names.{NamesLaw};

/// No two ports of the netlist of a sound plan have the same name.
pub fn names_law()
    ensures { NamesLaw }
{}
