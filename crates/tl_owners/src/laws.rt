ghost use Rattle.tl_owners.specs.Outputs.{OutputLaw};

/// In a sound plan each address that is owned before a leaf is owned behind it on one output alone, by the
/// same slave, and each slave on an edge is the port of a sink.
pub fn outputs_law()
    ensures { OutputLaw }
{}
