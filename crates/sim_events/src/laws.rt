ghost use Rattle.sim_events.specs.Laws.{InputsLaw, TraceLaw};
ghost use Rattle.sim_events.specs.Worked.{RunExample};

/// What a netlist shows that is the network of a sound plan, in each cycle of a run: read off its outputs by
/// what its ports offer and take, the events are those of the network; and its inputs are what the ports
/// offer and take.
pub fn trace_law()
    ensures inputs { InputsLaw }
    ensures trace { TraceLaw }
{}

/// What the definitions of a run say in an example in which every event is written out.
pub fn run_law()
    ensures { RunExample }
{}
