ghost use Rattle.sim_ports.specs.Examples.{AtomicsExample, MemoriesExample, PortExample};
ghost use Rattle.sim_ports.specs.Prepared.{PreparedLaw};
ghost use Rattle.sim_ports.specs.SinkExample.{SinkExample};
ghost use Rattle.sim_ports.specs.SinkLaws.{SinkLaw};

/// What the definitions say in examples in which every number, byte and beat is written out.
pub fn examples_law()
    ensures atomics { AtomicsExample }
    ensures memories { MemoriesExample }
    ensures port { PortExample }
    ensures sink { SinkExample }
{}

/// What the history of a sink port means: each event takes it from where it stood; it keeps its bus, its
/// delay and what its device states; and when all beats of a request have left, the device has answered it.
pub fn sink_law()
    ensures { SinkLaw }
{}

/// Where a device is prepared at addresses that rise, a port with it at which nothing has happened is
/// prepared.
pub fn prepared_law()
    ensures { PreparedLaw }
{}
