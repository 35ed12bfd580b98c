ghost use Rattle.net_parts.specs.Law.{PutsFitLaw, WiredLaw};

use net_cycle::parts_law;

/// In every locally valid state a leaf of the network that does what a machine does puts what fits the wires
/// of its edges.
pub fn puts_fit_law()
    ensures { PutsFitLaw }
{}

/// Where queues, leaves and ports are wired as a plan says, and each leaf of the network does what the
/// machine of its wires does, the queues show in each cycle of every run from the start what the network's
/// do.
pub fn wired_law()
    ensures { WiredLaw }
{
    parts_law();
}
