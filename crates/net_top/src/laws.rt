ghost use Rattle.net_top.specs.LegalBeats.{LegalBeatsLaw};
ghost use Rattle.net_top.specs.Runs.{ResetLaw, RunsLaw};
ghost use Rattle.net_top.specs.WholeLaw.{WholeLaw};

use net_cells::runs_law;
use net_kinds::machines_law;
use net_parts::wired_law;
use tl_edge::{heads_law, legal_law, wires_law};

/// Where the ports, queues and leaves of a sound plan are all there on a builder, wired as the plan says, and
/// nothing is left to be driven, its netlist is the network of the plan.
pub fn whole_law()
    ensures { WholeLaw }
{
    machines_law();
    wired_law();
}

/// A well-formed netlist without a loop that has the ports of a plan has exactly one run for each list of
/// offers whose beats fit the wires of their ports.
pub fn port_runs_law()
    ensures { RunsLaw }
{
    runs_law();
}

/// A netlist that is the network of a plan, and whose registers are all 0 after a reset, is after each reset
/// again what the network is from its start on.
pub fn reset_law()
    ensures { ResetLaw }
{}

/// A sound edge carries each beat of a request that is legal on it, and each beat of a whole response to it.
pub fn legal_beats_law()
    ensures { LegalBeatsLaw }
{
    heads_law();
    legal_law();
    wires_law();
}
