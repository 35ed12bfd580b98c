ghost use Rattle.std.specs.Prelude.{◌≡◌, All, IfOk, IfErr, None, Some};
ghost use Rattle.dip_lists.specs.First.{first_failing};
ghost use Rattle.tl_edge.specs.SoundPlans.{IsSound};
ghost use Rattle.dip_graph.specs.WellStated.{IsWellStated};
ghost use Rattle.dip_plan.specs.Standing.{StandsTo};
ghost use Rattle.soc_stimulus.specs.Lines.{IsLineOf};
ghost use Rattle.soc_stimulus.specs.Requests.{IsLegalThere};
ghost use Rattle.soc_stimulus.specs.Stimuli as spec;

use crate::StimFault;
use crate::names::names_of_nodes;
use crate::read::{Stimulus, read_for};
use dip_graph::Design;
use dip_plan::Accepted;
use std::alloc::Global;

/// The stimulus that a file states for an accepted design. Each of its requests is legal at its port, and
/// there is a setting for each sink port.
///
/// `StimFault::Line` names the first of the rules 1 to 9 that fails, and the entry at which it does: entry 0
/// is the top table, then come the requests, the stalls and the devices, each in file order. Rule 1 goes
/// before rule 2 at any entry, and that before rule 3 at any entry; of the rules 4 to 9 the lowest entry goes
/// first. After `StimFault::Memory` nothing is known of the file.
pub fn read_stimulus(
    alloc: Global,
    bytes: &[u8],
    design: &Design,
    accepted: &Accepted,
) -> Result<Stimulus, StimFault>
    requires design { IsWellStated design.now }
    requires plan { IsSound accepted.now.plan }
    requires stands { StandsTo design.now accepted.now.edges accepted.now.solution accepted.now.plan }
    ensures ok { IfOk result (λ stimulus. spec.stimulus_for design.now accepted.now bytes.now ≡ Some
        stimulus) }
    ensures legal { IfOk result (λ stimulus. All (spec.IsLegalAsked accepted.now.plan) stimulus.requests) }
    ensures emitted { IfOk result (λ stimulus. All (IsLegalThere accepted.now.plan.sources
        accepted.now.solution.down accepted.now.solution.up) stimulus.requests) }
    ensures passes { IfOk result (λ _. first_failing (spec.rules_for design.now accepted.now bytes.now) ≡
        None) }
    ensures err { IfErr result (IsLineOf (first_failing (spec.rules_for design.now accepted.now
        bytes.now))) }
{
    let names = names_of_nodes(alloc, design.nodes.as_slice())?;
    let downs = accepted.solution.down.as_slice();
    let ups = accepted.solution.up.as_slice();
    read_for(alloc, &names, &accepted.plan, downs, ups, bytes)
}
