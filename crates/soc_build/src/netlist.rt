ghost use Rattle.std.specs.Prelude.{◌≡◌, None, IfOk, IfErr};
ghost use Rattle.dip_lists.specs.First.{first_failing};
ghost use Rattle.dip_graph.specs.Faults.{IsFaultOf};
ghost use Rattle.dip_graph.specs.WellStated.{IsWellStated};
ghost use Rattle.dip_plan.specs.DesignPlans.{accepted_of};
ghost use Rattle.soc_build.specs.Netlists.{build_checks, IsBuiltWith, IsNetlistOf};

use crate::kinds::kinds_are_built;
use dip_graph::{Design, Fault};
use dip_plan::{Accepted, check};
use dip_rule::{Rules, Stating};
use net_cells::Netlist;
use net_top::build;
use std::alloc::Global;

/// What an accepted design has, with its netlist.
#[derive(Drop)]
pub struct BuiltDesign {
    /// The edges, the only solution on them, and the plan.
    pub accepted: Accepted,
    /// The network of the plan, in registers and cells.
    pub netlist: Netlist,
}

/// What a design has by these rules, where its checks pass, with the netlist of its plan.
///
/// `Fault::Check` names the first of the checks 5 to 19 that fails, with the number of the bind, the node
/// or the edge at which it does, or how many edges there are, or the weight. After `Fault::Memory` nothing
/// is known.
#[tactic(auto, using(crate::proofs::Buildable::planned))]
pub fn build_accepted(alloc: Global, design: &Design, rules: &Rules) -> Result<BuiltDesign, Fault>
    requires { IsWellStated design.now }
    ensures accepted { IfOk result (λ built. built.accepted ≡ accepted_of
        (⟦<Rules as Stating>⟧.stated rules.now) design.now) }
    ensures made { IfOk result (λ built. IsBuiltWith (⟦<Rules as Stating>⟧.stated rules.now) design.now
        built.accepted built.netlist) }
    ensures passes { IfOk result (λ _. first_failing (build_checks (⟦<Rules as Stating>⟧.stated
        rules.now) design.now) ≡ None) }
    ensures err { IfErr result (IsFaultOf (first_failing (build_checks (⟦<Rules as Stating>⟧.stated
        rules.now) design.now))) }
{
    let accepted = check(alloc, design, rules)?;
    kinds_are_built(design, rules)?;
    let netlist = build(alloc, &accepted.plan)?;
    Ok(BuiltDesign { accepted, netlist })
}

/// The netlist of a design, by these rules: the network of the plan of its only solution, in registers and
/// cells. It fails as `build_accepted` does.
pub fn build_design(alloc: Global, design: &Design, rules: &Rules) -> Result<Netlist, Fault>
    requires { IsWellStated design.now }
    ensures made { IfOk result (λ netlist. IsNetlistOf (⟦<Rules as Stating>⟧.stated rules.now) design.now
        netlist) }
    ensures passes { IfOk result (λ _. first_failing (build_checks (⟦<Rules as Stating>⟧.stated
        rules.now) design.now) ≡ None) }
    ensures err { IfErr result (IsFaultOf (first_failing (build_checks (⟦<Rules as Stating>⟧.stated
        rules.now) design.now))) }
{
    let built = build_accepted(alloc, design, rules)?;
    Ok(built.netlist)
}
