ghost use Rattle.std.specs.Prelude.{◌≡◌, All, None, IfOk, IfErr};
ghost use Rattle.dip_lists.specs.First.{first_failing};
ghost use Rattle.tl_params.specs.Apart.{HasDisjointSets, HasOneOwnerEach};
ghost use Rattle.tl_edge.specs.SoundPlans.{IsSound};
ghost use Rattle.dip_graph.specs.Faults.{IsFaultOf};
ghost use Rattle.dip_graph.specs.WellStated.{IsWellStated};
ghost use Rattle.dip_negotiate.specs.Negotiation.{IsOnlySolution};
ghost use Rattle.dip_checks.specs.Checks.{design_checks};
ghost use Rattle.dip_plan.specs.Standing.{StandsTo};
ghost use Rattle.dip_plan.specs.DesignPlans as spec;

use crate::assemble::plan_of;
use crate::sizes::edges_have_sizes;
use dip_checks::check_design;
use dip_graph::{Design, Edges, Fault};
use dip_negotiate::Solution;
use dip_rule::{Rules, Stating};
use std::alloc::Global;
use tl_edge::Plan;

/// What an accepted design has: its edges, what goes down and up each of them, and its plan.
#[derive(Drop)]
pub struct Accepted {
    pub edges: Edges,
    pub solution: Solution,
    pub plan: Plan,
}

/// The edges, the only solution and the plan of a design, by these rules. The plan is sound.
///
/// `Fault::Check` names the first of the checks 5 to 18 that fails, with the number of the bind, the node
/// or the edge at which it does, or how many edges there are, or the weight. After `Fault::Memory` nothing
/// is known.
#[tactic(auto, using(crate::proofs::Whole::planned_sound, crate::proofs::Stands::planned_stands))]
pub fn check(alloc: Global, design: &Design, rules: &Rules) -> Result<Accepted, Fault>
    requires { IsWellStated design.now }
    ensures value { IfOk result (λ accepted. accepted ≡ spec.accepted_of (⟦<Rules as Stating>⟧.stated
        rules.now) design.now) }
    ensures only { IfOk result (λ accepted. IsOnlySolution (⟦<Rules as Stating>⟧.stated rules.now)
        design.now accepted.edges accepted.solution) }
    ensures passes { IfOk result (λ _. first_failing (design_checks (⟦<Rules as Stating>⟧.stated
        rules.now) design.now) ≡ None) }
    ensures apart { IfOk result (λ accepted. All HasDisjointSets accepted.solution.up) }
    ensures owners { IfOk result (λ accepted. All HasOneOwnerEach accepted.solution.up) }
    ensures sound { IfOk result (λ accepted. IsSound accepted.plan) }
    ensures stands { IfOk result (λ accepted. StandsTo design.now accepted.edges accepted.solution
        accepted.plan) }
    ensures err { IfErr result (IsFaultOf (first_failing (design_checks (⟦<Rules as Stating>⟧.stated
        rules.now) design.now))) }
{
    let agreed = check_design(alloc, design, rules)?;
    let edges = agreed.edges;
    let solution = agreed.solution;
    // the sizes are ranges by their type, which proofs know of a value only where a call has met it
    edges_have_sizes(solution.up.as_slice());
    let plan = plan_of(alloc, design, rules, edges.as_slice(), &solution)?;
    Ok(Accepted {
        edges,
        solution,
        plan,
    })
}
