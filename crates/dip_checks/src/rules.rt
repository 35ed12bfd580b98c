ghost use Rattle.std.specs.Prelude.{◌≡◌, ◌<◌, ◌^◌, None, Ok, length, IfOk, IfErr};
ghost use Rattle.dip_lists.specs.First.{first_failing};
ghost use Rattle.dip_graph.specs.Faults.{IsFaultOf};
ghost use Rattle.dip_negotiate.specs.Negotiation.{IsNegFault, IsNegotiable, IsOnlySolution, downs, ups};
ghost use Rattle.dip_checks.specs.Checks as spec;

use dip_graph::{Design, Edge, Edges, Fault};
use dip_negotiate::{NegFault, Solution, negotiate};
use dip_rule::{Rules, Stating};
use std::alloc::Global;

// A refusal as one of the checks 11 and 12.
#[tactic(auto, using(crate::proofs::Refusals::down_refused, crate::proofs::Refusals::up_refused))]
fn refusal(design: &Design, edges: &[Edge], rules: &Rules, fault: NegFault) -> Fault
    requires { IsNegFault (⟦<Rules as Stating>⟧.stated rules.now) design.now edges.now fault }
    ensures { IsFaultOf (first_failing (spec.rule_checks (⟦<Rules as Stating>⟧.stated rules.now)
        design.now edges.now)) result }
{
    match fault {
        NegFault::DownRefused { node, .. } => Fault::Check {
            number: 11,
            subject: u64::from(node),
        },
        NegFault::UpRefused { node, .. } => Fault::Check {
            number: 12,
            subject: u64::from(node),
        },
        NegFault::Memory => Fault::Memory,
    }
}

/// What goes down and up all edges, or the first of the checks 11 and 12 that fails: no rule refuses.
#[tactic(auto, using(crate::proofs::Refusals::none_refused))]
pub fn agreed(
    alloc: Global,
    design: &Design,
    edges: &Edges,
    rules: &Rules,
) -> Result<Solution, Fault>
    requires nodes { length design.now.nodes < 2 ^ 32 }
    requires edges { length edges.now < 2 ^ 32 }
    requires negotiable { IsNegotiable design.now edges.now }
    ensures down { IfOk result (λ solution. downs (⟦<Rules as Stating>⟧.stated rules.now) design.now
        edges.now ≡ Ok solution.down) }
    ensures up { IfOk result (λ solution. ups (⟦<Rules as Stating>⟧.stated rules.now) design.now
        edges.now ≡ Ok solution.up) }
    ensures only { IfOk result (IsOnlySolution (⟦<Rules as Stating>⟧.stated rules.now) design.now
        edges.now) }
    ensures passes { IfOk result (λ _. first_failing (spec.rule_checks (⟦<Rules as Stating>⟧.stated
        rules.now) design.now edges.now) ≡ None) }
    ensures err { IfErr result (IsFaultOf (first_failing (spec.rule_checks (⟦<Rules as Stating>⟧.stated
        rules.now) design.now edges.now))) }
{
    match negotiate(alloc, design, edges, rules) {
        Ok(solution) => Ok(solution),
        Err(fault) => Err(refusal(design, edges.as_slice(), rules, fault)),
    }
}
