ghost use Rattle.std.specs.Prelude.{◌≡◌, ◌<◌, ◌≤◌, ◌^◌, All, length, map, IfOk};
ghost use Rattle.dip_graph.specs.declared.edges.Edge.{Edge};
ghost use Rattle.dip_plan.specs.DesignPlans as spec;

use crate::each_edge::plan_edges;
use crate::each_leaf::leaves_by;
use crate::each_port::{sinks_by, sources_by};
use crate::each_side::{each_from, each_to};
use dip_graph::{Design, Edge};
use dip_lists::Memory;
use dip_negotiate::Solution;
use dip_rule::{Rules, Stating};
use std::alloc::Global;
use tl_edge::Plan;

/// The plan of a design with these edges and this solution.
pub fn plan_of(
    alloc: Global,
    design: &Design,
    rules: &Rules,
    edges: &[Edge],
    solution: &Solution,
) -> Result<Plan, Memory>
    requires nodes { length design.now.nodes < 2 ^ 32 }
    requires edges { length edges.now < 2 ^ 32 }
    requires to { All (λ (edge : Edge). edge.to < length design.now.nodes) edges.now }
    requires from { All (λ (edge : Edge). edge.from < length design.now.nodes) edges.now }
    ensures { IfOk result (λ plan. plan ≡ spec.plan_of (⟦<Rules as Stating>⟧.stated rules.now) design.now
        edges.now solution.now) }
{
    let nodes = design.nodes.as_slice();
    let ins = each_to(alloc, edges, nodes.len())?;
    let outs = each_from(alloc, edges, nodes.len())?;
    Ok(Plan {
        name: design.name.copy(alloc)?,
        policy: design.policy,
        leaves: leaves_by(alloc, rules, nodes, ins.as_slice(), outs.as_slice())?,
        edges: plan_edges(alloc, solution.down.as_slice(), solution.up.as_slice())?,
        sources: sources_by(alloc, nodes, outs.as_slice())?,
        sinks: sinks_by(alloc, nodes, ins.as_slice())?,
    })
}
