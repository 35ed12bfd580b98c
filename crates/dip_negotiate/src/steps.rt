ghost use Rattle.std.specs.Prelude.{◌≡◌, ◌<◌, ◌^◌, ◌++◌, length, IfOk, OnOk};
ghost use Rattle.dip_negotiate.specs.Places as spec;

use dip_graph::Edge;
use dip_lists::{Items, Memory};
use std::alloc::Global;

/// A port of a node, where an edge ends.
#[derive(Clone, Copy, Debug, PartialEq, Eq)]
pub struct End {
    pub node: u32,
    pub port: u32,
}

/// An edge whose port a pass makes next.
#[derive(Clone, Copy, Debug, PartialEq, Eq)]
pub struct Step {
    /// The number of the edge.
    pub number: u32,
    pub edge: Edge,
}

/// Steps in the order of a pass.
pub type Steps = Items<Step>;

/// The end that requests come from.
pub fn source_end(edge: &Edge) -> End
    ensures { result ≡ spec.source_end edge.now }
{
    End {
        node: edge.from,
        port: edge.from_port,
    }
}

/// The end that requests go to.
pub fn sink_end(edge: &Edge) -> End
    ensures { result ≡ spec.sink_end edge.now }
{
    End {
        node: edge.to,
        port: edge.to_port,
    }
}

// Adds the edges from a node, each with its number.
fn add_steps_from(steps: &mut Steps, node: u32, edges: &[Edge]) -> Result<(), Memory>
    requires { length edges.now < 2 ^ 32 }
    ensures { OnOk result (steps.new ≡ steps.old ++ spec.steps_at spec.source_end node 0 edges.now) }
{
    for (number, edge) in edges.iter().enumerate() {
        if source_end(edge).node == node {
            steps.push(Step {
                number: number as u32,
                edge: *edge,
            })?;
        }
    }
    Ok(())
}

// Adds the edges to a node, each with its number.
fn add_steps_to(steps: &mut Steps, node: u32, edges: &[Edge]) -> Result<(), Memory>
    requires { length edges.now < 2 ^ 32 }
    ensures { OnOk result (steps.new ≡ steps.old ++ spec.steps_at spec.sink_end node 0 edges.now) }
{
    for (number, edge) in edges.iter().enumerate() {
        if sink_end(edge).node == node {
            steps.push(Step {
                number: number as u32,
                edge: *edge,
            })?;
        }
    }
    Ok(())
}

/// The edges in the order in which their ports go down, by an order of nodes.
pub fn steps_down(alloc: Global, order: &[u32], edges: &[Edge]) -> Result<Steps, Memory>
    requires { length edges.now < 2 ^ 32 }
    ensures { IfOk result (λ steps. steps ≡ spec.steps_down order.now edges.now) }
{
    let mut steps = Items::new(alloc);
    for node in order {
        add_steps_from(&mut steps, *node, edges)?;
    }
    Ok(steps)
}

/// The edges in the order in which their ports go up, by an order of nodes.
#[tactic(auto, using(crate::proofs::Back::one_back))]
pub fn steps_up(alloc: Global, order: &[u32], edges: &[Edge]) -> Result<Steps, Memory>
    requires { length edges.now < 2 ^ 32 }
    ensures { IfOk result (λ steps. steps ≡ spec.steps_up order.now edges.now) }
{
    let mut steps = Items::new(alloc);
    for turn in 0..order.len() {
        let node = order[order.len() - 1 - turn];
        add_steps_to(&mut steps, node, edges)?;
    }
    Ok(steps)
}
