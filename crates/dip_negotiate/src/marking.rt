ghost use Rattle.std.specs.Prelude.{◌≡◌, ◌<◌, ◌^◌, true, false, length, replicate, slice_set, All, IfOk, OnOk};
ghost use Rattle.dip_negotiate.specs.Demands.{PortDependsOn, IsKnown, seen};
ghost use Rattle.dip_negotiate.specs.Turns as spec;

use crate::kept::keeps;
use crate::negotiated::Negotiated;
use crate::steps::Step;
use dip_graph::{Edge, NodeEntry};
use dip_lists::Memory;
use dip_rule::{Rules, Stating};
use std::alloc::Global;

/// So many edges, all marked or none.
pub fn marks_of(alloc: Global, count: usize, mark: bool) -> Result<Vec<bool>, Memory>
    ensures { IfOk result (λ marks. marks.items ≡ replicate count mark) }
{
    Ok(vec![in alloc; mark; count]?)
}

// Marks some edges.
#[tactic(auto, using(crate::proofs::Marks::spread_length, crate::proofs::Marks::mark_past))]
fn mark(marks: &mut [bool], numbers: &[u32])
    ensures { marks.new ≡ spec.spread marks.old numbers.now }
{
    for number in numbers {
        if (*number as usize) < marks.len() {
            marks[*number as usize] = true;
        }
    }
}

/// Whether an edge is marked and its port isn't known.
pub fn wants<P>(marks: &[bool], firsts: &[u32], ports: &[Option<P>], edge: u32) -> bool
    ensures { result ≡ spec.is_wanted marks.now (seen firsts.now ports.now) edge }
{
    (edge as usize) < marks.len() && marks[edge as usize] && !keeps(firsts, ports, edge)
}

// Marks what the edge of a step asks, where it is marked and its port isn't known.
fn go_on<P: Negotiated>(
    alloc: Global,
    rules: &Rules,
    nodes: &[NodeEntry],
    edges: &[Edge],
    firsts: &[u32],
    ports: &[Option<P>],
    step: &Step,
    marks: &mut Vec<bool>,
) -> Result<(), Memory>
    requires { length edges.now < 2 ^ 32 }
    ensures { OnOk result (marks.new.items ≡ spec.gone_on (seen firsts.now ports.now) step.now.number
        ((P.pass (⟦<Rules as Stating>⟧.stated rules.now) nodes.now edges.now).asks step.now.edge)
        marks.old.items) }
{
    if wants(marks, firsts, ports, step.number) {
        let numbers = P::asks(alloc, rules, nodes, edges, &step.edge)?;
        mark(marks, numbers.as_slice());
    }
    Ok(())
}

/// The edges on whose ports that of one edge depends, as far as they aren't known or are asked for one that
/// isn't.
pub fn needed<P: Negotiated>(
    alloc: Global,
    rules: &Rules,
    nodes: &[NodeEntry],
    edges: &[Edge],
    steps: &[Step],
    firsts: &[u32],
    ports: &[Option<P>],
    edge: u32,
) -> Result<Vec<bool>, Memory>
    requires few { length edges.now < 2 ^ 32 }
    requires in_turn { spec.InTurn (P.pass (⟦<Rules as Stating>⟧.stated rules.now) nodes.now edges.now)
        edges.now steps.now }
    requires known { IsKnown (P.pass (⟦<Rules as Stating>⟧.stated rules.now) nodes.now edges.now)
        edges.now (seen firsts.now ports.now) }
    requires edge { edge < length edges.now }
    ensures { IfOk result (λ marks. spec.AreMarked (P.pass (⟦<Rules as Stating>⟧.stated rules.now)
        nodes.now edges.now) edges.now (seen firsts.now ports.now)
        (PortDependsOn (P.pass (⟦<Rules as Stating>⟧.stated rules.now) nodes.now edges.now) edges.now edge)
        marks.items) }
{
    let mut marks = marks_of(alloc, edges.len(), false)?;
    marks[edge as usize] = true;
    for back in 0..steps.len() {
        let step = &steps[steps.len() - 1 - back];
        go_on(alloc, rules, nodes, edges, firsts, ports, step, &mut marks)?;
    }
    Ok(marks)
}
