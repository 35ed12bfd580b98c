ghost use Rattle.std.specs.Prelude.{◌+◌, ◌≤◌, ◌≡◌, ◌<◌, ◌^◌, ℕ, true, length, replicate, Ok, Err, IfOk, OnOk};
ghost use Rattle.dip_negotiate.specs.Passes.{refusal, run};
ghost use Rattle.dip_graph.specs.declared.edges.Edge.{Edge};
ghost use Rattle.dip_rule.specs.Stated.{Answers};
ghost use Rattle.dip_negotiate.specs.Demands as spec;
ghost use Rattle.dip_negotiate.specs.Turns.{AreShared, GoesOn, InTurn, SameFirst, StopsAt, marked};
ghost use Rattle.dip_negotiate.specs.declared.demands.PassFault.TheVariants as fault;

use crate::kept::{keep, keeps, kept_ports, make_room, picked};
use crate::marking::{marks_of, needed, wants};
use crate::negotiated::Negotiated;
use crate::steps::Step;
use dip_graph::{Edge, NodeEntry};
use dip_lists::{Items, Memory};
use dip_rule::{RuleFault, Rules, Stating};
use std::alloc::Global;
use thiserror::Error;

/// Why ports aren't known.
#[derive(Clone, Copy, Debug, PartialEq, Eq, Error)]
pub enum PassFault {
    /// The port of this edge is refused, with a number of the rule's own.
    #[error("the port of an edge is refused with {number}")]
    Refused { edge: Edge, number: u16 },
    #[error("out of memory")]
    Memory,
}

impl From<Memory> for PassFault {
    ghost use Rattle.std.specs.Prelude.{◌≡◌};
    ghost use Rattle.dip_negotiate.specs.declared.demands.PassFault.TheVariants as fault;

    ghost from_gives = { λ _ e. e ≡ fault.Memory };

    fn from(_: Memory) -> PassFault {
        PassFault::Memory
    }
}

// What is stated of an edge from the known ports; `Memory` where there is no room to keep it.
fn stated<P: Negotiated>(
    alloc: Global,
    rules: &Rules,
    nodes: &[NodeEntry],
    edges: &[Edge],
    firsts: &[u32],
    ports: &[Option<P>],
    edge: &Edge,
) -> Result<P, RuleFault>
    requires { length edges.now < 2 ^ 32 }
    ensures list { IfOk result (λ port. P.count port ≤ 1048576) }
    ensures together { IfOk result (λ port. P.count port + spec.all_entries P.count ports.now ≤
        P.MOST_ENTRIES) }
    ensures value { Answers ((P.pass (⟦<Rules as Stating>⟧.stated rules.now) nodes.now edges.now).says
        edge.now (spec.known_of (spec.seen firsts.now ports.now)
        ((P.pass (⟦<Rules as Stating>⟧.stated rules.now) nodes.now edges.now).asks edge.now))) result }
{
    let numbers = P::asks(alloc, rules, nodes, edges, edge)?;
    let some = picked(alloc, firsts, ports, numbers.as_slice())?;
    let port = P::says(alloc, rules, nodes, edges, edge, some.as_slice())?;
    make_room(ports, port.entries())?;
    Ok(port)
}

/// Asks for the port of each marked edge that isn't known, in turn, and keeps it.
pub fn ask_marked<P: Negotiated>(
    alloc: Global,
    rules: &Rules,
    nodes: &[NodeEntry],
    edges: &[Edge],
    steps: &[Step],
    firsts: &[u32],
    marks: &[bool],
    ports: &mut Vec<Option<P>>,
) -> Result<(), PassFault>
    requires few { length edges.now < 2 ^ 32 }
    requires in_turn { InTurn (P.pass (⟦<Rules as Stating>⟧.stated rules.now) nodes.now edges.now)
        edges.now steps.now }
    requires shared { AreShared (P.pass (⟦<Rules as Stating>⟧.stated rules.now) nodes.now edges.now)
        edges.now firsts.now }
    requires long { length ports.old.items ≡ length edges.now }
    requires marks { length marks.now ≡ length edges.now }
    requires known { spec.IsKnown (P.pass (⟦<Rules as Stating>⟧.stated rules.now) nodes.now edges.now)
        edges.now (spec.seen firsts.now ports.old.items) }
    requires goes_on { GoesOn (P.pass (⟦<Rules as Stating>⟧.stated rules.now) nodes.now edges.now)
        edges.now (spec.seen firsts.now ports.old.items) marks.now }
    ensures long { length ports.new.items ≡ length edges.now }
    ensures known { spec.IsKnown (P.pass (⟦<Rules as Stating>⟧.stated rules.now) nodes.now edges.now)
        edges.now (spec.seen firsts.now ports.new.items) }
    ensures stays { spec.Stays (spec.seen firsts.now ports.old.items)
        (spec.seen firsts.now ports.new.items) }
    ensures only { spec.KeepsOnly (SameFirst firsts.now) (λ k. marked marks.now k ≡ true)
        (spec.seen firsts.now ports.old.items) (spec.seen firsts.now ports.new.items) }
    ensures ok { OnOk result (spec.AllKept (λ k. marked marks.now k ≡ true)
        (spec.seen firsts.now ports.new.items)) }
    ensures refused { (edge : Edge) (number : ℕ) → result ≡ Err (fault.Refused edge number)
        → StopsAt (P.pass (⟦<Rules as Stating>⟧.stated rules.now) nodes.now edges.now) steps.now
        marks.now (spec.seen firsts.now ports.new.items) edge number }
{
    for turn in 0..steps.len() {
        let step = &steps[turn];
        if wants(marks, firsts, ports, step.number) {
            match stated(alloc, rules, nodes, edges, firsts, ports, &step.edge) {
                Ok(port) => keep(firsts, ports, step.number, port),
                Err(RuleFault::Memory) => return Err(PassFault::Memory),
                Err(RuleFault::Refused(number)) => {
                    return Err(PassFault::Refused {
                        edge: step.edge,
                        number,
                    });
                }
            }
        }
    }
    Ok(())
}

/// Asks for the port of an edge and for those on which it depends, as far as they aren't known, and keeps
/// them.
pub fn demand<P: Negotiated>(
    alloc: Global,
    rules: &Rules,
    nodes: &[NodeEntry],
    edges: &[Edge],
    steps: &[Step],
    firsts: &[u32],
    ports: &mut Vec<Option<P>>,
    edge: u32,
) -> Result<(), PassFault>
    requires few { length edges.now < 2 ^ 32 }
    requires in_turn { InTurn (P.pass (⟦<Rules as Stating>⟧.stated rules.now) nodes.now edges.now)
        edges.now steps.now }
    requires shared { AreShared (P.pass (⟦<Rules as Stating>⟧.stated rules.now) nodes.now edges.now)
        edges.now firsts.now }
    requires long { length ports.old.items ≡ length edges.now }
    requires known { spec.IsKnown (P.pass (⟦<Rules as Stating>⟧.stated rules.now) nodes.now edges.now)
        edges.now (spec.seen firsts.now ports.old.items) }
    requires edge { edge < length edges.now }
    ensures long { length ports.new.items ≡ length edges.now }
    ensures known { spec.IsKnown (P.pass (⟦<Rules as Stating>⟧.stated rules.now) nodes.now edges.now)
        edges.now (spec.seen firsts.now ports.new.items) }
    ensures stays { spec.Stays (spec.seen firsts.now ports.old.items) (spec.seen firsts.now
        ports.new.items) }
    ensures only { spec.KeepsOnly (SameFirst firsts.now) (spec.PortDependsOn
        (P.pass (⟦<Rules as Stating>⟧.stated rules.now) nodes.now edges.now) edges.now edge)
        (spec.seen firsts.now ports.old.items) (spec.seen firsts.now ports.new.items) }
    ensures ok { OnOk result (spec.AllKept (spec.PortDependsOn
        (P.pass (⟦<Rules as Stating>⟧.stated rules.now) nodes.now edges.now) edges.now edge)
        (spec.seen firsts.now ports.new.items)) }
    ensures refused { (refused : Edge) (number : ℕ) → result ≡ Err (fault.Refused refused number)
        → spec.IsFirstRefusal (P.pass (⟦<Rules as Stating>⟧.stated rules.now) nodes.now edges.now)
        edges.now steps.now (spec.PortDependsOn (P.pass (⟦<Rules as Stating>⟧.stated rules.now) nodes.now
        edges.now) edges.now edge) refused number }
{
    if keeps(firsts, ports, edge) {
        return Ok(());
    }
    let Ok(marks) = needed(alloc, rules, nodes, edges, steps, firsts, ports, edge) else {
        return Err(PassFault::Memory);
    };
    ask_marked(alloc, rules, nodes, edges, steps, firsts, &marks, ports)
}

/// The ports of all edges: those that are known, and those that are asked for now.
pub fn all_ports<P: Negotiated>(
    alloc: Global,
    rules: &Rules,
    nodes: &[NodeEntry],
    edges: &[Edge],
    steps: &[Step],
    firsts: &[u32],
    ports: Vec<Option<P>>,
) -> Result<Items<P>, PassFault>
    requires few { length edges.now < 2 ^ 32 }
    requires in_turn { InTurn (P.pass (⟦<Rules as Stating>⟧.stated rules.now) nodes.now edges.now)
        edges.now steps.now }
    requires shared { AreShared (P.pass (⟦<Rules as Stating>⟧.stated rules.now) nodes.now edges.now)
        edges.now firsts.now }
    requires long { length ports.items ≡ length edges.now }
    requires known { spec.IsKnown (P.pass (⟦<Rules as Stating>⟧.stated rules.now) nodes.now edges.now)
        edges.now (spec.seen firsts.now ports.items) }
    ensures ok { IfOk result (λ all. run (P.pass (⟦<Rules as Stating>⟧.stated rules.now) nodes.now
        edges.now) (replicate (length edges.now) P.unknown) steps.now ≡ Ok all) }
    ensures refused { (refused : Edge) (number : ℕ) → result ≡ Err (fault.Refused refused number)
        → run (P.pass (⟦<Rules as Stating>⟧.stated rules.now) nodes.now edges.now) (replicate (length
        edges.now) P.unknown) steps.now ≡ Err (refusal refused number) }
{
    let mut ports = ports;
    let Ok(marks) = marks_of(alloc, edges.len(), true) else {
        return Err(PassFault::Memory);
    };
    match ask_marked(
        alloc, rules, nodes, edges, steps, firsts, &marks, &mut ports,
    ) {
        Err(fault) => Err(fault),
        Ok(()) => match kept_ports(alloc, firsts, ports) {
            Ok(all) => Ok(all),
            Err(_) => Err(PassFault::Memory),
        },
    }
}
