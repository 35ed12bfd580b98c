ghost use Rattle.std.specs.Prelude.{◌≡◌, ◌<◌, ◌^◌, ℕ, length, get_or, Ok, None, IfOk, IfErr, IfSome, OnOk};
ghost use Rattle.std.specs.Option.{option_copied};
ghost use Rattle.dip_graph.specs.declared.edges.Edge.{Edge};
ghost use Rattle.dip_negotiate.specs.Demands as spec;
ghost use Rattle.dip_negotiate.specs.Negotiation as neg;
ghost use Rattle.dip_negotiate.specs.Places as ends;
ghost use Rattle.dip_negotiate.specs.declared.demands.PassFault.TheVariants as pass_fault;
ghost use Rattle.dip_negotiate.specs.declared.solution.NegFault.TheVariants as neg_fault;

use crate::demands::{PassFault, all_ports, demand};
use crate::kept::{keeps, nothing, port_at};
use crate::solution::{NegFault, Solution};
use crate::steps::{End, sink_end, source_end, steps_down, steps_up};
use crate::turns::{Turns, place_of, sharing};
use dip_graph::{Design, Edge, Edges, NodeEntry, canonical_order};
use dip_lists::Memory;
use dip_rule::{Rules, Stating};
use std::alloc::Global;
use tl_params::{DownPort, DownPorts, UpPort, UpPorts};

/// Negotiation on demand: the ports of a design's edges, each made when it is first asked for, with those
/// on which it depends, and kept.
///
/// What a place gives is kept once for all its edges, and a place whose port is kept isn't asked again.
#[derive(Drop)]
pub struct Lazy<'a> {
    design: &'a Design,
    edges: &'a Edges,
    rules: &'a Rules,
    down_turns: Turns,
    down: Vec<Option<DownPort>>,
    up_turns: Turns,
    up: Vec<Option<UpPort>>,
}

// A refusal down at the place that gives the edge's port.
fn down_fault(rules: &Rules, nodes: &[NodeEntry], fault: PassFault) -> NegFault
    ensures refused { (edge : Edge) (number : ℕ) → fault ≡ pass_fault.Refused edge number
        → result ≡ neg_fault.DownRefused (neg.place_of (⟦<Rules as Stating>⟧.stated rules.now) nodes.now
        (ends.source_end edge)).node (neg.place_of (⟦<Rules as Stating>⟧.stated rules.now) nodes.now
        (ends.source_end edge)).port number }
    ensures memory { fault ≡ pass_fault.Memory → result ≡ neg_fault.Memory }
{
    match fault {
        PassFault::Memory => NegFault::Memory,
        PassFault::Refused { edge, number } => {
            let End { node, port } = place_of(rules, nodes, source_end(&edge));
            NegFault::DownRefused { node, port, number }
        }
    }
}

// A refusal up at the place that gives the edge's port.
fn up_fault(rules: &Rules, nodes: &[NodeEntry], fault: PassFault) -> NegFault
    ensures refused { (edge : Edge) (number : ℕ) → fault ≡ pass_fault.Refused edge number
        → result ≡ neg_fault.UpRefused (neg.place_of (⟦<Rules as Stating>⟧.stated rules.now) nodes.now
        (ends.sink_end edge)).node (neg.place_of (⟦<Rules as Stating>⟧.stated rules.now) nodes.now
        (ends.sink_end edge)).port number }
    ensures memory { fault ≡ pass_fault.Memory → result ≡ neg_fault.Memory }
{
    match fault {
        PassFault::Memory => NegFault::Memory,
        PassFault::Refused { edge, number } => {
            let End { node, port } = place_of(rules, nodes, sink_end(&edge));
            NegFault::UpRefused { node, port, number }
        }
    }
}

// What goes down all edges, or the first refusal in canonical order.
fn all_down(
    alloc: Global,
    design: &Design,
    edges: &[Edge],
    rules: &Rules,
    turns: &Turns,
    ports: Vec<Option<DownPort>>,
) -> Result<DownPorts, NegFault>
    requires few { length edges.now < 2 ^ 32 }
    requires negotiable { neg.IsNegotiable design.now edges.now }
    requires is { spec.IsDown (⟦<Rules as Stating>⟧.stated rules.now) design.now edges.now turns.now
        ports.items }
    ensures ok { IfOk result (λ all. neg.downs (⟦<Rules as Stating>⟧.stated rules.now) design.now
        edges.now ≡ Ok all) }
    ensures err { IfErr result (neg.IsDownFault (⟦<Rules as Stating>⟧.stated rules.now) design.now
        edges.now) }
{
    let nodes = design.nodes.as_slice();
    let steps = turns.steps.as_slice();
    let firsts = turns.firsts.as_slice();
    match all_ports(alloc, rules, nodes, edges, steps, firsts, ports) {
        Ok(all) => Ok(all),
        Err(fault) => Err(down_fault(rules, nodes, fault)),
    }
}

// What goes up all edges, or the first refusal in the reversed order.
fn all_up(
    alloc: Global,
    design: &Design,
    edges: &[Edge],
    rules: &Rules,
    turns: &Turns,
    ports: Vec<Option<UpPort>>,
) -> Result<UpPorts, NegFault>
    requires few { length edges.now < 2 ^ 32 }
    requires negotiable { neg.IsNegotiable design.now edges.now }
    requires is { spec.IsUp (⟦<Rules as Stating>⟧.stated rules.now) design.now edges.now turns.now
        ports.items }
    ensures ok { IfOk result (λ all. neg.ups (⟦<Rules as Stating>⟧.stated rules.now) design.now
        edges.now ≡ Ok all) }
    ensures err { IfErr result (neg.IsUpFault (⟦<Rules as Stating>⟧.stated rules.now) design.now
        edges.now) }
{
    let nodes = design.nodes.as_slice();
    let steps = turns.steps.as_slice();
    let firsts = turns.firsts.as_slice();
    match all_ports(alloc, rules, nodes, edges, steps, firsts, ports) {
        Ok(all) => Ok(all),
        Err(fault) => Err(up_fault(rules, nodes, fault)),
    }
}

impl<'a> Lazy<'a> {
    /// Nothing asked yet, and no port kept.
    pub fn new(
        alloc: Global,
        design: &'a Design,
        edges: &'a Edges,
        rules: &'a Rules,
    ) -> Result<Lazy<'a>, Memory>
        requires nodes { length design.now.nodes < 2 ^ 32 }
        requires edges { length edges.now < 2 ^ 32 }
        requires negotiable { neg.IsNegotiable design.now edges.now }
        ensures design { IfOk result (λ lazy. lazy.design ≡ design.entry) }
        ensures edges { IfOk result (λ lazy. lazy.edges ≡ edges.entry) }
        ensures rules { IfOk result (λ lazy. lazy.rules ≡ rules.entry) }
        ensures is { IfOk result (λ lazy. spec.IsLazy (⟦<Rules as Stating>⟧.stated rules.now) design.now
            edges.now lazy.down_turns lazy.down.items lazy.up_turns lazy.up.items) }
        ensures no_down { IfOk result (λ lazy. spec.KeepsNone (spec.seen lazy.down_turns.firsts
            lazy.down.items)) }
        ensures no_up { IfOk result (λ lazy. spec.KeepsNone (spec.seen lazy.up_turns.firsts
            lazy.up.items)) }
    {
        let nodes = design.nodes.as_slice();
        let all = edges.as_slice();
        let order = canonical_order(alloc, design)?;
        let down_turns = Turns {
            steps: steps_down(alloc, order.as_slice(), all)?,
            firsts: sharing::<DownPort>(alloc, rules, nodes, all)?,
        };
        let up_turns = Turns {
            steps: steps_up(alloc, order.as_slice(), all)?,
            firsts: sharing::<UpPort>(alloc, rules, nodes, all)?,
        };
        let down = nothing(alloc, all.len())?;
        let up = nothing(alloc, all.len())?;
        Ok(Lazy {
            design,
            edges,
            rules,
            down_turns,
            down,
            up_turns,
            up,
        })
    }

    /// How many edges there are.
    pub fn edge_count(&self) -> usize
        ensures { result ≡ length self.now.edges.now }
    {
        self.edges.len()
    }

    /// Whether what goes down an edge is kept.
    pub fn keeps_down(&self, edge: u32) -> bool
        ensures { result ≡ spec.keeps (spec.seen self.now.down_turns.firsts self.now.down.items) edge }
    {
        keeps(self.down_turns.firsts.as_slice(), &self.down, edge)
    }

    /// Whether what goes up an edge is kept.
    pub fn keeps_up(&self, edge: u32) -> bool
        ensures { result ≡ spec.keeps (spec.seen self.now.up_turns.firsts self.now.up.items) edge }
    {
        keeps(self.up_turns.firsts.as_slice(), &self.up, edge)
    }

    /// What goes down an edge, where it is kept.
    pub fn down_port(&self, edge: u32) -> Option<&DownPort>
        requires is { spec.IsLazy (⟦<Rules as Stating>⟧.stated self.now.rules.now) self.now.design.now
            self.now.edges.now self.now.down_turns self.now.down.items self.now.up_turns
            self.now.up.items }
        ensures value { option_copied result ≡ get_or (spec.seen self.now.down_turns.firsts
            self.now.down.items) edge None }
        ensures only { IfSome result (λ port. spec.IsPortOf (neg.down_pass
            (⟦<Rules as Stating>⟧.stated self.now.rules.now) self.now.design.now.nodes self.now.edges.now)
            self.now.edges.now edge port.now) }
    {
        port_at(self.down_turns.firsts.as_slice(), &self.down, edge)
    }

    /// What goes up an edge, where it is kept.
    pub fn up_port(&self, edge: u32) -> Option<&UpPort>
        requires is { spec.IsLazy (⟦<Rules as Stating>⟧.stated self.now.rules.now) self.now.design.now
            self.now.edges.now self.now.down_turns self.now.down.items self.now.up_turns
            self.now.up.items }
        ensures value { option_copied result ≡ get_or (spec.seen self.now.up_turns.firsts
            self.now.up.items) edge None }
        ensures only { IfSome result (λ port. spec.IsPortOf (neg.up_pass
            (⟦<Rules as Stating>⟧.stated self.now.rules.now) self.now.design.now.nodes self.now.edges.now)
            self.now.edges.now edge port.now) }
    {
        port_at(self.up_turns.firsts.as_slice(), &self.up, edge)
    }

    /// Asks for what goes down an edge, and for all on which it depends, as far as it isn't kept.
    ///
    /// Where it ends, these ports are kept, and `down_port` gives them. `NegFault::DownRefused` names the
    /// first refusal among the places on which the port depends. After `NegFault::Memory` what was kept is
    /// kept, and a later demand may succeed.
    pub fn demand_down(&mut self, alloc: Global, edge: u32) -> Result<(), NegFault>
        requires is { spec.IsLazy (⟦<Rules as Stating>⟧.stated self.old.rules.now) self.old.design.now
            self.old.edges.now self.old.down_turns self.old.down.items self.old.up_turns
            self.old.up.items }
        requires edge { edge < length self.old.edges.now }
        ensures over { (self.new.design ≡ self.old.design) × (self.new.edges ≡ self.old.edges) ×
            (self.new.rules ≡ self.old.rules) }
        ensures is { spec.IsLazy (⟦<Rules as Stating>⟧.stated self.old.rules.now) self.old.design.now
            self.old.edges.now self.new.down_turns self.new.down.items self.new.up_turns
            self.new.up.items }
        ensures stays { spec.Stays (spec.seen self.old.down_turns.firsts self.old.down.items)
            (spec.seen self.new.down_turns.firsts self.new.down.items) }
        ensures up_stays { spec.seen self.new.up_turns.firsts self.new.up.items ≡
            spec.seen self.old.up_turns.firsts self.old.up.items }
        ensures only { spec.KeepsOnly (spec.SharePlace (λ e. neg.place_of
            (⟦<Rules as Stating>⟧.stated self.old.rules.now) self.old.design.now.nodes (ends.source_end e))
            self.old.edges.now) (spec.PortDependsOn (neg.down_pass (⟦<Rules as Stating>⟧.stated
            self.old.rules.now) self.old.design.now.nodes self.old.edges.now) self.old.edges.now edge)
            (spec.seen self.old.down_turns.firsts self.old.down.items)
            (spec.seen self.new.down_turns.firsts self.new.down.items) }
        ensures ok { OnOk result (spec.AllKept (spec.PortDependsOn (neg.down_pass
            (⟦<Rules as Stating>⟧.stated self.old.rules.now) self.old.design.now.nodes
            self.old.edges.now) self.old.edges.now edge) (spec.seen self.new.down_turns.firsts
            self.new.down.items)) }
        ensures refused { IfErr result (spec.IsDownRefusal (⟦<Rules as Stating>⟧.stated
            self.old.rules.now) self.old.design.now self.old.edges.now edge) }
    {
        let nodes = self.design.nodes.as_slice();
        let edges = self.edges.as_slice();
        let steps = self.down_turns.steps.as_slice();
        let firsts = self.down_turns.firsts.as_slice();
        match demand(
            alloc,
            self.rules,
            nodes,
            edges,
            steps,
            firsts,
            &mut self.down,
            edge,
        ) {
            Ok(()) => Ok(()),
            Err(fault) => Err(down_fault(self.rules, nodes, fault)),
        }
    }

    /// Asks for what goes up an edge, and for all on which it depends, as far as it isn't kept.
    ///
    /// Where it ends, these ports are kept, and `up_port` gives them. `NegFault::UpRefused` names the first
    /// refusal among the places on which the port depends. After `NegFault::Memory` what was kept is kept,
    /// and a later demand may succeed.
    pub fn demand_up(&mut self, alloc: Global, edge: u32) -> Result<(), NegFault>
        requires is { spec.IsLazy (⟦<Rules as Stating>⟧.stated self.old.rules.now) self.old.design.now
            self.old.edges.now self.old.down_turns self.old.down.items self.old.up_turns
            self.old.up.items }
        requires edge { edge < length self.old.edges.now }
        ensures over { (self.new.design ≡ self.old.design) × (self.new.edges ≡ self.old.edges) ×
            (self.new.rules ≡ self.old.rules) }
        ensures is { spec.IsLazy (⟦<Rules as Stating>⟧.stated self.old.rules.now) self.old.design.now
            self.old.edges.now self.new.down_turns self.new.down.items self.new.up_turns
            self.new.up.items }
        ensures stays { spec.Stays (spec.seen self.old.up_turns.firsts self.old.up.items)
            (spec.seen self.new.up_turns.firsts self.new.up.items) }
        ensures down_stays { spec.seen self.new.down_turns.firsts self.new.down.items ≡
            spec.seen self.old.down_turns.firsts self.old.down.items }
        ensures only { spec.KeepsOnly (spec.SharePlace (λ e. neg.place_of
            (⟦<Rules as Stating>⟧.stated self.old.rules.now) self.old.design.now.nodes (ends.sink_end e))
            self.old.edges.now) (spec.PortDependsOn (neg.up_pass (⟦<Rules as Stating>⟧.stated
            self.old.rules.now) self.old.design.now.nodes self.old.edges.now) self.old.edges.now edge)
            (spec.seen self.old.up_turns.firsts self.old.up.items)
            (spec.seen self.new.up_turns.firsts self.new.up.items) }
        ensures ok { OnOk result (spec.AllKept (spec.PortDependsOn (neg.up_pass
            (⟦<Rules as Stating>⟧.stated self.old.rules.now) self.old.design.now.nodes
            self.old.edges.now) self.old.edges.now edge) (spec.seen self.new.up_turns.firsts
            self.new.up.items)) }
        ensures refused { IfErr result (spec.IsUpRefusal (⟦<Rules as Stating>⟧.stated
            self.old.rules.now) self.old.design.now self.old.edges.now edge) }
    {
        let nodes = self.design.nodes.as_slice();
        let edges = self.edges.as_slice();
        let steps = self.up_turns.steps.as_slice();
        let firsts = self.up_turns.firsts.as_slice();
        match demand(
            alloc,
            self.rules,
            nodes,
            edges,
            steps,
            firsts,
            &mut self.up,
            edge,
        ) {
            Ok(()) => Ok(()),
            Err(fault) => Err(up_fault(self.rules, nodes, fault)),
        }
    }

    /// What goes down and up all edges: what is kept, and what is asked for now.
    ///
    /// `NegFault::DownRefused` names the first refusal in canonical order, and `NegFault::UpRefused`, where
    /// nothing is refused down, the first one in the reversed order, whatever demands were refused before.
    pub fn finish(self, alloc: Global) -> Result<Solution, NegFault>
        requires is { spec.IsLazy (⟦<Rules as Stating>⟧.stated self.rules.now) self.design.now
            self.edges.now self.down_turns self.down.items self.up_turns self.up.items }
        ensures down { IfOk result (λ solution. neg.downs (⟦<Rules as Stating>⟧.stated
            self.entry.rules.now) self.entry.design.now self.entry.edges.now ≡ Ok solution.down) }
        ensures up { IfOk result (λ solution. neg.ups (⟦<Rules as Stating>⟧.stated
            self.entry.rules.now) self.entry.design.now self.entry.edges.now ≡ Ok solution.up) }
        ensures only { IfOk result (neg.IsOnlySolution (⟦<Rules as Stating>⟧.stated
            self.entry.rules.now) self.entry.design.now self.entry.edges.now) }
        ensures err { IfErr result (neg.IsNegFault (⟦<Rules as Stating>⟧.stated self.entry.rules.now)
            self.entry.design.now self.entry.edges.now) }
    {
        let Lazy {
            design,
            edges,
            rules,
            down_turns,
            down,
            up_turns,
            up,
        } = self;
        let edges = edges.as_slice();
        let down = all_down(alloc, design, edges, rules, &down_turns, down)?;
        let up = all_up(alloc, design, edges, rules, &up_turns, up)?;
        Ok(Solution { down, up })
    }
}

/// What goes down and up all edges of a design, by the rules of its nodes.
///
/// `NegFault::DownRefused` names the first refusal in canonical order, and `NegFault::UpRefused`, where
/// nothing is refused down, the first one in the reversed order.
pub fn negotiate(
    alloc: Global,
    design: &Design,
    edges: &Edges,
    rules: &Rules,
) -> Result<Solution, NegFault>
    requires nodes { length design.now.nodes < 2 ^ 32 }
    requires edges { length edges.now < 2 ^ 32 }
    requires negotiable { neg.IsNegotiable design.now edges.now }
    ensures down { IfOk result (λ solution. neg.downs (⟦<Rules as Stating>⟧.stated rules.now) design.now
        edges.now ≡ Ok solution.down) }
    ensures up { IfOk result (λ solution. neg.ups (⟦<Rules as Stating>⟧.stated rules.now) design.now
        edges.now ≡ Ok solution.up) }
    ensures only { IfOk result (neg.IsOnlySolution (⟦<Rules as Stating>⟧.stated rules.now) design.now
        edges.now) }
    ensures err { IfErr result (neg.IsNegFault (⟦<Rules as Stating>⟧.stated rules.now) design.now
        edges.now) }
{
    let Ok(lazy) = Lazy::new(alloc, design, edges, rules) else {
        return Err(NegFault::Memory);
    };
    lazy.finish(alloc)
}
