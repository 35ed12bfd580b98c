ghost use Rattle.std.specs.Prelude.{◌≡◌, ◌<◌, ◌≤◌, ◌^◌, ℕ, List, length, IfOk};
ghost use Rattle.dip_graph.specs.declared.design.NodeEntry.{NodeEntry};
ghost use Rattle.dip_graph.specs.declared.edges.Edge.{Edge};
ghost use Rattle.dip_rule.specs.Stated.{Answers, StatedRule};
ghost use Rattle.dip_negotiate.specs.declared.steps.End.{End};
ghost use Rattle.dip_negotiate.specs.Negotiation as spec;
ghost use Rattle.dip_negotiate.specs.Places as ends;
ghost use Rattle.dip_negotiate.specs.Passes.{Pass};

use crate::asking::{asks_down, asks_up};
use crate::ports::{says_down, says_up};
use crate::steps::{End, sink_end, source_end};
use dip_graph::{Edge, NodeEntry, Numbers};
use dip_lists::{Duplicate, Memory};
use dip_rule::{RuleFault, Rules, Stating};
use std::alloc::Global;
use tl_params::{DownPort, UpPort};

/// A port that goes down or up edges by what rules answer.
pub trait Negotiated: Duplicate {
    ghost pass: { List StatedRule → List NodeEntry → List Edge → Pass Self };

    ghost unknown: { Self };

    ghost near: { Edge → End };

    ghost count: { Self → ℕ };

    ghost MOST_ENTRIES: { ℕ };

    /// How many masters or slaves are kept together at most.
    const MOST_ENTRIES: usize;

    /// The end of an edge at the node that makes its port.
    fn near(edge: &Edge) -> End
        ensures { result ≡ near edge.now };

    /// How many masters or slaves the port has.
    fn entries(&self) -> usize
        ensures { result ≡ count self.now };

    /// The numbers of the edges of which the port of an edge is made.
    fn asks(
        alloc: Global,
        rules: &Rules,
        nodes: &[NodeEntry],
        edges: &[Edge],
        edge: &Edge,
    ) -> Result<Numbers, Memory>
        requires { length edges.now < 2 ^ 32 }
        ensures { IfOk result (λ numbers. numbers ≡ (pass (⟦<Rules as Stating>⟧.stated rules.now)
            nodes.now edges.now).asks edge.now) };

    /// What is stated of an edge from the ports of those.
    fn says(
        alloc: Global,
        rules: &Rules,
        nodes: &[NodeEntry],
        edges: &[Edge],
        edge: &Edge,
        ports: &[Self],
    ) -> Result<Self, RuleFault>
        ensures { Answers ((pass (⟦<Rules as Stating>⟧.stated rules.now) nodes.now edges.now).says
            edge.now ports.now) result };
}

impl Negotiated for DownPort {
    ghost pass = { spec.down_pass };

    ghost unknown = { spec.no_masters };

    ghost near = { ends.source_end };

    ghost count = { λ port. length port.masters };

    ghost MOST_ENTRIES = { 8388608 };

    // A master has 64 bytes, so all are half a gigabyte. An accepted design has at most 1,024 edges with
    // 1,024 masters each, since all ids are below 1,024.
    const MOST_ENTRIES: usize = 8_388_608;

    fn near(edge: &Edge) -> End {
        source_end(edge)
    }

    fn entries(&self) -> usize {
        self.masters.len()
    }

    fn asks(
        alloc: Global,
        rules: &Rules,
        nodes: &[NodeEntry],
        edges: &[Edge],
        edge: &Edge,
    ) -> Result<Numbers, Memory> {
        asks_down(alloc, rules, nodes, edges, edge)
    }

    fn says(
        alloc: Global,
        rules: &Rules,
        nodes: &[NodeEntry],
        _edges: &[Edge],
        edge: &Edge,
        ports: &[DownPort],
    ) -> Result<DownPort, RuleFault> {
        says_down(alloc, rules, nodes, edge, ports)
    }
}

impl Negotiated for UpPort {
    ghost pass = { spec.up_pass };

    ghost unknown = { spec.no_slaves };

    ghost near = { ends.sink_end };

    ghost count = { λ port. length port.slaves };

    ghost MOST_ENTRIES = { 2097152 };

    // A slave has 144 bytes, so all are a third of a gigabyte. An accepted design has at most 1,024 edges
    // with 1,024 slaves each, since each slave is a port of a sink and no edge shows one twice.
    const MOST_ENTRIES: usize = 2_097_152;

    fn near(edge: &Edge) -> End {
        sink_end(edge)
    }

    fn entries(&self) -> usize {
        self.slaves.len()
    }

    fn asks(
        alloc: Global,
        rules: &Rules,
        nodes: &[NodeEntry],
        edges: &[Edge],
        edge: &Edge,
    ) -> Result<Numbers, Memory> {
        asks_up(alloc, rules, nodes, edges, edge)
    }

    fn says(
        alloc: Global,
        rules: &Rules,
        nodes: &[NodeEntry],
        _edges: &[Edge],
        edge: &Edge,
        ports: &[UpPort],
    ) -> Result<UpPort, RuleFault> {
        says_up(alloc, rules, nodes, edge, ports)
    }
}
