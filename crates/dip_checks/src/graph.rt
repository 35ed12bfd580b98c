ghost use Rattle.std.specs.Prelude.{◌≡◌, ◌<◌, ◌≤◌, ◌^◌, None, length, IfOk, IfErr, OnOk};
ghost use Rattle.dip_lists.specs.First.{first, first_failing, places};
ghost use Rattle.dip_graph.specs.Faults.{IsFaultAt, IsFaultOf};
ghost use Rattle.dip_graph.specs.Orders.{left_out};
ghost use Rattle.dip_stars.specs.Edges.{IsStarFault, design_counts};
ghost use Rattle.dip_checks.specs.Checks as spec;

use dip_graph::{BindEntry, Design, Edges, Fault, NodeEntry, NodeKind, OrderFault, kind_at, order};
use dip_rule::{Rules, Stating};
use dip_stars::{StarFault, resolve};
use std::alloc::Global;

// Whether the kind of a node has no rule.
fn kind_is_unruled(rules: &Rules, kind: &NodeKind) -> bool
    ensures { result ≡ spec.kind_is_unruled (⟦<Rules as Stating>⟧.stated rules.now) kind.now }
{
    match kind {
        NodeKind::Ruled { kind, .. } => rules.template_of(kind).is_none(),
        _ => false,
    }
}

// The least node whose kind has no rule.
fn unruled_node(rules: &Rules, nodes: &[NodeEntry]) -> Option<u64>
    ensures { result ≡ first (places (λ number node. spec.kind_is_unruled (⟦<Rules as Stating>⟧.stated
        rules.now) node.kind) 0 nodes.now) }
{
    for (number, node) in nodes.iter().enumerate() {
        if kind_is_unruled(rules, &node.kind) {
            return Some(number as u64);
        }
    }
    None
}

// Check 5: each kind has a rule.
fn kinds_have_rules(design: &Design, rules: &Rules) -> Result<(), Fault>
    ensures passes { OnOk result (first (spec.unruled_nodes (⟦<Rules as Stating>⟧.stated rules.now)
        design.now) ≡ None) }
    ensures err { IfErr result (IsFaultAt 5 (spec.unruled_nodes (⟦<Rules as Stating>⟧.stated rules.now)
        design.now)) }
{
    match unruled_node(rules, design.nodes.as_slice()) {
        Some(subject) => Err(Fault::Check { number: 5, subject }),
        None => Ok(()),
    }
}

// Whether a bind is from a sink or to a source.
fn bind_is_turned(nodes: &[NodeEntry], bind: &BindEntry) -> bool
    ensures { result ≡ spec.bind_is_turned nodes.now bind.now }
{
    let from_sink = matches!(kind_at(nodes, bind.from), Some(kind) if kind.is_sink());
    let to_source = matches!(kind_at(nodes, bind.to), Some(kind) if kind.is_source());
    from_sink || to_source
}

// The least bind that is.
fn turned_bind(nodes: &[NodeEntry], binds: &[BindEntry]) -> Option<u64>
    ensures { result ≡ first (places (λ number b. spec.bind_is_turned nodes.now b) 0 binds.now) }
{
    for (number, bind) in binds.iter().enumerate() {
        if bind_is_turned(nodes, bind) {
            return Some(number as u64);
        }
    }
    None
}

// Check 6: no bind is from a sink or to a source.
fn binds_are_straight(design: &Design) -> Result<(), Fault>
    ensures passes { OnOk result (first (spec.turned_binds design.now) ≡ None) }
    ensures err { IfErr result (IsFaultAt 6 (spec.turned_binds design.now)) }
{
    match turned_bind(design.nodes.as_slice(), design.binds.as_slice()) {
        Some(subject) => Err(Fault::Check { number: 6, subject }),
        None => Ok(()),
    }
}

// Check 7: binds make no cycle.
fn binds_make_no_cycle(alloc: Global, design: &Design) -> Result<(), Fault>
    requires { length design.now.nodes < 2 ^ 32 }
    ensures passes { OnOk result (first (left_out design.now) ≡ None) }
    ensures err { IfErr result (IsFaultAt 7 (left_out design.now)) }
{
    match order(alloc, design) {
        Ok(_) => Ok(()),
        Err(OrderFault::Cycle { node }) => Err(Fault::Check {
            number: 7,
            subject: u64::from(node),
        }),
        Err(OrderFault::Memory) => Err(Fault::Memory),
    }
}

// A fault of stars as one of the checks 8 to 10.
#[tactic(auto, using(crate::proofs::Stars::failures))]
fn star_fault(design: &Design, rules: &Rules, fault: StarFault) -> Fault
    requires { IsStarFault (⟦<Rules as Stating>⟧.stated rules.now) design.now.nodes (design_counts
        (⟦<Rules as Stating>⟧.stated rules.now) design.now) fault }
    ensures { IsFaultOf (first_failing (spec.star_checks (⟦<Rules as Stating>⟧.stated rules.now)
        design.now)) result }
{
    match fault {
        StarFault::StarsWait { bind } => Fault::Check {
            number: 8,
            subject: u64::from(bind),
        },
        StarFault::Arity { node } => Fault::Check {
            number: 9,
            subject: u64::from(node),
        },
        StarFault::TooManyEdges { count } => Fault::Check {
            number: 10,
            subject: count,
        },
        StarFault::Memory => Fault::Memory,
    }
}

// Checks 8 to 10: the stars of binds are decided, binds sum up at each node, and make at most 1,024 edges.
#[tactic(auto, using(crate::proofs::Stars::all_resolved))]
fn edges_of(alloc: Global, design: &Design, rules: &Rules) -> Result<Edges, Fault>
    requires nodes { length design.now.nodes < 2 ^ 32 }
    requires binds { length design.now.binds < 2 ^ 32 }
    ensures ok { IfOk result (λ edges. edges ≡ spec.edges_in (⟦<Rules as Stating>⟧.stated rules.now)
        design.now) }
    ensures few { IfOk result (λ edges. length edges ≤ 1024) }
    ensures passes { IfOk result (λ _. first_failing (spec.star_checks (⟦<Rules as Stating>⟧.stated
        rules.now) design.now) ≡ None) }
    ensures err { IfErr result (IsFaultOf (first_failing (spec.star_checks (⟦<Rules as Stating>⟧.stated
        rules.now) design.now))) }
{
    match resolve(alloc, design, rules) {
        Ok(edges) => Ok(edges),
        Err(fault) => Err(star_fault(design, rules, fault)),
    }
}

/// The edges of a design, or the first of the checks 5 to 10 that fails.
pub fn graph(alloc: Global, design: &Design, rules: &Rules) -> Result<Edges, Fault>
    requires nodes { length design.now.nodes < 2 ^ 32 }
    requires binds { length design.now.binds < 2 ^ 32 }
    ensures ok { IfOk result (λ edges. edges ≡ spec.edges_in (⟦<Rules as Stating>⟧.stated rules.now)
        design.now) }
    ensures acyclic { IfOk result (λ _. first (left_out design.now) ≡ None) }
    ensures few { IfOk result (λ edges. length edges ≤ 1024) }
    ensures passes { IfOk result (λ _. first_failing (spec.graph_checks (⟦<Rules as Stating>⟧.stated
        rules.now) design.now) ≡ None) }
    ensures err { IfErr result (IsFaultOf (first_failing (spec.graph_checks (⟦<Rules as Stating>⟧.stated
        rules.now) design.now))) }
{
    kinds_have_rules(design, rules)?;
    binds_are_straight(design)?;
    binds_make_no_cycle(alloc, design)?;
    edges_of(alloc, design, rules)
}
