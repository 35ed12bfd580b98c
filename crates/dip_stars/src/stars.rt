ghost use Rattle.std.specs.Prelude.{◌≡◌, ◌<◌, ◌≤◌, ◌^◌, None, length, IfOk, IfErr, OnOk};
ghost use Rattle.std.specs.List.{list_any};
ghost use Rattle.dip_lists.specs.First.{first};
ghost use Rattle.dip_stars.specs.Edges as spec;

use crate::edges::{edges_of, total};
use crate::rounds::{Counted, counts_of, decider, known_number, signed, sum_from, sum_to};
use dip_graph::{Design, Edges, NodeEntry, NodeKind, ruled_kind_at};
use dip_lists::Memory;
use dip_rule::{Rules, Stating};
use std::alloc::Global;
use thiserror::Error;

/// The most edges of a design.
const MOST_EDGES: u64 = 1024;

/// Why binds make no edges.
#[derive(Clone, Copy, Debug, PartialEq, Eq, Error)]
pub enum StarFault {
    /// The least bind that isn't known after as many rounds as there are binds.
    #[error("bind {bind} waits for binds that wait for each other")]
    StarsWait { bind: u32 },
    /// The least node whose binds don't sum up.
    #[error("the binds of node {node} don't sum up")]
    Arity { node: u32 },
    /// The number of edges, which is above 1,024.
    #[error("{count} edges")]
    TooManyEdges { count: u64 },
    #[error("out of memory")]
    Memory,
}

impl From<Memory> for StarFault {
    ghost use Rattle.std.specs.Prelude.{◌≡◌};
    ghost use Rattle.dip_stars.specs.declared.stars.StarFault.TheVariants as fault;

    ghost from_gives = { λ _ e. e ≡ fault.Memory };

    fn from(_: Memory) -> StarFault {
        StarFault::Memory
    }
}

// The least bind that isn't known.
fn waiting(counts: &[Counted]) -> Option<u32>
    requires { length counts.now < 2 ^ 32 }
    ensures { result ≡ first (spec.waiting counts.now) }
{
    for (number, count) in counts.iter().enumerate() {
        if count.number.is_none() {
            return Some(number as u32);
        }
    }
    None
}

fn decides_negative(node: u32, count: &Counted) -> bool
    ensures { result ≡ spec.decides_negative node count.now }
{
    decider(&count.bind) == Some(node) && known_number(count) < 0
}

fn is_negative_at(node: u32, counts: &[Counted]) -> bool
    ensures { result ≡ list_any (spec.decides_negative node) counts.now }
{
    counts.iter().any(|count| decides_negative(node, count))
}

// Whether a node with a rule has too few edges on a side, or not as many on the one as on the other.
fn ruled_is_unfilled(nexus: bool, ins: i64, outs: i64) -> bool
    ensures { result ≡ spec.ruled_is_unfilled nexus ins outs }
{
    if nexus {
        ins < 1 || outs < 1
    } else {
        ins != outs || ins == 0
    }
}

// Whether the binds of a node don't sum up to what its kind needs.
fn kind_is_unfilled(
    rules: &Rules,
    nodes: &[NodeEntry],
    counts: &[Counted],
    node: u32,
    kind: &NodeKind,
) -> Result<bool, Memory>
    ensures { IfOk result (λ fails. fails ≡ spec.kind_is_unfilled (⟦<Rules as Stating>⟧.stated
        rules.now) nodes.now counts.now node kind.now) }
{
    match kind {
        NodeKind::Source { ports, .. } => Ok(sum_from(node, counts)? != *ports as i64),
        NodeKind::Sink { ports, .. } => Ok(sum_to(node, counts)? != signed(ports.len())?),
        NodeKind::Ruled { .. } => {
            let ins = sum_to(node, counts)?;
            let outs = sum_from(node, counts)?;
            let nexus = rules.is_nexus_kind(ruled_kind_at(nodes, node));
            Ok(ruled_is_unfilled(nexus, ins, outs))
        }
    }
}

// Whether a node decides a negative number, or its binds don't sum up.
fn node_is_unfilled(
    rules: &Rules,
    nodes: &[NodeEntry],
    counts: &[Counted],
    node: u32,
    entry: &NodeEntry,
) -> Result<bool, Memory>
    ensures { IfOk result (λ fails. fails ≡ spec.node_is_unfilled (⟦<Rules as Stating>⟧.stated
        rules.now) nodes.now counts.now node entry.now) }
{
    if is_negative_at(node, counts) {
        Ok(true)
    } else {
        kind_is_unfilled(rules, nodes, counts, node, &entry.kind)
    }
}

// The least node that fails so.
fn unfilled(rules: &Rules, nodes: &[NodeEntry], counts: &[Counted]) -> Result<Option<u32>, Memory>
    requires { length nodes.now < 2 ^ 32 }
    ensures { IfOk result (λ node. node ≡ first (spec.unfilled (⟦<Rules as Stating>⟧.stated rules.now)
        nodes.now counts.now)) }
{
    for (node, entry) in nodes.iter().enumerate() {
        if node_is_unfilled(rules, nodes, counts, node as u32, entry)? {
            return Ok(Some(node as u32));
        }
    }
    Ok(None)
}

// Each bind is known.
fn all_known(counts: &[Counted]) -> Result<(), StarFault>
    requires { length counts.now < 2 ^ 32 }
    ensures passes { OnOk result (first (spec.waiting counts.now) ≡ None) }
    ensures err { IfErr result (spec.IsWaiting counts.now) }
{
    match waiting(counts) {
        Some(bind) => Err(StarFault::StarsWait { bind }),
        None => Ok(()),
    }
}

// No node decides a negative number, and the binds of each sum up.
fn all_filled(rules: &Rules, nodes: &[NodeEntry], counts: &[Counted]) -> Result<(), StarFault>
    requires { length nodes.now < 2 ^ 32 }
    ensures passes { OnOk result (first (spec.unfilled (⟦<Rules as Stating>⟧.stated rules.now) nodes.now
        counts.now) ≡ None) }
    ensures err { IfErr result (spec.IsUnfilled (⟦<Rules as Stating>⟧.stated rules.now) nodes.now
        counts.now) }
{
    match unfilled(rules, nodes, counts)? {
        Some(node) => Err(StarFault::Arity { node }),
        None => Ok(()),
    }
}

// Binds make at most 1,024 edges.
fn few_edges(counts: &[Counted]) -> Result<(), StarFault>
    ensures passes { OnOk result (first (spec.excess counts.now) ≡ None) }
    ensures err { IfErr result (spec.IsExcess counts.now) }
{
    let count = total(counts)?;
    if count > MOST_EDGES {
        Err(StarFault::TooManyEdges { count })
    } else {
        Ok(())
    }
}

/// The edges of a design, in the order of its binds, each bind as often as its number says.
///
/// `StarFault::StarsWait` names the least bind that isn't known after as many rounds as there are binds.
/// Else `StarFault::Arity` names the least node that decides a negative number or whose binds don't sum up,
/// and else `StarFault::TooManyEdges` says how many edges there are where these are more than 1,024.
#[tactic(auto, using(crate::proofs::Few::few_edges))]
pub fn resolve(alloc: Global, design: &Design, rules: &Rules) -> Result<Edges, StarFault>
    requires nodes { length design.now.nodes < 2 ^ 32 }
    requires binds { length design.now.binds < 2 ^ 32 }
    ensures ok { IfOk result (λ edges. edges ≡ spec.edges_of (spec.design_counts
        (⟦<Rules as Stating>⟧.stated rules.now) design.now)) }
    ensures passes { IfOk result (λ _. spec.AreResolved (⟦<Rules as Stating>⟧.stated rules.now)
        design.now.nodes (spec.design_counts (⟦<Rules as Stating>⟧.stated rules.now) design.now)) }
    ensures few { IfOk result (λ edges. length edges ≤ 1024) }
    ensures err { IfErr result (spec.IsStarFault (⟦<Rules as Stating>⟧.stated rules.now)
        design.now.nodes (spec.design_counts (⟦<Rules as Stating>⟧.stated rules.now) design.now)) }
{
    let nodes = design.nodes.as_slice();
    let counts = counts_of(alloc, rules, nodes, design.binds.as_slice())?;
    all_known(counts.as_slice())?;
    all_filled(rules, nodes, counts.as_slice())?;
    few_edges(counts.as_slice())?;
    Ok(edges_of(alloc, counts.as_slice())?)
}
