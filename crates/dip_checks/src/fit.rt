ghost use Rattle.std.specs.Prelude.{◌≡◌, ◌<◌, ◌^◌, None, length, not, ◌==◌, IfOk, IfErr, OnOk};
ghost use Rattle.std.specs.List.{list_any};
ghost use Rattle.dip_lists.specs.First.{first, first_failing};
ghost use Rattle.dip_graph.specs.Faults.{IsFaultAt, IsFaultOf};
ghost use Rattle.dip_checks.specs.Checks as spec;
ghost use Rattle.dip_checks.specs.Weights.{weight};

use crate::weights::weight;
use dip_graph::{Edge, Fault, NodeEntry, NodeKind, edges_at, edges_from, edges_to, ruled_kind_at};
use dip_lists::Memory;
use dip_rule::{Rules, Stating};
use std::alloc::Global;
use tl_params::{Args, DownPort, UpPort};
use tl_rules::fits;

/// The most weight of a design.
const MOST_WEIGHT: u64 = 65_536;

fn beat_at(ups: &[UpPort], edge: u32) -> u32
    ensures { result ≡ spec.beat_at ups.now edge }
{
    match ups.get(edge as usize) {
        Some(up) => up.beat,
        None => 0,
    }
}

// Whether one of some edges has a bus of another width than this edge.
fn has_another_beat(ups: &[UpPort], edge: u32, others: &[u32]) -> bool
    ensures { result ≡ list_any (λ other. not (spec.beat_at ups.now other == spec.beat_at ups.now edge))
        others.now }
{
    others
        .iter()
        .any(|other| beat_at(ups, *other) != beat_at(ups, edge))
}

fn beats_differ(ups: &[UpPort], edges: &[u32]) -> bool
    ensures { result ≡ spec.beats_differ ups.now edges.now }
{
    match edges {
        [] => false,
        [edge, others @ ..] => has_another_beat(ups, *edge, others),
    }
}

// Whether a node is a nexus whose edges haven't all the same width of the bus.
fn nexus_differs(
    alloc: Global,
    rules: &Rules,
    nodes: &[NodeEntry],
    edges: &[Edge],
    ups: &[UpPort],
    node: u32,
) -> Result<bool, Memory>
    requires { length edges.now < 2 ^ 32 }
    ensures { IfOk result (λ differs. differs ≡ spec.nexus_differs (⟦<Rules as Stating>⟧.stated
        rules.now) nodes.now edges.now ups.now node) }
{
    if !rules.is_nexus_kind(ruled_kind_at(nodes, node)) {
        return Ok(false);
    }
    let numbers = edges_at(alloc, node, edges)?;
    Ok(beats_differ(ups, numbers.as_slice()))
}

// Check 16: all edges of a nexus have the same width of the bus.
fn beats_are_equal(
    alloc: Global,
    rules: &Rules,
    nodes: &[NodeEntry],
    edges: &[Edge],
    ups: &[UpPort],
) -> Result<(), Fault>
    requires edges { length edges.now < 2 ^ 32 }
    requires nodes { length nodes.now < 2 ^ 32 }
    ensures passes { OnOk result (first (spec.differing_nodes (⟦<Rules as Stating>⟧.stated rules.now)
        nodes.now edges.now ups.now) ≡ None) }
    ensures err { IfErr result (IsFaultAt 16 (spec.differing_nodes (⟦<Rules as Stating>⟧.stated
        rules.now) nodes.now edges.now ups.now)) }
{
    for (node, _) in nodes.iter().enumerate() {
        if nexus_differs(alloc, rules, nodes, edges, ups, node as u32)? {
            return Err(Fault::Check {
                number: 16,
                subject: node as u64,
            });
        }
    }
    Ok(())
}

// Whether what is built for a node doesn't fit the ports of its edges.
fn kind_misfits(
    alloc: Global,
    rules: &Rules,
    node: u32,
    kind: &NodeKind,
    edges: &[Edge],
    downs: &[DownPort],
    ups: &[UpPort],
) -> Result<bool, Memory>
    requires { length edges.now < 2 ^ 32 }
    ensures { IfOk result (λ misfits. misfits ≡ spec.kind_misfits (⟦<Rules as Stating>⟧.stated
        rules.now) node kind.now edges.now downs.now
        ups.now) }
{
    let NodeKind::Ruled { kind, args } = kind else {
        return Ok(false);
    };
    let Some(template) = rules.template_of(kind) else {
        return Ok(false);
    };
    let ins = edges_to(alloc, node, edges)?;
    let outs = edges_from(alloc, node, edges)?;
    Ok(!fits(template, args, ins.as_slice(), outs.as_slice(), downs, ups))
}

// Check 17: what is built for each node fits its ports.
fn templates_fit(
    alloc: Global,
    rules: &Rules,
    nodes: &[NodeEntry],
    edges: &[Edge],
    downs: &[DownPort],
    ups: &[UpPort],
) -> Result<(), Fault>
    requires edges { length edges.now < 2 ^ 32 }
    requires nodes { length nodes.now < 2 ^ 32 }
    ensures passes { OnOk result (first (spec.misfitting_nodes (⟦<Rules as Stating>⟧.stated rules.now)
        nodes.now edges.now downs.now ups.now) ≡
        None) }
    ensures err { IfErr result (IsFaultAt 17 (spec.misfitting_nodes (⟦<Rules as Stating>⟧.stated
        rules.now) nodes.now edges.now downs.now ups.now)) }
{
    for (node, entry) in nodes.iter().enumerate() {
        if kind_misfits(alloc, rules, node as u32, &entry.kind, edges, downs, ups)? {
            return Err(Fault::Check {
                number: 17,
                subject: node as u64,
            });
        }
    }
    Ok(())
}

// Check 18: the weight is at most 65,536.
fn weight_is_borne(
    alloc: Global,
    rules: &Rules,
    nodes: &[NodeEntry],
    edges: &[Edge],
    downs: &[DownPort],
    ups: &[UpPort],
) -> Result<(), Fault>
    requires edges { length edges.now < 2 ^ 32 }
    requires nodes { length nodes.now < 2 ^ 32 }
    ensures passes { OnOk result (first (spec.overweight (weight (⟦<Rules as Stating>⟧.stated rules.now)
        nodes.now edges.now downs.now ups.now)) ≡
        None) }
    ensures err { IfErr result (IsFaultAt 18 (spec.overweight (weight (⟦<Rules as Stating>⟧.stated
        rules.now) nodes.now edges.now downs.now ups.now))) }
{
    let subject = weight(alloc, rules, nodes, edges, downs, ups)?;
    if subject > MOST_WEIGHT {
        Err(Fault::Check {
            number: 18,
            subject,
        })
    } else {
        Ok(())
    }
}

/// The first of the checks 16 to 18 that fails, if one does.
pub fn network_fits(
    alloc: Global,
    rules: &Rules,
    nodes: &[NodeEntry],
    edges: &[Edge],
    downs: &[DownPort],
    ups: &[UpPort],
) -> Result<(), Fault>
    requires edges { length edges.now < 2 ^ 32 }
    requires nodes { length nodes.now < 2 ^ 32 }
    ensures passes { OnOk result (first_failing (spec.fit_checks (⟦<Rules as Stating>⟧.stated rules.now)
        nodes.now edges.now downs.now ups.now) ≡
        None) }
    ensures err { IfErr result (IsFaultOf (first_failing (spec.fit_checks (⟦<Rules as Stating>⟧.stated
        rules.now) nodes.now edges.now downs.now ups.now))) }
{
    beats_are_equal(alloc, rules, nodes, edges, ups)?;
    templates_fit(alloc, rules, nodes, edges, downs, ups)?;
    weight_is_borne(alloc, rules, nodes, edges, downs, ups)
}
