ghost use Rattle.std.specs.Prelude.{◌≡◌, ◌<◌, ◌^◌, ◌+◌, ◌*◌, ◌/◌, length, IfOk};
ghost use Rattle.tl_rules.specs.Fits.{port_down, port_up};
ghost use Rattle.tl_params.specs.Owners as owners;
ghost use Rattle.dip_checks.specs.Weights as spec;

use dip_graph::{Edge, NodeEntry, NodeKind, edges_from, edges_to};
use dip_lists::Memory;
use dip_rule::{Rules, Stating};
use std::alloc::Global;
use tl_params::{Args, DownPort, Slave, Template, UpPort, largest_end};

// A weight of 2^64 or more counts as want of memory; the checks before this one leave none.
fn plus(a: u64, b: u64) -> Result<u64, Memory>
    ensures { IfOk result (λ sum. sum ≡ a + b) }
{
    match a.checked_add(b) {
        Some(sum) => Ok(sum),
        None => Err(Memory),
    }
}

// A product that doesn't fit counts as want of memory too.
fn times(a: u64, b: u64) -> Result<u64, Memory>
    ensures { IfOk result (λ product. product ≡ a * b) }
{
    match a.checked_mul(b) {
        Some(product) => Ok(product),
        None => Err(Memory),
    }
}

// How many ids come down an edge: they are below this number.
fn end_at(downs: &[DownPort], edge: u32) -> u32
    ensures { result ≡ owners.largest_end (port_down downs.now edge).masters }
{
    match downs.get(edge as usize) {
        Some(down) => largest_end(down),
        None => 0,
    }
}

// The weight of the width adapters below these edges.
fn width_weight(downs: &[DownPort], edges: &[u32]) -> Result<u64, Memory>
    ensures { IfOk result (λ weight. weight ≡ spec.width_weight downs.now edges.now) }
{
    let mut weight = 0;
    for edge in edges {
        weight = plus(weight, 4 + u64::from(end_at(downs, *edge)))?;
    }
    Ok(weight)
}

// 256 divided by the width of the bus, 0 where that is 0.
fn beats_at(ups: &[UpPort], edge: u32) -> u32
    ensures { result ≡ 256 / (port_up ups.now edge).beat }
{
    match ups.get(edge as usize) {
        Some(up) => 256u32.checked_div(up.beat).unwrap_or(0),
        None => 0,
    }
}

// The weight of the fragmenters above these edges.
fn fragmenter_weight(ups: &[UpPort], edges: &[u32]) -> Result<u64, Memory>
    ensures { IfOk result (λ weight. weight ≡ spec.fragmenter_weight ups.now edges.now) }
{
    let mut weight = 0;
    for edge in edges {
        weight = plus(weight, 4 + u64::from(beats_at(ups, *edge)))?;
    }
    Ok(weight)
}

// How many address sets slaves have.
fn set_count(slaves: &[Slave]) -> Result<u64, Memory>
    ensures { IfOk result (λ count. count ≡ spec.set_count slaves.now) }
{
    let mut count = 0;
    for slave in slaves {
        count = plus(count, slave.addresses.len() as u64)?;
    }
    Ok(count)
}

// How many address sets are shown on an edge.
fn sets_at(ups: &[UpPort], edge: u32) -> Result<u64, Memory>
    ensures { IfOk result (λ count. count ≡ spec.set_count (port_up ups.now edge).slaves) }
{
    match ups.get(edge as usize) {
        Some(up) => set_count(up.slaves.as_slice()),
        None => Ok(0),
    }
}

// How many are shown on these edges together.
fn all_sets(ups: &[UpPort], edges: &[u32]) -> Result<u64, Memory>
    ensures { IfOk result (λ count. count ≡ spec.all_sets ups.now edges.now) }
{
    let mut count = 0;
    for edge in edges {
        count = plus(count, sets_at(ups, *edge)?)?;
    }
    Ok(count)
}

// The weight of a crossbar between these edges.
fn xbar_weight(ins: &[u32], outs: &[u32], ups: &[UpPort]) -> Result<u64, Memory>
    ensures { IfOk result (λ weight. weight ≡ length ins.now * (4 * length outs.now + spec.all_sets
        ups.now outs.now)) }
{
    let queues = times(4, outs.len() as u64)?;
    let each = plus(queues, all_sets(ups, outs)?)?;
    times(ins.len() as u64, each)
}

// The weight of what is built from a template between these edges.
fn template_weight(
    template: Template,
    first: u32,
    ins: &[u32],
    outs: &[u32],
    downs: &[DownPort],
    ups: &[UpPort],
) -> Result<u64, Memory>
    ensures { IfOk result (λ weight. weight ≡ spec.template_weight template first ins.now outs.now
        downs.now ups.now) }
{
    match template {
        Template::Buffer => Ok(outs.len() as u64),
        Template::Width => width_weight(downs, ins),
        Template::Fragmenter => fragmenter_weight(ups, outs),
        Template::Shrinker => times(outs.len() as u64, 4 + 2 * u64::from(first)),
        Template::Xbar => xbar_weight(ins, outs, ups),
    }
}

fn first_argument(args: &Args) -> u32
    ensures { result ≡ spec.first_argument args.now }
{
    match args.get(0) {
        Some(first) => *first,
        None => 0,
    }
}

// The weight of what is built for a node.
fn kind_weight(
    alloc: Global,
    rules: &Rules,
    node: u32,
    kind: &NodeKind,
    edges: &[Edge],
    downs: &[DownPort],
    ups: &[UpPort],
) -> Result<u64, Memory>
    requires { length edges.now < 2 ^ 32 }
    ensures { IfOk result (λ weight. weight ≡ spec.kind_weight (⟦<Rules as Stating>⟧.stated rules.now)
        node kind.now edges.now downs.now
        ups.now) }
{
    let NodeKind::Ruled { kind, args } = kind else {
        return Ok(0);
    };
    let Some(template) = rules.template_of(kind) else {
        return Ok(0);
    };
    let ins = edges_to(alloc, node, edges)?;
    let outs = edges_from(alloc, node, edges)?;
    template_weight(
        template,
        first_argument(args),
        ins.as_slice(),
        outs.as_slice(),
        downs,
        ups,
    )
}

// The weight of what is built for all nodes.
fn node_weights(
    alloc: Global,
    rules: &Rules,
    nodes: &[NodeEntry],
    edges: &[Edge],
    downs: &[DownPort],
    ups: &[UpPort],
) -> Result<u64, Memory>
    requires edges { length edges.now < 2 ^ 32 }
    requires nodes { length nodes.now < 2 ^ 32 }
    ensures { IfOk result (λ weight. weight ≡ spec.node_weights (⟦<Rules as Stating>⟧.stated rules.now)
        0 nodes.now edges.now downs.now ups.now) }
{
    let mut weight = 0;
    for (node, entry) in nodes.iter().enumerate() {
        let own = kind_weight(alloc, rules, node as u32, &entry.kind, edges, downs, ups)?;
        weight = plus(weight, own)?;
    }
    Ok(weight)
}

/// The weight of a design with these edges and ports: 8 for each edge, and what is built for its nodes.
pub fn weight(
    alloc: Global,
    rules: &Rules,
    nodes: &[NodeEntry],
    edges: &[Edge],
    downs: &[DownPort],
    ups: &[UpPort],
) -> Result<u64, Memory>
    requires edges { length edges.now < 2 ^ 32 }
    requires nodes { length nodes.now < 2 ^ 32 }
    ensures { IfOk result (λ weight. weight ≡ spec.weight (⟦<Rules as Stating>⟧.stated rules.now)
        nodes.now edges.now downs.now ups.now) }
{
    let built = node_weights(alloc, rules, nodes, edges, downs, ups)?;
    plus(times(8, edges.len() as u64)?, built)
}
