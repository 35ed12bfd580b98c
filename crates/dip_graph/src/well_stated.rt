ghost use Rattle.std.specs.Prelude.{◌↔◌, ◌≢◌, ◌<◌, ◌≤◌, ◌+◌, ◌^◌, length, All, AllPairs, IsTrue};
ghost use Rattle.dip_sets.specs.Sets.{IsSet};
ghost use Rattle.dip_graph.specs.declared.design.NodeEntry.{NodeEntry};
ghost use Rattle.dip_graph.specs.declared.design.ModuleEntry.{ModuleEntry};
ghost use Rattle.dip_graph.specs.Edges.{HasNodes};
ghost use Rattle.dip_graph.specs.WellStated as spec;

use crate::limits::{
    MOST_ARGS, MOST_ATOMIC, MOST_BINDS, MOST_MODULES, MOST_NAME_BYTES, MOST_NODES, MOST_PORTS,
    MOST_SETS, MOST_SOURCE_IDS,
};
use crate::{BindEntry, Design, ModuleEntry, NodeEntry, NodeKind};
use dip_sets::{AddressSet, Name};
use tl_params::{Addresses, Ops, is_width};

fn is_short(name: &Name) -> bool
    ensures { IsTrue result ↔ spec.IsShortName name.now }
{
    name.bytes().len() <= MOST_NAME_BYTES
}

// ---- nodes

fn has_small_atomics(ops: &Ops) -> bool
    ensures { IsTrue result ↔ spec.HasSmallAtomics ops.now }
{
    ops.arithmetic.max() <= MOST_ATOMIC && ops.logical.max() <= MOST_ATOMIC
}

// Each address set is one.
fn is_set(set: &AddressSet) -> bool
    ensures { IsTrue result ↔ IsSet set.now }
{
    let _base = set.base();
    true
}

fn are_sets(sets: &[AddressSet]) -> bool
    ensures { IsTrue result ↔ All IsSet sets.now }
{
    sets.iter().all(is_set)
}

// Whether a port of a sink has as many address sets as it may have.
fn is_stated_port(sets: &Addresses) -> bool
    ensures { IsTrue result ↔ spec.IsStatedPort sets.now }
{
    1 <= sets.len() && sets.len() <= MOST_SETS && are_sets(sets.as_slice())
}

fn are_stated_ports(ports: &[Addresses]) -> bool
    ensures { IsTrue result ↔ All spec.IsStatedPort ports.now }
{
    ports.iter().all(is_stated_port)
}

// Whether what is said of a node by its kind is within the limits.
fn is_stated_kind(kind: &NodeKind) -> bool
    ensures { IsTrue result ↔ spec.IsStatedKind kind.now }
{
    match kind {
        NodeKind::Source { ports, ids, emits } => {
            1 <= *ports
                && *ports as usize <= MOST_PORTS
                && 1 <= *ids
                && *ids <= MOST_SOURCE_IDS
                && has_small_atomics(emits)
        }
        NodeKind::Sink {
            beat,
            ports,
            supports,
        } => {
            is_width(*beat)
                && 1 <= ports.len()
                && ports.len() <= MOST_PORTS
                && are_stated_ports(ports.as_slice())
                && has_small_atomics(supports)
        }
        NodeKind::Ruled { kind, args } => is_short(kind) && args.len() <= MOST_ARGS,
    }
}

// Whether a node is in one of so many modules and within the limits.
fn is_stated_node(node: &NodeEntry, modules: usize) -> bool
    ensures { IsTrue result ↔ spec.IsStatedNode modules node.now }
{
    is_short(&node.name) && (node.module as usize) < modules && is_stated_kind(&node.kind)
}

fn are_stated_nodes(nodes: &[NodeEntry], modules: usize) -> bool
    ensures { IsTrue result ↔ All (spec.IsStatedNode modules) nodes.now }
{
    nodes.iter().all(|node| is_stated_node(node, modules))
}

// Whether no node of these has this name.
fn is_unlike(name: &Name, nodes: &[NodeEntry]) -> bool
    ensures { IsTrue result ↔ All (λ (node : NodeEntry). node.name ≢ name.now) nodes.now }
{
    nodes.iter().all(|node| !node.name.same(name))
}

// Whether no two nodes have one name.
fn names_differ(nodes: &[NodeEntry]) -> bool
    ensures { IsTrue result ↔ AllPairs (λ (a b : NodeEntry). a.name ≢ b.name) nodes.now }
{
    for (place, node) in nodes.iter().enumerate() {
        if !is_unlike(&node.name, &nodes[..place]) {
            return false;
        }
    }
    true
}

// ---- modules

fn have_short_names(modules: &[ModuleEntry]) -> bool
    ensures { IsTrue result ↔ All (λ (m : ModuleEntry). spec.IsShortName m.name) modules.now }
{
    modules.iter().all(|module| is_short(&module.name))
}

// Whether the parent of each of these modules, of which the first one has this number, has a lower number
// than its own.
fn have_earlier_parents(number: u32, modules: &[ModuleEntry]) -> bool
    requires { number + length modules.now < 2 ^ 32 }
    ensures { IsTrue result ↔ spec.HaveEarlierParents number modules.now }
{
    for (place, module) in modules.iter().enumerate() {
        if module.parent >= number + place as u32 {
            return false;
        }
    }
    true
}

// Whether some modules are the top one of this name and modules with earlier parents.
fn is_tree(name: &Name, modules: &[ModuleEntry]) -> bool
    requires { length modules.now ≤ 256 }
    ensures { IsTrue result ↔ spec.IsTree name.now modules.now }
{
    match modules {
        [] => false,
        [top, others @ ..] => {
            top.name.same(name) && top.parent == 0 && have_earlier_parents(1, others)
        }
    }
}

// ---- binds

fn has_nodes(nodes: &[NodeEntry], bind: &BindEntry) -> bool
    ensures { IsTrue result ↔ HasNodes nodes.now bind.now }
{
    (bind.to as usize) < nodes.len() && (bind.from as usize) < nodes.len()
}

/// Whether each bind names nodes that exist.
pub fn binds_have_nodes(nodes: &[NodeEntry], binds: &[BindEntry]) -> bool
    ensures { IsTrue result ↔ All (HasNodes nodes.now) binds.now }
{
    binds.iter().all(|bind| has_nodes(nodes, bind))
}

/// Whether a design keeps what every design of a file keeps: its counts, numbers and names are within the
/// limits, its modules are a tree, its nodes' names differ, and what is named by a number is there. Takes no
/// memory.
pub fn is_well_stated(design: &Design) -> bool
    ensures { IsTrue result ↔ spec.IsWellStated design.now }
{
    let modules = design.modules.as_slice();
    let nodes = design.nodes.as_slice();
    let binds = design.binds.as_slice();
    is_short(&design.name)
        && modules.len() <= MOST_MODULES + 1
        && is_tree(&design.name, modules)
        && have_short_names(modules)
        && 1 <= nodes.len()
        && nodes.len() <= MOST_NODES
        && are_stated_nodes(nodes, modules.len())
        && names_differ(nodes)
        && binds.len() <= MOST_BINDS
        && binds_have_nodes(nodes, binds)
}
