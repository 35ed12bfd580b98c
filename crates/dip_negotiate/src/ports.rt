ghost use Rattle.std.specs.Prelude.{◌≡◌, IfOk};
ghost use Rattle.dip_rule.specs.Stated.{Answers};
ghost use Rattle.dip_negotiate.specs.Negotiation as spec;

use dip_graph::{Edge, NodeEntry, NodeKind, kind_at};
use dip_lists::{Few, Items, Memory};
use dip_rule::{RuleFault, Rules, Stating};
use dip_sets::IdRange;
use std::alloc::Global;
use tl_params::{AddressLists, Addresses, DownPort, Master, Ops, Slave, UpPort};

// A source's own port: one master with the ids from 0 on.
fn source_port(
    alloc: Global,
    node: u32,
    port: u32,
    ids: u32,
    emits: &Ops,
) -> Result<DownPort, Memory>
    ensures { IfOk result (λ down. down ≡ spec.source_port node port ids emits.now) }
{
    let mut masters = Items::new(alloc);
    masters.push(Master {
        node,
        port,
        ids: IdRange { start: 0, end: ids },
        emits: *emits,
    })?;
    Ok(DownPort { masters })
}

// A copy of the sets of a port, none where there is no such port.
fn addresses_at(alloc: Global, ports: &AddressLists, port: u32) -> Result<Addresses, Memory>
    ensures { IfOk result (λ sets. sets ≡ spec.addresses_at ports.now port) }
{
    match ports.get(port as usize) {
        Some(sets) => sets.copy(alloc),
        None => Ok(Few::new(alloc)),
    }
}

// A sink's own port: one slave with the addresses of that port.
fn sink_port(
    alloc: Global,
    edge: &Edge,
    beat: u32,
    ports: &AddressLists,
    supports: &Ops,
) -> Result<UpPort, Memory>
    ensures { IfOk result (λ up. up ≡ spec.sink_port edge.now.to edge.now.to_port beat ports.now
        supports.now) }
{
    let mut slaves = Items::new(alloc);
    slaves.push(Slave {
        node: edge.to,
        port: edge.to_port,
        addresses: addresses_at(alloc, ports, edge.to_port)?,
        supports: *supports,
    })?;
    Ok(UpPort { slaves, beat })
}

/// What goes down an edge, from what goes down those that its source node is asked about.
pub fn says_down(
    alloc: Global,
    rules: &Rules,
    nodes: &[NodeEntry],
    edge: &Edge,
    ins: &[DownPort],
) -> Result<DownPort, RuleFault>
    ensures { Answers (spec.says_down (⟦<Rules as Stating>⟧.stated rules.now) nodes.now edge.now
        ins.now) result }
{
    match kind_at(nodes, edge.from) {
        Some(NodeKind::Source { ids, emits, .. }) => {
            Ok(source_port(alloc, edge.from, edge.from_port, *ids, emits)?)
        }
        Some(NodeKind::Ruled { kind, args }) => rules.ask_down(kind, args, ins),
        _ => Err(RuleFault::Refused(0)),
    }
}

/// What goes up an edge, from what comes up those that its sink node is asked about.
pub fn says_up(
    alloc: Global,
    rules: &Rules,
    nodes: &[NodeEntry],
    edge: &Edge,
    outs: &[UpPort],
) -> Result<UpPort, RuleFault>
    ensures { Answers (spec.says_up (⟦<Rules as Stating>⟧.stated rules.now) nodes.now edge.now outs.now)
        result }
{
    match kind_at(nodes, edge.to) {
        Some(
            NodeKind::Sink {
                beat,
                ports,
                supports,
            },
        ) => Ok(sink_port(alloc, edge, *beat, ports, supports)?),
        Some(NodeKind::Ruled { kind, args }) => rules.ask_up(kind, args, outs),
        _ => Err(RuleFault::Refused(0)),
    }
}
