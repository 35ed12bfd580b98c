ghost use Rattle.std.specs.Prelude.{◌≡◌, ◌++◌, OnOk};
ghost use Rattle.soc_report.specs.MapText.{all_lines, kind_lines, lines_if_from, node_lines, port_line};
ghost use Rattle.soc_report.specs.MapText.{port_lines};

use crate::slaves::add_slave_lines;
use dip_graph::{Edge, NodeEntry, NodeKind};
use dip_lists::Memory;
use dip_text::Text;
use tl_params::UpPort;

// Adds the line of an out port of a source with so many ids, whose bus has so many bytes.
#[tactic(auto, unfolding(crate::specs::MapText::port_line))]
fn add_port_line(text: &mut Text, name: &[u8], port: u32, ids: u32, beat: u32) -> Result<(), Memory>
    ensures { OnOk result (text.new ≡ text.old ++ port_line name.now port ids beat) }
{
    text.add(b"port ")?;
    text.add(name)?;
    text.add(b".")?;
    text.add_number(u64::from(port))?;
    text.add(b" ids ")?;
    text.add_number(u64::from(ids))?;
    text.add(b" beat ")?;
    text.add_number(u64::from(beat))?;
    text.add(b"\n")
}

// Adds the line of an edge's out port, and those of what it reaches.
#[tactic(auto, unfolding(crate::specs::MapText::port_lines))]
fn add_port_lines(
    text: &mut Text,
    nodes: &[NodeEntry],
    name: &[u8],
    ids: u32,
    edge: &Edge,
    up: &UpPort,
) -> Result<(), Memory>
    ensures { OnOk result (text.new ≡ text.old ++ port_lines nodes.now name.now ids edge.now up.now) }
{
    add_port_line(text, name, edge.from_port, ids, up.beat)?;
    add_slave_lines(text, nodes, up.slaves.as_slice())
}

// Adds the lines of an edge's out port, where the edge comes from the node with this number.
#[tactic(auto, unfolding(crate::specs::MapText::lines_if_from))]
fn add_lines_if_from(
    text: &mut Text,
    nodes: &[NodeEntry],
    number: usize,
    name: &[u8],
    ids: u32,
    edge: &Edge,
    up: &UpPort,
) -> Result<(), Memory>
    ensures { OnOk result (text.new ≡ text.old ++ lines_if_from nodes.now number name.now ids edge.now
        up.now) }
{
    if edge.from as usize == number {
        add_port_lines(text, nodes, name, ids, edge, up)
    } else {
        Ok(())
    }
}

// Adds the lines of a source's ports, which are numbered in the order of edges.
fn add_node_lines(
    text: &mut Text,
    nodes: &[NodeEntry],
    number: usize,
    name: &[u8],
    ids: u32,
    edges: &[Edge],
    ups: &[UpPort],
) -> Result<(), Memory>
    ensures { OnOk result (text.new ≡ text.old ++ node_lines nodes.now number name.now ids edges.now
        ups.now) }
{
    for at in 0..edges.len().min(ups.len()) {
        add_lines_if_from(text, nodes, number, name, ids, &edges[at], &ups[at])?;
    }
    Ok(())
}

// Adds the lines of a node's ports where it is a source.
fn add_kind_lines(
    text: &mut Text,
    nodes: &[NodeEntry],
    number: usize,
    node: &NodeEntry,
    edges: &[Edge],
    ups: &[UpPort],
) -> Result<(), Memory>
    ensures { OnOk result (text.new ≡ text.old ++ kind_lines nodes.now number node.now.name node.now.kind
        edges.now ups.now) }
{
    match &node.kind {
        NodeKind::Source { ids, .. } => {
            add_node_lines(text, nodes, number, node.name.bytes(), *ids, edges, ups)
        }
        NodeKind::Sink { .. } | NodeKind::Ruled { .. } => Ok(()),
    }
}

/// Puts the lines of all ports at the end of a text, by node and then by port.
pub fn add_all_lines(
    text: &mut Text,
    nodes: &[NodeEntry],
    edges: &[Edge],
    ups: &[UpPort],
) -> Result<(), Memory>
    ensures { OnOk result (text.new ≡ text.old ++ all_lines nodes.now 0 nodes.now edges.now ups.now) }
{
    for (number, node) in nodes.iter().enumerate() {
        add_kind_lines(text, nodes, number, node, edges, ups)?;
    }
    Ok(())
}
