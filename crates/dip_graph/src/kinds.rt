ghost use Rattle.std.specs.Prelude.{◌≡◌};
ghost use Rattle.std.specs.Option.{option_map};
ghost use Rattle.dip_graph.specs.Kinds as spec;

use crate::{NodeEntry, NodeKind};
use dip_sets::Name;

impl NodeKind {
    /// Whether it is a source.
    pub fn is_source(&self) -> bool
        ensures { result ≡ spec.is_source self.now }
    {
        matches!(self, NodeKind::Source { .. })
    }

    /// Whether it is a sink.
    pub fn is_sink(&self) -> bool
        ensures { result ≡ spec.is_sink self.now }
    {
        matches!(self, NodeKind::Sink { .. })
    }
}

/// What the node with a number is; `None` exactly where there is no such node.
pub fn kind_at(nodes: &[NodeEntry], node: u32) -> Option<&NodeKind>
    ensures { option_map (λ kind. kind.now) result ≡ spec.kind_at nodes.now node }
{
    match nodes.get(node as usize) {
        Some(entry) => Some(&entry.kind),
        None => None,
    }
}

/// The name of the kind whose rule makes the ports of the node with a number; `None` where that node is a
/// source or a sink, or there is no such node.
pub fn ruled_kind_at(nodes: &[NodeEntry], node: u32) -> Option<&Name>
    ensures { option_map (λ kind. kind.now) result ≡ spec.ruled_kind_at nodes.now node }
{
    match kind_at(nodes, node) {
        Some(NodeKind::Ruled { kind, .. }) => Some(kind),
        _ => None,
    }
}
