ghost use Rattle.std.specs.Prelude.{◌≡◌, ◌≢◌, AllPairs, IfOk};
ghost use Rattle.dip_graph.specs.declared.design.NodeEntry.{NodeEntry as Node};
ghost use Rattle.soc_stimulus.specs.Ports as spec;

use dip_graph::NodeEntry;
use dip_lists::Memory;
use dip_names::Names;
use std::alloc::Global;

/// The names of nodes by their numbers.
pub fn names_of_nodes(alloc: Global, nodes: &[NodeEntry]) -> Result<Names, Memory>
    requires { AllPairs (λ (a b : Node). a.name ≢ b.name) nodes.now }
    ensures { IfOk result (λ names. names ≡ spec.names_of_nodes nodes.now) }
{
    let mut names = Names::new(alloc);
    for node in nodes {
        names.add(node.name.as_str())?;
    }
    Ok(names)
}
