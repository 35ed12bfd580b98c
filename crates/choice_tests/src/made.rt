ghost use Rattle.std.specs.Prelude.{◌≡◌, length, IfOk};
ghost use Rattle.flow_choice.specs.Numbered.{IsNumbered};
ghost use Rattle.flow_core.specs.Built.{IsBuilt};
ghost use Rattle.choice_tests.specs.Nets as spec;

use dip_lists::{Few, Items, Memory};
use dip_sets::{AddressSet, Name, Sizes};
use std::alloc::Global;
use tl_edge::{Bundle, Leaf, Leaves, Plan, PlanEdge, PlanEdges, PlanPort, PlanPorts};
use tl_params::{Ops, Policy, Slave, Slaves, Template};

// A slave with 64 KiB from an address on.
fn memory(alloc: Global, base: u64) -> Result<Slaves, Memory> {
    let mut addresses = Few::new(alloc);
    if let Ok(set) = AddressSet::new(base, 0xffff) {
        addresses.push(set)?;
    }
    let none = Sizes::none();
    let supports = Ops {
        get: none,
        put_full: none,
        put_partial: none,
        arithmetic: none,
        logical: none,
        intent: none,
    };
    let slave = Slave {
        node: 0,
        port: 0,
        addresses,
        supports,
    };
    Ok(Items::from_vec(vec![in alloc; slave]?))
}

// An edge with so many ids.
fn edge(ids: u32, slaves: Slaves) -> PlanEdge
    ensures { result ≡ spec.net_edge ids slaves }
{
    let bundle = Bundle {
        address_bits: 32,
        data_bytes: 8,
        source_bits: 3,
        size_bits: 3,
    };
    PlanEdge {
        bundle,
        slaves,
        ids,
    }
}

// Nine edges, with these slaves behind the crossbars.
fn edges(alloc: Global, ram: Slaves, low: Slaves, high: Slaves) -> Result<PlanEdges, Memory>
    ensures { IfOk result (λ edges. edges ≡ spec.net_edges ram low high) }
{
    let mut edges = Items::new(alloc);
    edges.push(edge(2, Items::new(alloc)))?;
    edges.push(edge(2, Items::new(alloc)))?;
    edges.push(edge(2, Items::new(alloc)))?;
    edges.push(edge(4, ram))?;
    edges.push(edge(2, Items::new(alloc)))?;
    edges.push(edge(2, Items::new(alloc)))?;
    edges.push(edge(2, Items::new(alloc)))?;
    edges.push(edge(8, low))?;
    edges.push(edge(8, high))?;
    Ok(edges)
}

// A crossbar between some edges.
fn crossbar(alloc: Global, ins: Vec<u32>, outs: Vec<u32>) -> Leaf
    ensures { result ≡ spec.crossbar_between ins.items outs.items }
{
    Leaf {
        template: Template::Xbar,
        ins: Items::from_vec(ins),
        outs: Items::from_vec(outs),
        args: Items::new(alloc),
    }
}

// A crossbar of two inputs and an output, and one of three inputs and two outputs.
fn leaves(alloc: Global) -> Result<Leaves, Memory>
    ensures { IfOk result (λ leaves. leaves ≡ spec.both_crossbars) }
{
    let mut leaves = Items::new(alloc);
    leaves.push(crossbar(alloc, vec![in alloc; 1, 2]?, vec![in alloc; 3]?))?;
    leaves.push(crossbar(alloc, vec![in alloc; 4, 5, 6]?, vec![in alloc; 7, 8]?))?;
    Ok(leaves)
}

// A port on an edge.
fn port(alloc: Global, edge: u32) -> Result<PlanPort, Memory> {
    match Name::new(alloc, "port")? {
        None => Err(Memory),
        Some(name) => Ok(PlanPort {
            edge,
            node: edge,
            port: 0,
            name,
        }),
    }
}

// Ports on these edges.
fn ports(alloc: Global, edges: &[u32]) -> Result<PlanPorts, Memory>
    ensures { IfOk result (λ ports. length ports ≡ length edges.now) }
{
    let mut ports = Items::new(alloc);
    for edge in edges {
        ports.push(port(alloc, *edge)?)?;
    }
    Ok(ports)
}

/// Six sources and four sinks: edge 0 joins the first ones, a crossbar stands between the next two and the
/// second, and one between the last three and the last two.
#[tactic(auto, using(crate::proofs::Standing::made_built, crate::proofs::Standing::made_numbered))]
pub fn plan(alloc: Global, policy: Policy) -> Result<Plan, Memory>
    ensures built { IfOk result IsBuilt }
    ensures numbered { IfOk result IsNumbered }
{
    let ram = memory(alloc, 0x8000_0000)?;
    let low = memory(alloc, 0x8000_0000)?;
    let high = memory(alloc, 0x9000_0000)?;
    let edges = edges(alloc, ram, low, high)?;
    let leaves = leaves(alloc)?;
    let sources = ports(alloc, &[0, 1, 2, 4, 5, 6])?;
    let sinks = ports(alloc, &[0, 3, 7, 8])?;
    let Some(name) = Name::new(alloc, "net")? else {
        return Err(Memory);
    };
    Ok(Plan {
        name,
        policy,
        leaves,
        edges,
        sources,
        sinks,
    })
}
