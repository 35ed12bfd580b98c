ghost use Rattle.std.specs.Prelude.{◌≡◌, [], ◌∷◌, IfOk};
ghost use Rattle.flow_core.specs.Built.{IsBuilt};
ghost use Rattle.flow_tests.specs.Rows as spec;

use dip_lists::{Few, Items, Memory};
use dip_sets::{AddressSet, Name, Sizes};
use std::alloc::Global;
use tl_edge::{Bundle, Leaf, Leaves, Plan, PlanEdge, PlanEdges, PlanPort, PlanPorts};
use tl_params::{Numbers, Ops, Policy, Slave, Slaves, Template};

// A list of one number.
fn only(alloc: Global, number: u32) -> Result<Numbers, Memory>
    ensures { IfOk result (λ numbers. numbers ≡ number ∷ []) }
{
    let mut numbers = Items::new(alloc);
    numbers.push(number)?;
    Ok(numbers)
}

// A list of two numbers.
fn two(alloc: Global, one: u32, other: u32) -> Result<Numbers, Memory>
    ensures { IfOk result (λ numbers. numbers ≡ one ∷ other ∷ []) }
{
    let mut numbers = Items::new(alloc);
    numbers.push(one)?;
    numbers.push(other)?;
    Ok(numbers)
}

// Answers everything of at most 64 bytes.
fn everything() -> Ops {
    let sizes = Sizes::new(1, 64).unwrap_or(Sizes::none());
    Ops {
        get: sizes,
        put_full: sizes,
        put_partial: sizes,
        arithmetic: Sizes::none(),
        logical: Sizes::none(),
        intent: Sizes::none(),
    }
}

// A slave with 64 KiB from an address on.
fn slave(alloc: Global, base: u64) -> Result<Slaves, Memory> {
    let mut addresses = Few::new(alloc);
    if let Ok(set) = AddressSet::new(base, 0xffff) {
        addresses.push(set)?;
    }
    let mut slaves = Items::new(alloc);
    slaves.push(Slave {
        node: 0,
        port: 0,
        addresses,
        supports: everything(),
    })?;
    Ok(slaves)
}

// An edge with so many ids and a bus of eight bytes.
fn edge_with(ids: u32, slaves: Slaves) -> PlanEdge
    ensures { result ≡ spec.edge_with ids slaves }
{
    let bundle = Bundle {
        address_bits: 32,
        data_bytes: 8,
        source_bits: 2,
        size_bits: 3,
    };
    PlanEdge {
        bundle,
        slaves,
        ids,
    }
}

// Seven edges, the last two with these slaves.
fn edges(alloc: Global, low: Slaves, high: Slaves) -> Result<PlanEdges, Memory>
    ensures { IfOk result (λ edges. edges ≡ spec.edges_with low high) }
{
    let mut edges = Items::new(alloc);
    edges.push(edge_with(2, Items::new(alloc)))?;
    edges.push(edge_with(2, Items::new(alloc)))?;
    edges.push(edge_with(2, Items::new(alloc)))?;
    edges.push(edge_with(2, Items::new(alloc)))?;
    edges.push(edge_with(2, Items::new(alloc)))?;
    edges.push(edge_with(4, low))?;
    edges.push(edge_with(4, high))?;
    Ok(edges)
}

// A buffer from edge 1 to edge 2, and a crossbar from edges 3 and 4 to edges 5 and 6.
fn leaves(alloc: Global) -> Result<Leaves, Memory>
    ensures { IfOk result (λ leaves. leaves ≡ spec.both_leaves) }
{
    let buffer = Leaf {
        template: Template::Buffer,
        ins: only(alloc, 1)?,
        outs: only(alloc, 2)?,
        args: Items::new(alloc),
    };
    let crossbar = Leaf {
        template: Template::Xbar,
        ins: two(alloc, 3, 4)?,
        outs: two(alloc, 5, 6)?,
        args: Items::new(alloc),
    };
    let mut leaves = Items::new(alloc);
    leaves.push(buffer)?;
    leaves.push(crossbar)?;
    Ok(leaves)
}

// A name.
fn name(alloc: Global, text: &str) -> Result<Name, Memory> {
    match Name::new(alloc, text)? {
        None => Err(Memory),
        Some(name) => Ok(name),
    }
}

// A port on an edge.
fn port(alloc: Global, text: &str, edge: u32) -> Result<PlanPort, Memory> {
    Ok(PlanPort {
        edge,
        node: edge,
        port: 0,
        name: name(alloc, text)?,
    })
}

// Four ports on these edges.
fn ports(alloc: Global, texts: [&str; 4], edges: [u32; 4]) -> Result<PlanPorts, Memory> {
    let mut ports = Items::new(alloc);
    ports.push(port(alloc, texts[0], edges[0])?)?;
    ports.push(port(alloc, texts[1], edges[1])?)?;
    ports.push(port(alloc, texts[2], edges[2])?)?;
    ports.push(port(alloc, texts[3], edges[3])?)?;
    Ok(ports)
}

/// Four sources and four sinks: edge 0 joins the first ones, a buffer stands between the second ones, and a
/// crossbar between the last two and the last two.
#[tactic(auto, using(crate::proofs::Standing::made_built))]
pub fn plan(alloc: Global) -> Result<Plan, Memory>
    ensures { IfOk result IsBuilt }
{
    let low = slave(alloc, 0x8000_0000)?;
    let high = slave(alloc, 0x9000_0000)?;
    let edges = edges(alloc, low, high)?;
    let leaves = leaves(alloc)?;
    let sources = ports(alloc, ["core", "dma", "left", "right"], [0, 1, 3, 4])?;
    let sinks = ports(alloc, ["ram", "rom", "low", "high"], [0, 2, 5, 6])?;
    Ok(Plan {
        name: name(alloc, "row")?,
        policy: Policy::Lowest,
        leaves,
        edges,
        sources,
        sinks,
    })
}
