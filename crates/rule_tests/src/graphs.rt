ghost use Rattle.std.specs.Prelude.{◌≤◌, length, IfOk};

use crate::broken::Broken;
use crate::designs::design;
use crate::show::{end, show_down, show_edge, show_up};
use dip_checks::weight;
use dip_graph::{Design, Edge, Edges, Numbers, OrderFault, order};
use dip_lists::Memory;
use dip_negotiate::{NegFault, Solution, is_negotiable, negotiate};
use dip_rule::Rules;
use dip_stars::{StarFault, resolve};
use std::alloc::Global;

/// The most nodes of a design here, and the most binds.
const MOST: usize = 2000;

/// A design that isn't too large to be asked about.
pub fn small_design(alloc: Global, text: &str) -> Result<Design, Memory>
    ensures nodes { IfOk result (λ design. length design.nodes ≤ 2000) }
    ensures binds { IfOk result (λ design. length design.binds ≤ 2000) }
{
    let design = design(alloc, text)?;
    if design.nodes.len() > MOST || design.binds.len() > MOST {
        return Err(Memory);
    }
    Ok(design)
}

/// What the ports of a design with these edges agree on.
pub fn solution_of(
    alloc: Global,
    rules: &Rules,
    design: &Design,
    edges: &Edges,
) -> Result<Solution, NegFault>
    requires nodes { length design.now.nodes ≤ 2000 }
    requires edges { length edges.now ≤ 1024 }
{
    if is_negotiable(alloc, design, edges.as_slice())? {
        negotiate(alloc, design, edges, rules)
    } else {
        Err(NegFault::Memory)
    }
}

// The weight of a design with these edges.
fn weight_of(alloc: Global, rules: &Rules, design: &Design, edges: &Edges) -> Result<u64, Broken>
    requires nodes { length design.now.nodes ≤ 2000 }
    requires edges { length edges.now ≤ 1024 }
{
    let Ok(solution) = solution_of(alloc, rules, design, edges) else {
        return Err(Broken::Memory);
    };
    let (down, up) = (solution.down.as_slice(), solution.up.as_slice());
    let nodes = design.nodes.as_slice();
    Ok(weight(alloc, rules, nodes, edges.as_slice(), down, up)?)
}

fn show_order(rt: &HostRuntime, order: &Numbers) -> Result<(), Broken> {
    for node in order.as_slice() {
        print!(rt; " {node}")?;
    }
    end(rt)
}

/// The canonical order of a design's nodes.
pub fn ask_order(rt: &HostRuntime, text: &str) -> Result<(), Broken> {
    let design = small_design(rt.alloc(), text)?;
    match order(rt.alloc(), &design) {
        Ok(order) => show_order(rt, &order),
        Err(OrderFault::Cycle { node }) => Ok(println!(rt; " node {node} has no place")?),
        Err(OrderFault::Memory) => Err(Broken::Memory),
    }
}

// Why binds make no edges.
fn show_star_fault(rt: &HostRuntime, fault: StarFault) -> Result<(), Broken> {
    match fault {
        StarFault::StarsWait { bind } => Ok(println!(rt; " bind {bind} waits")?),
        StarFault::Arity { node } => Ok(println!(rt; " node {node} has wrong binds")?),
        StarFault::TooManyEdges { count } => Ok(println!(rt; " {count} edges are too many")?),
        StarFault::Memory => Err(Broken::Memory),
    }
}

// Up to eight edges, and else how many there are.
fn show_edges(rt: &HostRuntime, edges: &[Edge]) -> Result<(), Broken> {
    if edges.len() > 8 {
        return Ok(println!(rt; " {} edges", edges.len())?);
    }
    for edge in edges {
        show_edge(rt, edge)?;
    }
    end(rt)
}

/// The edges that the binds of a design make.
pub fn ask_edges(rt: &HostRuntime, rules: &Rules, text: &str) -> Result<(), Broken> {
    let design = small_design(rt.alloc(), text)?;
    match resolve(rt.alloc(), &design, rules) {
        Ok(edges) => show_edges(rt, edges.as_slice()),
        Err(fault) => show_star_fault(rt, fault),
    }
}

// What goes down and up each edge.
fn show_solution(rt: &HostRuntime, solution: &Solution) -> Result<(), Broken> {
    for port in solution.down.as_slice() {
        print!(rt; " |")?;
        show_down(rt, port)?;
    }
    for port in solution.up.as_slice() {
        print!(rt; " |")?;
        show_up(rt, port)?;
    }
    end(rt)
}

/// Where a rule refuses.
pub fn show_refusal(rt: &HostRuntime, fault: NegFault) -> Result<(), Broken> {
    match fault {
        NegFault::DownRefused { node, port, number } => {
            Ok(println!(rt; " node {node} refuses down at port {port} with {number}")?)
        }
        NegFault::UpRefused { node, port, number } => {
            Ok(println!(rt; " node {node} refuses up at port {port} with {number}")?)
        }
        NegFault::Memory => Err(Broken::Memory),
    }
}

/// What the ports of a design agree on.
pub fn ask_ports(rt: &HostRuntime, rules: &Rules, text: &str) -> Result<(), Broken> {
    let design = small_design(rt.alloc(), text)?;
    let Ok(edges) = resolve(rt.alloc(), &design, rules) else {
        return Err(Broken::Memory);
    };
    match solution_of(rt.alloc(), rules, &design, &edges) {
        Ok(solution) => show_solution(rt, &solution),
        Err(fault) => show_refusal(rt, fault),
    }
}

/// The weight of a design.
pub fn ask_weight(rt: &HostRuntime, rules: &Rules, text: &str) -> Result<(), Broken> {
    let design = small_design(rt.alloc(), text)?;
    let Ok(edges) = resolve(rt.alloc(), &design, rules) else {
        return Err(Broken::Memory);
    };
    let weight = weight_of(rt.alloc(), rules, &design, &edges)?;
    Ok(println!(rt; " {weight}")?)
}
