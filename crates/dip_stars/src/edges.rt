ghost use Rattle.std.specs.Prelude.{◌≡◌, ◌<◌, ◌^◌, ◌+◌, length, IfOk, OnOk};
ghost use Rattle.dip_stars.specs.Edges as spec;

use crate::rounds::{Counted, known_number};
use dip_graph::{BindEntry, Edge, Edges};
use dip_lists::{Items, Memory};
use std::alloc::Global;

/// How many edges a bind makes.
pub fn copies(count: &Counted) -> u64
    ensures { result ≡ spec.copies count.now }
{
    known_number(count).unsigned_abs()
}

/// How many edges there are; `Memory` where that isn't below 2^64.
pub fn total(counts: &[Counted]) -> Result<u64, Memory>
    ensures { IfOk result (λ sum. sum ≡ spec.total counts.now) }
{
    let mut sum = 0u64;
    for count in counts {
        let Some(more) = sum.checked_add(copies(count)) else {
            return Err(Memory);
        };
        sum = more;
    }
    Ok(sum)
}

fn outs(node: u32, edges: &[Edge]) -> usize
    ensures { result ≡ spec.outs node edges.now }
{
    edges.iter().filter(|edge| edge.from == node).count()
}

fn ins(node: u32, edges: &[Edge]) -> usize
    ensures { result ≡ spec.ins node edges.now }
{
    edges.iter().filter(|edge| edge.to == node).count()
}

// The edge of a bind behind others.
fn edge_behind(earlier: &[Edge], number: u32, bind: &BindEntry) -> Result<Edge, Memory>
    ensures { IfOk result (λ edge. edge ≡ spec.edge_behind earlier.now number bind.now) }
{
    let (Ok(from_port), Ok(to_port)) = (
        u32::try_from(outs(bind.from, earlier)),
        u32::try_from(ins(bind.to, earlier)),
    ) else {
        return Err(Memory);
    };
    Ok(Edge {
        bind: number,
        from: bind.from,
        from_port,
        to: bind.to,
        to_port,
    })
}

// Adds so many edges of a bind, each at the next ports of its nodes.
#[tactic(auto, using(crate::proofs::Turns::one_copy))]
fn add_copies(edges: &mut Edges, copies: u64, number: u32, bind: &BindEntry) -> Result<(), Memory>
    ensures { OnOk result (edges.new ≡ spec.with_copies copies edges.old number bind.now) }
{
    for _copy in 0..copies {
        let edge = edge_behind(edges.as_slice(), number, bind)?;
        edges.push(edge)?;
    }
    Ok(())
}

/// The edges of binds, each bind as often as its number says.
pub fn edges_of(alloc: Global, counts: &[Counted]) -> Result<Edges, Memory>
    requires { length counts.now < 2 ^ 32 }
    ensures { IfOk result (λ edges. edges ≡ spec.edges_of counts.now) }
{
    let mut edges = Items::new(alloc);
    for (number, count) in counts.iter().enumerate() {
        add_copies(&mut edges, copies(count), number as u32, &count.bind)?;
    }
    Ok(edges)
}
