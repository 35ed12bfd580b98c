ghost use Rattle.std.specs.Prelude.{◌≡◌, ◌<◌, ◌^◌, length, None, IfOk, IfErr};
ghost use Rattle.dip_lists.specs.First.{first};
ghost use Rattle.dip_graph.specs.Orders as spec;

use crate::{BindEntry, Design, NodeEntry};
use dip_lists::{Items, Memory};
use std::alloc::Global;
use thiserror::Error;
use tl_params::Numbers;

/// Why nodes have no order.
#[derive(Clone, Copy, Debug, PartialEq, Eq, Error)]
pub enum OrderFault {
    /// The least node that stands behind a cycle of binds or on one.
    #[error("node {node} stands on a cycle of binds or behind one")]
    Cycle { node: u32 },
    #[error("out of memory")]
    Memory,
}

impl From<Memory> for OrderFault {
    ghost use Rattle.std.specs.Prelude.{◌≡◌};
    ghost use Rattle.dip_graph.specs.declared.ordering.OrderFault.TheVariants as fault;

    ghost from_gives = { λ _ e. e ≡ fault.Memory };

    fn from(_: Memory) -> OrderFault {
        OrderFault::Memory
    }
}

fn is_listed(numbers: &[u32], number: u32) -> bool
    ensures { result ≡ spec.is_listed numbers.now number }
{
    numbers.iter().any(|other| *other == number)
}

fn is_met(listed: &[u32], node: u32, bind: &BindEntry) -> bool
    ensures { result ≡ spec.is_met listed.now node bind.now }
{
    bind.to != node || is_listed(listed, bind.from)
}

// Whether a node isn't listed yet, and the from-nodes of all binds to it are.
fn is_ready(binds: &[BindEntry], listed: &[u32], node: u32) -> bool
    ensures { result ≡ spec.is_ready binds.now listed.now node }
{
    if is_listed(listed, node) {
        return false;
    }
    for bind in binds {
        if !is_met(listed, node, bind) {
            return false;
        }
    }
    true
}

// The least of so many nodes that is ready.
#[tactic(auto, using(crate::proofs::Turns::first_more, crate::proofs::Turns::first_here))]
fn least_ready(binds: &[BindEntry], listed: &[u32], nodes: u32) -> Option<u32>
    ensures { result ≡ spec.least_ready binds.now nodes listed.now }
{
    for node in 0..nodes {
        if is_ready(binds, listed, node) {
            return Some(node);
        }
    }
    None
}

// The nodes that become ready, each next one the least, until none is.
#[tactic(auto, using(crate::proofs::Turns::order_more, crate::proofs::Turns::order_ends))]
fn order_of(alloc: Global, binds: &[BindEntry], nodes: u32) -> Result<Numbers, Memory>
    ensures { IfOk result (λ order. order ≡ spec.order_of binds.now nodes) }
{
    let mut listed = Items::new(alloc);
    for _turn in 0..nodes {
        let Some(node) = least_ready(binds, listed.as_slice(), nodes) else {
            return Ok(listed);
        };
        listed.push(node)?;
    }
    Ok(listed)
}

/// The nodes in canonical order, without those on a cycle of binds and behind one: each next one is the least
/// node whose bound from-nodes stand before it.
pub fn canonical_order(alloc: Global, design: &Design) -> Result<Numbers, Memory>
    requires { length design.now.nodes < 2 ^ 32 }
    ensures { IfOk result (λ order. order ≡ spec.canonical_order design.now) }
{
    order_of(alloc, design.binds.as_slice(), design.nodes.len() as u32)
}

// The least node that isn't in an order.
fn unlisted(order: &[u32], nodes: &[NodeEntry]) -> Option<u32>
    requires { length nodes.now < 2 ^ 32 }
    ensures { result ≡ first (spec.unlisted order.now nodes.now) }
{
    for (number, _) in nodes.iter().enumerate() {
        if !is_listed(order, number as u32) {
            return Some(number as u32);
        }
    }
    None
}

/// The canonical order of all nodes.
///
/// `OrderFault::Cycle` comes exactly where that list doesn't have all nodes, with the least node left out.
pub fn order(alloc: Global, design: &Design) -> Result<Numbers, OrderFault>
    requires { length design.now.nodes < 2 ^ 32 }
    ensures ok { IfOk result (λ order. order ≡ spec.canonical_order design.now) }
    ensures passes { IfOk result (λ _. first (spec.left_out design.now) ≡ None) }
    ensures err { IfErr result (spec.IsCycle design.now) }
{
    let order = canonical_order(alloc, design)?;
    match unlisted(order.as_slice(), design.nodes.as_slice()) {
        Some(node) => Err(OrderFault::Cycle { node }),
        None => Ok(order),
    }
}
