ghost use Rattle.std.specs.Prelude.{◌≡◌, ◌<◌, IfOk, length, map, slice_set};
ghost use Rattle.net_build.specs.Built.{IsWire};
ghost use Rattle.net_crossbar.specs.Heads as spec;

use crate::channel::Channel;
use dip_lists::{Items, Memory};
use net_build::{Wire, Wires};
use net_queue::EdgeWires;
use std::alloc::Global;

// Whether there is a head on a channel.
fn valid_at(edge: &EdgeWires, channel: Channel) -> Wire
    ensures { result ≡ spec.valid_at channel edge.now }
{
    match channel {
        Channel::A => edge.a.valid,
        Channel::D => edge.d.valid,
    }
}

// Whether there is room on a channel.
fn ready_at(edge: &EdgeWires, channel: Channel) -> Wire
    ensures { result ≡ spec.ready_at channel edge.now }
{
    match channel {
        Channel::A => edge.a.ready,
        Channel::D => edge.d.ready,
    }
}

// The fields of a channel's head.
fn head_at(alloc: Global, edge: &EdgeWires, channel: Channel) -> Result<Wires, Memory>
    ensures { IfOk result (λ ws. ws ≡ spec.head_at channel edge.now) }
{
    match channel {
        Channel::A => edge.a.head.copy(alloc),
        Channel::D => edge.d.head.copy(alloc),
    }
}

/// For each of some edges whether there is a head on a channel.
pub fn valids(alloc: Global, edges: &[EdgeWires], channel: Channel) -> Result<Wires, Memory>
    ensures { IfOk result (λ ws. ws ≡ map (spec.valid_at channel) edges.now) }
{
    let mut out: Wires = Items::new(alloc);
    for place in 0..edges.len() {
        out.push(valid_at(&edges[place], channel))?;
    }
    Ok(out)
}

/// For each of some edges whether there is room on a channel.
pub fn readies(alloc: Global, edges: &[EdgeWires], channel: Channel) -> Result<Wires, Memory>
    ensures { IfOk result (λ ws. ws ≡ map (spec.ready_at channel) edges.now) }
{
    let mut out: Wires = Items::new(alloc);
    for place in 0..edges.len() {
        out.push(ready_at(&edges[place], channel))?;
    }
    Ok(out)
}

/// For each of some edges the fields of a channel's head.
pub fn heads(alloc: Global, edges: &[EdgeWires], channel: Channel) -> Result<Items<Wires>, Memory>
    ensures { IfOk result (λ rows. rows ≡ map (spec.head_at channel) edges.now) }
{
    let mut out: Items<Wires> = Items::new(alloc);
    for place in 0..edges.len() {
        let head = head_at(alloc, &edges[place], channel)?;
        out.push(head)?;
    }
    Ok(out)
}
