use dip_lists::{Items, Memory};
use flow_choice::Offers;
use flow_core::{Gate, Move, Moves, Network};
use std::alloc::Global;
use tl_params::Policy;

// Every number of a port, a leaf, an input and an output is below this.
const MOST: u32 = 8;

// The first of some moves, from one of them on, that may be made.
fn first_from(network: &Network, group: &[Move], from: usize) -> Option<Move> {
    for step in group.iter().skip(from) {
        if network.enabled(step) {
            return Some(*step);
        }
    }
    None
}

// The one of some moves that is made: of those that may be, the lowest, or the next from whose turn it is.
fn picked(network: &Network, group: &[Move], gate: Option<Gate>) -> Option<Move> {
    let lowest = first_from(network, group, 0);
    match (network.plan().policy, gate) {
        (Policy::Round, Some(gate)) => first_from(network, group, gate.next).or(lowest),
        _ => lowest,
    }
}

// Keeps the one of some moves that is made, if one is.
fn keep(found: &mut Moves, step: Option<Move>) -> Result<(), Memory> {
    match step {
        None => Ok(()),
        Some(step) => found.push(step),
    }
}

// Keeps the moves of a source port.
fn keep_source(
    found: &mut Moves,
    network: &Network,
    offers: &Offers,
    port: u32,
) -> Result<(), Memory> {
    if let Some(Some((beat, tag))) = offers.enter.get(port as usize).copied() {
        keep(
            found,
            first_from(network, &[Move::Enter { port, beat, tag }], 0),
        )?;
    }
    if let Some(true) = offers.take_d.get(port as usize).copied() {
        keep(found, first_from(network, &[Move::Return { port }], 0))?;
    }
    Ok(())
}

// Keeps the moves of a sink port.
fn keep_sink(
    found: &mut Moves,
    network: &Network,
    offers: &Offers,
    port: u32,
) -> Result<(), Memory> {
    if let Some(true) = offers.take_a.get(port as usize).copied() {
        keep(found, first_from(network, &[Move::Leave { port }], 0))?;
    }
    if let Some(Some((beat, tag))) = offers.reply.get(port as usize).copied() {
        keep(
            found,
            first_from(network, &[Move::Reply { port, beat, tag }], 0),
        )?;
    }
    Ok(())
}

// The moves of a leaf to an output from every input.
fn downs(alloc: Global, leaf: u32, output: u32) -> Result<Vec<Move>, Memory> {
    let mut group = Vec::new(alloc);
    for input in 0..MOST {
        group.push(Move::ForwardA {
            leaf,
            input,
            output,
            id: 0,
        })?;
    }
    Ok(group)
}

// The moves of a leaf to an input from every output.
fn ups(alloc: Global, leaf: u32, input: u32) -> Result<Vec<Move>, Memory> {
    let mut group = Vec::new(alloc);
    for output in 0..MOST {
        group.push(Move::ForwardD {
            leaf,
            input,
            output,
        })?;
    }
    Ok(group)
}

// Keeps the moves of a leaf.
fn keep_leaf(alloc: Global, found: &mut Moves, network: &Network, leaf: u32) -> Result<(), Memory> {
    for output in 0..MOST {
        let group = downs(alloc, leaf, output)?;
        let gate = network.output_gate(leaf, output);
        keep(found, picked(network, group.as_slice(), gate))?;
    }
    for input in 0..MOST {
        let group = ups(alloc, leaf, input)?;
        let gate = network.input_gate(leaf, input);
        keep(found, picked(network, group.as_slice(), gate))?;
    }
    Ok(())
}

/// The chosen moves of a cycle, found by trying every move that there is.
pub fn moves(alloc: Global, network: &Network, offers: &Offers) -> Result<Moves, Memory> {
    let mut found = Items::new(alloc);
    for port in 0..MOST {
        keep_source(&mut found, network, offers, port)?;
    }
    for port in 0..MOST {
        keep_sink(&mut found, network, offers, port)?;
    }
    for leaf in 0..MOST {
        keep_leaf(alloc, &mut found, network, leaf)?;
    }
    Ok(found)
}
