//! Moves of a network between four sources and four sinks: an edge, a buffer and a crossbar between two and
//! two. Each line of the input offers the moves of a cycle, and the program makes those that may be made at
//! its start, prints what passed the ports, and then the gates that the line asks for.
#![tactic(auto)]

mod beats;
mod made;

use dip_lists::Memory;
use flow_core::{Gate, Lock, Move, Network};
use std::alloc::Global;
use std::fmt::Write;
use std::io;

// The offered moves that may be made now.
fn chosen(alloc: Global, network: &Network, line: &str) -> Result<Vec<Move>, Memory> {
    let mut steps = Vec::new(alloc);
    for offer in line.split(", ") {
        if let Some(step) = beats::step_of(alloc, offer)? {
            if network.enabled(&step) {
                steps.push(step)?;
            }
        }
    }
    Ok(steps)
}

// Writes what a move carries past a port.
fn show(network: &Network, step: &Move, text: &mut String) -> Result<(), Memory> {
    match *step {
        Move::Enter { port, beat, .. } => beats::show_a(text, "enter", port, beat),
        Move::Reply { port, beat, .. } => beats::show_d(text, "reply", port, beat),
        Move::Leave { port } => match network.leaving(port) {
            None => Ok(write!(text, " nothing")?),
            Some((beat, _)) => beats::show_a(text, "leave", port, beat),
        },
        Move::Return { port } => match network.returning(port) {
            None => Ok(write!(text, " nothing")?),
            Some((beat, _)) => beats::show_d(text, "return", port, beat),
        },
        _ => Ok(()),
    }
}

// Makes a move where it may still be made.
fn make(network: &mut Network, step: &Move, text: &mut String) -> Result<(), Memory> {
    if !network.enabled(step) {
        return Ok(write!(text, " refused")?);
    }
    show(network, step, text)?;
    network.apply(step);
    Ok(())
}

// Writes a gate: who holds it for how many beats, if anyone does, and whose turn is next.
fn show_gate(text: &mut String, gate: Option<Gate>) -> Result<(), Memory> {
    let Some(Gate { lock, next }) = gate else {
        return Ok(write!(text, " none")?);
    };
    match lock {
        None => Ok(write!(text, " open {next}")?),
        Some(Lock { by, left }) => Ok(write!(text, " {by} {left} {next}")?),
    }
}

// Writes the gates that a line asks for.
fn show_gates(
    alloc: Global,
    network: &Network,
    line: &str,
    text: &mut String,
) -> Result<(), Memory> {
    for offer in line.split(", ") {
        let (leaf, place) = beats::gate_of(alloc, offer)?;
        if offer.starts_with("gate") {
            show_gate(text, network.output_gate(leaf, place))?;
        }
        if offer.starts_with("back") {
            show_gate(text, network.input_gate(leaf, place))?;
        }
    }
    Ok(())
}

// Makes the moves of a cycle.
fn cycle(
    alloc: Global,
    network: &mut Network,
    line: &str,
    text: &mut String,
) -> Result<(), Memory> {
    for step in chosen(alloc, network, line)?.as_slice() {
        make(network, step, text)?;
    }
    show_gates(alloc, network, line, text)
}

// Runs the cycles of the input.
fn run(rt: &HostRuntime, network: &mut Network) -> io::Result<()> {
    for line in rt.lines(rt.alloc()) {
        let line = line?;
        let mut text = String::new(rt.alloc());
        if cycle(rt.alloc(), network, line.as_str(), &mut text).is_err() {
            return println!(rt; "out of memory");
        }
        println!(rt; "{line} ->{text}")?;
    }
    Ok(())
}

fn main(rt: HostRuntime) -> io::Result<()> {
    let Ok(plan) = made::plan(rt.alloc()) else {
        return println!(rt; "out of memory");
    };
    let Ok(mut network) = Network::open(rt.alloc(), &plan) else {
        return println!(rt; "out of memory");
    };
    run(&rt, &mut network)
}
