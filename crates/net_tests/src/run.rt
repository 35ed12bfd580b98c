ghost use Rattle.std.specs.Prelude.{◌≡◌, ◌↔◌, All, IsTrue, ◌^◌, ◌<◌, length};
ghost use Rattle.net_cells.specs.Rules.{width_at, widths};
ghost use Rattle.net_cells.specs.Values.{AreInputs};

use dip_lists::Items;
use net_cells::{Netlist, well_formed};
use sim_engine::{Engine, EngineFault};
use std::io;

// Whether a value has at most so many bits.
#[tactic(auto, using(net_cells::proofs::Nets::bits))]
fn has_bits(value: u64, width: u32) -> bool
    ensures { IsTrue result ↔ (value < 2 ^ width) }
{
    if width >= u64::BITS {
        return true;
    }
    value >> width == 0
}

// Whether a value has the width of a net.
fn fits(netlist: &Netlist, place: usize, value: u64) -> bool
    ensures { IsTrue result → (value < 2 ^ width_at (widths netlist.now) place) }
{
    match netlist.width_of(place as u64) {
        Some(width) => has_bits(value, width),
        None => false,
    }
}

// Whether these are inputs for a cycle of the netlist.
fn are_inputs(netlist: &Netlist, inputs: &[u64]) -> bool
    ensures { IsTrue result → AreInputs netlist.now inputs.now }
{
    for (place, input) in inputs.iter().enumerate() {
        if !fits(netlist, place, *input) {
            return false;
        }
    }
    inputs.len() == netlist.inputs.len()
}

// Whether these are inputs for cycles of the netlist.
fn are_all_inputs(netlist: &Netlist, cycles: &[Items<u64>]) -> bool
    ensures { IsTrue result → All (AreInputs netlist.now) cycles.now }
{
    for inputs in cycles {
        if !are_inputs(netlist, inputs.as_slice()) {
            return false;
        }
    }
    true
}

// Prints what three outputs show in each cycle.
fn show_each(rt: &HostRuntime, engine: &mut Engine, cycles: &[Items<u64>]) -> io::Result<()>
    requires inputs { All (AreInputs engine.old.netlist) cycles.now }
    requires outputs { length engine.old.netlist.outputs ≡ 3 }
{
    let mut outputs = [0; 3];
    for inputs in cycles {
        engine.cycle(inputs.as_slice(), &mut outputs);
        println!(rt; "{} {} {}", outputs[0], outputs[1], outputs[2])?;
    }
    Ok(())
}

// What the only output shows in the last of so many cycles with the same inputs.
fn repeat(engine: &mut Engine, inputs: &[u64], cycles: u64) -> u64
    requires inputs { AreInputs engine.old.netlist inputs.now }
    requires output { length engine.old.netlist.outputs ≡ 1 }
{
    let mut outputs = [0];
    for _ in 0..cycles {
        engine.cycle(inputs, &mut outputs);
    }
    outputs[0]
}

// Prints what the only output shows in the last of so many cycles, and the state after it.
fn show(rt: &HostRuntime, engine: &mut Engine, inputs: &[u64], cycles: u64) -> io::Result<()>
    requires inputs { AreInputs engine.old.netlist inputs.now }
    requires output { length engine.old.netlist.outputs ≡ 1 }
{
    let shown = repeat(engine, inputs, cycles);
    println!(rt; "shows {shown}, state {}", engine.state())
}

/// Prints whether a netlist is well formed.
pub fn formed(rt: &HostRuntime, netlist: &Netlist) -> io::Result<()> {
    match well_formed(rt.alloc(), netlist) {
        Ok(true) => println!(rt; "well formed"),
        Ok(false) => println!(rt; "not well formed"),
        Err(_) => println!(rt; "out of memory"),
    }
}

/// Runs a netlist with one output for so many cycles with the same inputs, and prints what the output shows
/// in the last one and the state after it; or why it doesn't run.
pub fn run(rt: &HostRuntime, netlist: Netlist, inputs: &[u64], cycles: u64) -> io::Result<()> {
    let Ok(true) = well_formed(rt.alloc(), &netlist) else {
        return println!(rt; "not well formed");
    };
    if !are_inputs(&netlist, inputs) || netlist.outputs.len() != 1 {
        return println!(rt; "no inputs of it, or not one output");
    }
    match Engine::open(rt.alloc(), netlist) {
        Ok(mut engine) => show(rt, &mut engine, inputs, cycles),
        Err(EngineFault::Loop { net }) => println!(rt; "net {net} depends on itself"),
        Err(EngineFault::Memory) => println!(rt; "out of memory"),
    }
}

/// Runs a netlist with three outputs for a cycle with each of these inputs, and prints what they show in it;
/// or why it doesn't run.
pub fn trace(rt: &HostRuntime, netlist: Netlist, cycles: &[Items<u64>]) -> io::Result<()> {
    let Ok(true) = well_formed(rt.alloc(), &netlist) else {
        return println!(rt; "not well formed");
    };
    if !are_all_inputs(&netlist, cycles) || netlist.outputs.len() != 3 {
        return println!(rt; "no inputs of it, or not three outputs");
    }
    match Engine::open(rt.alloc(), netlist) {
        Ok(mut engine) => show_each(rt, &mut engine, cycles),
        Err(EngineFault::Loop { net }) => println!(rt; "net {net} depends on itself"),
        Err(EngineFault::Memory) => println!(rt; "out of memory"),
    }
}
