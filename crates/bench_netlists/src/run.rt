ghost use Rattle.std.specs.Prelude.{◌≡◌, length};

use crate::made;
use dip_lists::Memory;
use net_cells::well_formed;
use sim_engine::{Engine, EngineFault};
use std::alloc::Global;
use ver_text::{TextFault, print, read};

// Runs so many cycles of a netlist with one input and one output, with input 0.
#[tactic(auto, using(crate::proofs::Zeros::zero_fits))]
fn cycles(engine: &mut Engine, count: u64)
    requires input { length engine.old.netlist.inputs ≡ 1 }
    requires output { length engine.old.netlist.outputs ≡ 1 }
{
    let inputs = [0];
    let mut outputs = [0];
    for _ in 0..count {
        engine.cycle(&inputs, &mut outputs);
    }
}

/// The state after so many cycles of a made netlist of so many cells; `None` where it isn't well formed.
pub fn engine(alloc: Global, cells: u64, count: u64) -> Result<Option<u64>, EngineFault> {
    let netlist = made::netlist(alloc, cells)?;
    if !well_formed(alloc, &netlist)? || netlist.inputs.len() != 1 || netlist.outputs.len() != 1 {
        return Ok(None);
    }
    let mut engine = Engine::open(alloc, netlist)?;
    cycles(&mut engine, count);
    Ok(Some(engine.state()))
}

/// Opens a made netlist of so many cells and one that depends on itself, so many times: the net on the loop
/// that is named; `None` where the netlist isn't well formed or no loop is met.
pub fn looped(alloc: Global, cells: u64, times: u64) -> Result<Option<u64>, Memory> {
    let mut named = None;
    for _ in 0..times {
        let netlist = made::looped(alloc, cells)?;
        if !well_formed(alloc, &netlist)? {
            return Ok(None);
        }
        named = match Engine::open(alloc, netlist) {
            Ok(_) => None,
            Err(EngineFault::Loop { net }) => Some(net),
            Err(EngineFault::Memory) => return Err(Memory),
        };
    }
    Ok(named)
}

/// Prints the text of a made netlist of so many cells, so many times: the bytes of all texts; `None` where
/// the netlist isn't well formed.
pub fn printed(alloc: Global, cells: u64, times: u64) -> Result<Option<u64>, Memory> {
    let netlist = made::netlist(alloc, cells)?;
    if !well_formed(alloc, &netlist)? {
        return Ok(None);
    }
    let mut bytes: u64 = 0;
    for _ in 0..times {
        let text = print(alloc, &netlist)?;
        bytes = bytes.wrapping_add(text.len() as u64);
    }
    Ok(Some(bytes))
}

/// Reads the text of a made netlist of so many cells, so many times: the cells of all that is read; `None`
/// where the netlist isn't well formed.
pub fn read_again(alloc: Global, cells: u64, times: u64) -> Result<Option<u64>, TextFault> {
    let netlist = made::netlist(alloc, cells)?;
    if !well_formed(alloc, &netlist)? {
        return Ok(None);
    }
    let text = print(alloc, &netlist)?;
    let mut found: u64 = 0;
    for _ in 0..times {
        let again = read(alloc, text.as_slice())?;
        found = found.wrapping_add(again.cells.len() as u64);
    }
    Ok(Some(found))
}
