ghost use Rattle.std.specs.Prelude.{◌≡◌, ◌^◌, ◌<◌, ◌≤◌, IfOk, IsTrue, length};
ghost use Rattle.net_cells.specs.Rules.{IsWellFormed};
ghost use Rattle.sim_engine.specs.Orders.{ArePositions, AreSettled, IsOrder, ReadsCells};

use crate::order::{first_cell, op_at};
use crate::steps::{operand_count, three};
use dip_lists::Memory;
use net_cells::Netlist;
use std::alloc::Global;

/// At which place of an order each cell stands.
pub fn positions_of(alloc: Global, netlist: &Netlist, order: &[u64]) -> Result<Vec<u32>, Memory>
    requires order { IsOrder netlist.now order.now }
    requires few { length order.now < 2 ^ 32 }
    ensures { IfOk result (λ positions. ArePositions netlist.now order.now positions.items) }
{
    let mut positions = vec![in alloc; 0u32; netlist.cells.len()]?;
    for (at, place) in order.iter().enumerate() {
        positions[*place as usize] = at as u32;
    }
    Ok(positions)
}

// Whether the cell at a place reads no input and no register.
fn reads_cells(netlist: &Netlist, place: u64) -> bool
    requires well { IsWellFormed netlist.now }
    requires exists { place < length netlist.now.cells }
    ensures { IsTrue result → ReadsCells netlist.now place }
{
    let first = first_cell(netlist);
    let op = op_at(netlist, place);
    let nets = three(op);
    nets[..operand_count(op)].iter().all(|net| *net >= first)
}

/// How many cells at the front of an order read no input and no register: as they read only cells before
/// them, their values are the same in each cycle.
pub fn settled_count(netlist: &Netlist, order: &[u64]) -> usize
    requires well { IsWellFormed netlist.now }
    requires order { IsOrder netlist.now order.now }
    ensures within { result ≤ length order.now }
    ensures settled { AreSettled netlist.now order.now result }
{
    for (at, place) in order.iter().enumerate() {
        if !reads_cells(netlist, *place) {
            return at;
        }
    }
    order.len()
}
