ghost use Rattle.std.specs.Prelude.{◌≡◌, ◌+◌, ◌%◌, ◌^◌, ◌<◌, All, IfOk, MatchResult, OnOk, length, map, replicate, sum};
ghost use Rattle.net_cells.specs.declared.netlist.OutPort.{OutPort};
ghost use Rattle.net_cells.specs.declared.netlist.Reg.{Reg};
ghost use Rattle.net_cells.specs.Rules.{IsWellFormed, widths};
ghost use Rattle.net_cells.specs.Values.{AreInputs};
ghost use Rattle.net_cells.specs.Loops.{HasNoLoop};
ghost use Rattle.sim_engine.specs.Columns.{CanEvaluate, step_of};
ghost use Rattle.sim_engine.specs.Orders.{HasLoop, IsOrder, position};
ghost use Rattle.sim_engine.specs.Running.{IsFault, RunsCycle, opened};
ghost use Rattle.sim_engine.specs.Steps.{evaluated};

use crate::columns::{Columns, columns_of};
use crate::fault::EngineFault;
use crate::loops::least_loop;
use crate::order::{first_cell, order_of};
use crate::positions::{positions_of, settled_count};
use crate::runs::{Run, evaluate, runs_of};
use crate::steps::{Step, position, steps_of};
use crate::values::{gather, keep, put, wrapped_sum};
use dip_lists::Memory;
use net_cells::{Netlist, OutPort, Reg};
use std::alloc::Global;
use std::marker::Model;

/// A netlist that runs cycle by cycle. Contracts see the netlist, and what its registers hold now.
///
/// Its values are those of the inputs, the registers and the cells, which stand in the order in which they
/// are evaluated. The first cells read only each other, so that their values never change.
#[derive(Drop)]
pub struct Engine {
    netlist: Netlist,
    // where the cells that are evaluated in each cycle begin among the values
    first: usize,
    // these cells, and the runs of one operator among them
    columns: Columns,
    runs: Vec<Run>,
    // where the nets of the outputs stand
    shown: Vec<u32>,
    // where the next nets of the registers stand
    nexts: Vec<u32>,
    // the values of all nets
    values: Vec<u64>,
    // what the registers take at the end of a cycle
    kept: Vec<u64>,
}

impl Model for Engine {
    ghost use Rattle.sim_engine.specs.Running.{Running};

    ghost Value = { Running };

    ghost use Rattle.sim_engine.specs.Engines.{IsEngine, registers_in};

    ghost view = { λ e. record {
      netlist = e.netlist;
      registers = registers_in e.netlist e.values.items;
    } };

    ghost invariant = { λ e. IsEngine e.netlist e.columns e.runs.items e.first e.shown.items e.nexts.items
        e.values.items e.kept.items };
}

// Where the nets of the outputs stand.
fn shown_by(
    alloc: Global,
    ports: &[OutPort],
    first: u32,
    positions: &[u32],
) -> Result<Vec<u32>, Memory>
    requires { All (λ position. first + position < 2 ^ 32) positions.now }
    ensures { IfOk result (λ places. places.items
        ≡ map (λ (o : OutPort). position first positions.now o.net) ports.now) }
{
    let mut places = Vec::with_capacity(alloc, ports.len())?;
    for port in ports {
        places.push(position(first, positions, port.net))?;
    }
    Ok(places)
}

// Where the next nets of the registers stand.
fn nexts_of(alloc: Global, regs: &[Reg], first: u32, positions: &[u32]) -> Result<Vec<u32>, Memory>
    requires { All (λ position. first + position < 2 ^ 32) positions.now }
    ensures { IfOk result (λ places. places.items
        ≡ map (λ (r : Reg). position first positions.now r.next) regs.now) }
{
    let mut places = Vec::with_capacity(alloc, regs.len())?;
    for reg in regs {
        places.push(position(first, positions, reg.next))?;
    }
    Ok(places)
}

// So many zeros.
fn zeros(alloc: Global, count: usize) -> Result<Vec<u64>, Memory>
    ensures { IfOk result (λ list. list.items ≡ replicate count 0) }
{
    Ok(vec![in alloc; 0; count]?)
}

// The values of all nets, where only the first steps have been evaluated, whose values never change.
fn settled(alloc: Global, nets: usize, first: usize, steps: &[Step]) -> Result<Vec<u64>, Memory>
    requires { CanEvaluate steps.now first nets }
    ensures { IfOk result (λ values. values.items
        ≡ evaluated (step_of steps.now) first 0 (length steps.now) (replicate nets 0)) }
{
    let columns = columns_of(alloc, steps)?;
    let runs = runs_of(alloc, columns.kind.as_slice())?;
    let mut values = zeros(alloc, nets)?;
    evaluate(&mut values, first, &columns, runs.as_slice());
    Ok(values)
}

// How many nets a netlist has, where their numbers have at most 32 bits: an engine takes no more.
fn nets_of(netlist: &Netlist) -> Result<u32, Memory>
    requires { IsWellFormed netlist.now }
    ensures nets { IfOk result (λ nets. nets ≡ length (widths netlist.now)) }
    ensures few { OnOk result (length (widths netlist.now) < 2 ^ 32) }
{
    let nets = first_cell(netlist) + netlist.cells.len() as u64;
    u32::try_from(nets).map_err(|_| Memory)
}

// The engine of a netlist whose cells are evaluated in this order.
fn engine_of(alloc: Global, netlist: Netlist, order: &[u64]) -> Result<Engine, Memory>
    requires well { IsWellFormed netlist }
    requires order { IsOrder netlist order.now }
    ensures { IfOk result (λ engine. engine ≡ opened netlist) }
{
    let nets = nets_of(&netlist)? as usize;
    let first = first_cell(&netlist) as u32;
    let positions = positions_of(alloc, &netlist, order)?;
    let steps = steps_of(alloc, &netlist, first, positions.as_slice(), order)?;
    let count = settled_count(&netlist, order);
    let (front, behind) = steps.as_slice().split_at(count);
    let values = settled(alloc, nets, first as usize, front)?;
    let columns = columns_of(alloc, behind)?;
    let runs = runs_of(alloc, columns.kind.as_slice())?;
    Ok(Engine {
        first: first as usize + count,
        columns,
        runs,
        shown: shown_by(
            alloc,
            netlist.outputs.as_slice(),
            first,
            positions.as_slice(),
        )?,
        nexts: nexts_of(alloc, netlist.regs.as_slice(), first, positions.as_slice())?,
        values,
        kept: zeros(alloc, netlist.regs.len())?,
        netlist,
    })
}

// Why a netlist with a net that depends on itself isn't opened.
fn loop_in(alloc: Global, netlist: &Netlist) -> EngineFault
    requires well { IsWellFormed netlist.now }
    requires has { HasLoop netlist.now }
    ensures { IsFault netlist.now result }
{
    match least_loop(alloc, netlist) {
        Ok(Some(net)) => EngineFault::Loop { net },
        Ok(None) => unreachable!(),
        Err(Memory) => EngineFault::Memory,
    }
}

impl Engine {
    /// The engine of a well-formed netlist, with all registers at 0. It finds the order of evaluation, in
    /// time linear in the size of the netlist, and takes all memory of the run.
    ///
    /// It answers `Loop` exactly where a net depends on itself through cells, with the least such net, and
    /// `Memory` for want of memory.
    pub fn open(alloc: Global, netlist: Netlist) -> Result<Engine, EngineFault>
        requires { IsWellFormed netlist }
        ensures { MatchResult result (λ engine. HasNoLoop netlist × (engine ≡ opened netlist))
            (IsFault netlist) }
    {
        match order_of(alloc, &netlist)? {
            Some(order) => Ok(engine_of(alloc, netlist, order.as_slice())?),
            None => Err(loop_in(alloc, &netlist)),
        }
    }

    /// Runs one cycle. The outputs are filled with their values under the only assignment for these inputs
    /// and for what the registers hold; then the registers take the values of their next nets. It takes no
    /// memory.
    pub fn cycle(&mut self, inputs: &[u64], outputs: &mut [u64])
        requires inputs { AreInputs self.old.netlist inputs.now }
        requires outputs { length outputs.old ≡ length self.old.netlist.outputs }
        ensures { RunsCycle self.old inputs.now outputs.new self.new }
    {
        let first = self.netlist.inputs.len();
        put(&mut self.values, 0, inputs);
        evaluate(
            &mut self.values,
            self.first,
            &self.columns,
            self.runs.as_slice(),
        );
        gather(self.values.as_slice(), self.shown.as_slice(), outputs);
        keep(
            self.values.as_slice(),
            self.nexts.as_slice(),
            &mut self.kept,
        );
        put(&mut self.values, first, self.kept.as_slice());
    }

    /// The sum of the values that the registers hold now, modulo 2^64.
    pub fn state(&self) -> u64
        ensures { result ≡ sum self.now.registers % 2 ^ 64 }
    {
        let first = self.netlist.inputs.len();
        wrapped_sum(&self.values[first..first + self.netlist.regs.len()])
    }
}
