ghost use Rattle.std.specs.Prelude.{◌≡◌, ◌+◌, ◌^◌, ◌-◌, ◌/◌, ◌%◌, ◌<◌, ◌≤◌, All, IfOk, length, map};
ghost use Rattle.net_cells.specs.Rules.{IsWellFormed, sources, width_at, widths};
ghost use Rattle.net_cells.specs.Loops.{operands};
ghost use Rattle.sim_engine.specs.Orders.{position, step_at};
ghost use Rattle.sim_engine.specs.Steps.{high_part, low_part, operator_kind, shift_of, step_for, three};

use crate::order::{cell_at, first_cell};
use dip_lists::Memory;
use net_cells::{CellOp, Netlist};
use std::alloc::Global;

/// An operator without its operands.
#[derive(Clone, Copy, Debug, PartialEq, Eq)]
pub enum Kind {
    Const,
    Not,
    And,
    Or,
    Xor,
    Add,
    Sub,
    Eq,
    Less,
    Mux,
    Concat,
    Select,
}

/// A cell as the engine evaluates it, with what follows from its width worked out. The operands are places
/// among the values.
#[derive(Clone, Copy, Debug, PartialEq, Eq)]
pub struct Step {
    /// The first operand; of a constant the low half of its value; 0 where there is none.
    pub x: u32,
    /// The second operand; of a constant the high half of its value; 0 where there is none.
    pub y: u32,
    /// The third operand; 0 where there is none.
    pub z: u32,
    /// By how many bits the first operand is moved.
    pub shift: u8,
    /// By how many bits the cell is narrower than 64.
    pub short: u8,
    /// The operator.
    pub kind: Kind,
}

/// The nets that an operator reads, with net 0 in place of those that it lacks.
pub fn three(op: CellOp) -> [u64; 3]
    ensures { result ≡ three op }
{
    match op {
        CellOp::Const(_) => [0, 0, 0],
        CellOp::Not(x) | CellOp::Select { net: x, .. } => [x, 0, 0],
        CellOp::And(x, y)
        | CellOp::Or(x, y)
        | CellOp::Xor(x, y)
        | CellOp::Add(x, y)
        | CellOp::Sub(x, y)
        | CellOp::Eq(x, y)
        | CellOp::Less(x, y)
        | CellOp::Concat(x, y) => [x, y, 0],
        CellOp::Mux(pick, x, y) => [pick, x, y],
    }
}

/// How many nets an operator reads.
pub fn operand_count(op: CellOp) -> usize
    ensures { result ≡ length (operands op) }
{
    match op {
        CellOp::Const(_) => 0,
        CellOp::Not(_) | CellOp::Select { .. } => 1,
        CellOp::And(..)
        | CellOp::Or(..)
        | CellOp::Xor(..)
        | CellOp::Add(..)
        | CellOp::Sub(..)
        | CellOp::Eq(..)
        | CellOp::Less(..)
        | CellOp::Concat(..) => 2,
        CellOp::Mux(..) => 3,
    }
}

/// The operator alone.
pub fn operator_kind(op: CellOp) -> Kind
    ensures { result ≡ operator_kind op }
{
    match op {
        CellOp::Const(_) => Kind::Const,
        CellOp::Not(_) => Kind::Not,
        CellOp::And(..) => Kind::And,
        CellOp::Or(..) => Kind::Or,
        CellOp::Xor(..) => Kind::Xor,
        CellOp::Add(..) => Kind::Add,
        CellOp::Sub(..) => Kind::Sub,
        CellOp::Eq(..) => Kind::Eq,
        CellOp::Less(..) => Kind::Less,
        CellOp::Mux(..) => Kind::Mux,
        CellOp::Concat(..) => Kind::Concat,
        CellOp::Select { .. } => Kind::Select,
    }
}

#[tactic(auto, using(crate::proofs::Widths::widths_read))]
fn width_of(netlist: &Netlist, net: u64) -> u32
    ensures { result ≡ width_at (widths netlist.now) net }
{
    netlist.width_of(net).unwrap_or(0)
}

// By how many bits the operand of an operator is moved, of which a shift takes those below 64.
fn shift_of(netlist: &Netlist, op: CellOp) -> u32
    ensures { result ≡ shift_of (widths netlist.now) op }
{
    match op {
        CellOp::Concat(_, low) => width_of(netlist, low),
        CellOp::Select { lo, .. } => lo,
        _ => 0,
    }
}

// The low 32 bits of a constant's value, and the place of another operator's first operand.
fn low_part(op: CellOp, place: u32) -> u32
    ensures { result ≡ low_part op place }
{
    match op {
        CellOp::Const(value) => (value % 4_294_967_296) as u32,
        _ => place,
    }
}

// The high 32 bits of a constant's value, and the place of another operator's second operand.
fn high_part(op: CellOp, place: u32) -> u32
    ensures { result ≡ high_part op place }
{
    match op {
        CellOp::Const(value) => (value / 4_294_967_296) as u32,
        _ => place,
    }
}

/// The place of a net among the values: inputs and registers keep their numbers, and behind them each cell
/// stands where it stands in the order.
pub fn position(first: u32, positions: &[u32], net: u64) -> u32
    requires { All (λ position. first + position < 2 ^ 32) positions.now }
    ensures { result ≡ position first positions.now net }
{
    if net < u64::from(first) {
        return net as u32;
    }
    match positions.get((net - u64::from(first)) as usize) {
        Some(position) => first + *position,
        None => first,
    }
}

// The step of an operator of so many bits, whose operands stand at these places.
fn step_for(netlist: &Netlist, width: u32, op: CellOp, x: u32, y: u32, z: u32) -> Step
    requires { width ≤ 64 }
    ensures { result ≡ step_for (widths netlist.now) width op x y z }
{
    Step {
        x: low_part(op, x),
        y: high_part(op, y),
        z,
        shift: (shift_of(netlist, op) % 64) as u8,
        short: (64 - width) as u8,
        kind: operator_kind(op),
    }
}

// The step of the cell at a place.
fn step_at(netlist: &Netlist, first: u32, positions: &[u32], place: u64) -> Step
    requires well { IsWellFormed netlist.now }
    requires first { first ≡ sources netlist.now }
    requires room { All (λ position. first + position < 2 ^ 32) positions.now }
    requires exists { place < length netlist.now.cells }
    ensures { result ≡ step_at netlist.now positions.now place }
{
    let cell = cell_at(netlist, place);
    let [x, y, z] = three(cell.op);
    let (x, y) = (position(first, positions, x), position(first, positions, y));
    step_for(
        netlist,
        cell.width,
        cell.op,
        x,
        y,
        position(first, positions, z),
    )
}

/// The steps of some cells, in their order.
pub fn steps_of(
    alloc: Global,
    netlist: &Netlist,
    first: u32,
    positions: &[u32],
    order: &[u64],
) -> Result<Vec<Step>, Memory>
    requires well { IsWellFormed netlist.now }
    requires first { first ≡ sources netlist.now }
    requires room { All (λ position. first + position < 2 ^ 32) positions.now }
    requires exist { All (λ place. place < length netlist.now.cells) order.now }
    ensures { IfOk result (λ steps. steps.items ≡ map (step_at netlist.now positions.now) order.now) }
{
    let mut steps = Vec::with_capacity(alloc, order.len())?;
    for place in order {
        steps.push(step_at(netlist, first, positions, *place))?;
    }
    Ok(steps)
}
