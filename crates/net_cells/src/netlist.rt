ghost use Rattle.std.specs.Prelude.{◌≡◌, map, slice_get};
ghost use Rattle.net_cells.specs.declared.netlist.Port.{Port};
ghost use Rattle.net_cells.specs.declared.netlist.Reg.{Reg};
ghost use Rattle.net_cells.specs.declared.netlist.Cell.{Cell};
ghost use Rattle.net_cells.specs.Rules.{widths};

use dip_lists::Items;
use dip_sets::Name;

/// The greatest width of a net, in bits.
pub const WIDTH_LIMIT: u32 = 64;

/// An input: its name, and its width in bits.
#[derive(Debug, Drop)]
pub struct Port {
    /// What it is called.
    pub name: Name,
    /// Its width in bits.
    pub width: u32,
}

/// A register: its width in bits, and the net whose value it takes at the end of each cycle.
#[derive(Debug, Clone, Copy, PartialEq, Eq)]
pub struct Reg {
    /// Its width in bits.
    pub width: u32,
    /// The number of its next net.
    pub next: u64,
}

/// A cell: its width in bits, and the operator that makes its value.
#[derive(Debug, Clone, Copy, PartialEq, Eq)]
pub struct Cell {
    /// Its width in bits.
    pub width: u32,
    /// Its operator.
    pub op: CellOp,
}

/// An output: its name, and the net whose value it shows.
#[derive(Debug, Drop)]
pub struct OutPort {
    /// What it is called.
    pub name: Name,
    /// The number of its net.
    pub net: u64,
}

/// An operator of a cell, with the numbers of its operands' nets.
#[derive(Debug, Clone, Copy, PartialEq, Eq)]
pub enum CellOp {
    /// A constant.
    Const(u64),
    /// Each bit inverted.
    Not(u64),
    /// Bit by bit, 1 where both are.
    And(u64, u64),
    /// Bit by bit, 1 where one is.
    Or(u64, u64),
    /// Bit by bit, 1 where they differ.
    Xor(u64, u64),
    /// The sum, modulo 2 to the power of the width.
    Add(u64, u64),
    /// The difference, modulo 2 to the power of the width.
    Sub(u64, u64),
    /// 1 where both are equal.
    Eq(u64, u64),
    /// 1 where the first is below the second, both unsigned.
    Less(u64, u64),
    /// The second where the first is 1, and else the third.
    Mux(u64, u64, u64),
    /// The first in the high bits, the second in the low ones.
    Concat(u64, u64),
    /// The bits of a net from `lo` to `hi`, both counted from 0 and both included.
    Select {
        /// The net.
        net: u64,
        /// The highest bit taken.
        hi: u32,
        /// The lowest bit taken.
        lo: u32,
    },
}

/// Inputs.
pub type Ports = Items<Port>;

/// Registers.
pub type Regs = Items<Reg>;

/// Cells.
pub type CellList = Items<Cell>;

/// Outputs.
pub type OutPorts = Items<OutPort>;

/// A netlist. Its nets are numbered from 0: the inputs, then the registers, then the cells.
#[derive(Debug, Drop)]
pub struct Netlist {
    /// What it is called.
    pub name: Name,
    /// The inputs; input 0 is `reset`.
    pub inputs: Ports,
    /// The registers.
    pub regs: Regs,
    /// The cells.
    pub cells: CellList,
    /// The outputs.
    pub outputs: OutPorts,
}

fn port_width(ports: &[Port], place: usize) -> Option<u32>
    ensures { result ≡ slice_get (map (λ (p : Port). p.width) ports.now) place }
{
    ports.get(place).map(|port| port.width)
}

fn reg_width(regs: &[Reg], place: usize) -> Option<u32>
    ensures { result ≡ slice_get (map (λ (r : Reg). r.width) regs.now) place }
{
    regs.get(place).map(|reg| reg.width)
}

fn cell_width(cells: &[Cell], place: usize) -> Option<u32>
    ensures { result ≡ slice_get (map (λ (c : Cell). c.width) cells.now) place }
{
    cells.get(place).map(|cell| cell.width)
}

impl Netlist {
    /// The width in bits of the net with this number; `None` exactly where there is no such net.
    #[tactic(auto, using(crate::proofs::Nets::places))]
    pub fn width_of(&self, net: u64) -> Option<u32>
        ensures { result ≡ slice_get (widths self.now) net }
    {
        let inputs = self.inputs.len() as u64;
        if net < inputs {
            return port_width(self.inputs.as_slice(), net as usize);
        }
        let behind = net - inputs;
        let regs = self.regs.len() as u64;
        if behind < regs {
            return reg_width(self.regs.as_slice(), behind as usize);
        }
        cell_width(self.cells.as_slice(), (behind - regs) as usize)
    }
}
