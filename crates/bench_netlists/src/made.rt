use dip_lists::{Items, Memory};
use dip_sets::Name;
use net_cells::{Cell, CellOp, Netlist, OutPort, Port, Reg};
use std::alloc::Global;

/// Numbers that look drawn by chance, the same in each run.
#[derive(Debug, Clone, Copy)]
struct Draws {
    state: u64,
}

impl Draws {
    fn next(&mut self) -> u64 {
        let next = self.state.wrapping_mul(6_364_136_223_846_793_005);
        self.state = next.wrapping_add(1_442_695_040_888_963_407);
        self.state >> 33
    }

    // One of some numbers; 0 where there is none.
    fn pick(&mut self, numbers: &[u64]) -> u64 {
        let place = self.next().checked_rem(numbers.len() as u64).unwrap_or(0);
        numbers.get(place as usize).copied().unwrap_or(0)
    }
}

/// The nets made so far, by their widths.
#[derive(Debug, Drop)]
struct Pools {
    /// Nets of 1 bit.
    bits: Vec<u64>,
    /// Nets of 16 bits.
    halves: Vec<u64>,
    /// Nets of 32 bits.
    wides: Vec<u64>,
}

impl Pools {
    // One more net of this width.
    fn add(&mut self, net: u64, width: u32) -> Result<(), Memory> {
        match width {
            1 => self.bits.push(net)?,
            16 => self.halves.push(net)?,
            _ => self.wides.push(net)?,
        }
        Ok(())
    }
}

fn cell(width: u32, op: CellOp) -> Cell {
    Cell { width, op }
}

// A cell of one of the twelve operators over nets that were made before.
fn drawn(draws: &mut Draws, pools: &Pools) -> Cell {
    let x = draws.pick(pools.wides.as_slice());
    let y = draws.pick(pools.wides.as_slice());
    match draws.next() % 12 {
        0 => cell(32, CellOp::Const(x)),
        1 => cell(32, CellOp::Not(x)),
        2 => cell(32, CellOp::And(x, y)),
        3 => cell(32, CellOp::Or(x, y)),
        4 => cell(32, CellOp::Xor(x, y)),
        5 => cell(32, CellOp::Add(x, y)),
        6 => cell(32, CellOp::Sub(x, y)),
        7 => cell(1, CellOp::Eq(x, y)),
        8 => cell(1, CellOp::Less(x, y)),
        9 => cell(32, CellOp::Mux(draws.pick(pools.bits.as_slice()), x, y)),
        10 => halves_joined(draws, pools),
        _ => half_of(draws, x),
    }
}

// Two nets of 16 bits joined.
fn halves_joined(draws: &mut Draws, pools: &Pools) -> Cell {
    let high = draws.pick(pools.halves.as_slice());
    let low = draws.pick(pools.halves.as_slice());
    cell(32, CellOp::Concat(high, low))
}

// Sixteen bits of a net of 32.
fn half_of(draws: &mut Draws, net: u64) -> Cell {
    let lo = (draws.next() % 17) as u32;
    let hi = lo + 15;
    cell(16, CellOp::Select { net, hi, lo })
}

fn name(alloc: Global, text: &str) -> Result<Name, Memory> {
    Name::new(alloc, text)?.ok_or(Memory)
}

// The cells, behind so many registers; the first one makes a net of 16 bits.
fn cells_of(
    alloc: Global,
    draws: &mut Draws,
    pools: &mut Pools,
    regs: u64,
    cells: u64,
) -> Result<Items<Cell>, Memory> {
    let mut list = Items::new(alloc);
    for number in 0..cells {
        let made = if number == 0 {
            half_of(draws, 1)
        } else {
            drawn(draws, pools)
        };
        pools.add(number.wrapping_add(regs).wrapping_add(1), made.width)?;
        list.push(made)?;
    }
    Ok(list)
}

// Registers of 32 bits that take nets of that width.
fn regs_of(
    alloc: Global,
    draws: &mut Draws,
    pools: &Pools,
    count: u64,
) -> Result<Items<Reg>, Memory> {
    let mut list = Items::new(alloc);
    for _ in 0..count {
        let next = draws.pick(pools.wides.as_slice());
        list.push(Reg { width: 32, next })?;
    }
    Ok(list)
}

/// A netlist of so many cells of all operators and a tenth as many registers, with `reset` and one output.
pub fn netlist(alloc: Global, cells: u64) -> Result<Netlist, Memory> {
    let regs = cells / 10 + 1;
    let mut draws = Draws { state: 1 };
    let mut pools = Pools {
        bits: vec![in alloc; 0]?,
        halves: Vec::new(alloc),
        wides: Vec::new(alloc),
    };
    for reg in 0..regs {
        pools.add(reg + 1, 32)?;
    }
    let cells = cells_of(alloc, &mut draws, &mut pools, regs, cells)?;
    let regs = regs_of(alloc, &mut draws, &pools, regs)?;
    let mut inputs = Items::new(alloc);
    inputs.push(Port {
        name: name(alloc, "reset")?,
        width: 1,
    })?;
    let mut outputs = Items::new(alloc);
    outputs.push(OutPort {
        name: name(alloc, "p_last")?,
        net: draws.pick(pools.wides.as_slice()),
    })?;
    Ok(Netlist {
        name: name(alloc, "m_made")?,
        inputs,
        regs,
        cells,
        outputs,
    })
}

/// The same with one cell more, the only one that depends on itself.
pub fn looped(alloc: Global, cells: u64) -> Result<Netlist, Memory> {
    let mut netlist = netlist(alloc, cells)?;
    let own = netlist.inputs.len() as u64;
    let own = own.wrapping_add(netlist.regs.len() as u64);
    let own = own.wrapping_add(netlist.cells.len() as u64);
    netlist.cells.push(cell(32, CellOp::Not(own)))?;
    Ok(netlist)
}
