ghost use Rattle.std.specs.Prelude.{◌≡◌, ◌+◌, ◌^◌, ◌<◌, IfOk, map, slice_index, ◌++◌, []};
ghost use Rattle.std.specs.List.{cons_option, filter_map};
ghost use Rattle.net_build.specs.declared.types.Made.{Made};
ghost use Rattle.net_build.specs.Built.{port_of};
ghost use Rattle.net_build.specs.Numbering.{AreNets, cell_of, counted, wire_counts, finished, net_among, next_of, out_of, reg_of, renamed};

use crate::types::{Item, Kind, Made};
use dip_lists::{Items, Memory};
use dip_sets::Name;
use net_cells::{Cell, CellList, CellOp, Netlist, OutPort, OutPorts, Port, Ports, Reg, Regs};
use std::alloc::Global;

/// How many wires of each kind there are.
#[derive(Debug, Clone, Copy)]
pub struct Counts {
    /// Inputs.
    pub inputs: u64,
    /// Registers.
    pub regs: u64,
    /// Wires with an operator.
    pub gates: u64,
}

// One wire more.
fn counted(counts: Counts, kind: &Kind) -> Counts
    requires { counts.inputs + counts.regs + counts.gates + 1 < 2 ^ 64 }
    ensures { result ≡ counted counts kind.now }
{
    let mut counts = counts;
    match kind {
        Kind::Input(_) => counts.inputs += 1,
        Kind::Register => counts.regs += 1,
        Kind::Gate(_) => counts.gates += 1,
    }
    counts
}

// How many wires of each kind there are.
fn count(made: &[Made]) -> Counts
    ensures { result ≡ wire_counts made.now }
{
    let mut counts = Counts {
        inputs: 0,
        regs: 0,
        gates: 0,
    };
    for wire in made {
        counts = counted(counts, &wire.item.kind);
    }
    counts
}

// The net of a wire of this kind, with so many wires in all and so many before it.
fn net_among(all: Counts, before: Counts, kind: &Kind) -> u64
    requires all { all.inputs + all.regs < 2 ^ 63 }
    requires before { before.regs + before.gates < 2 ^ 63 }
    ensures { result ≡ net_among all before kind.now }
{
    match kind {
        Kind::Input(_) => before.inputs,
        Kind::Register => all.inputs + before.regs,
        Kind::Gate(_) => all.inputs + all.regs + before.gates,
    }
}

// The nets of all wires, in their order.
fn nets_of(alloc: Global, made: &[Made]) -> Result<Vec<u64>, Memory>
    ensures { IfOk result (λ nets. AreNets made.now nets.items) }
{
    let all = count(made);
    let mut before = count(&[]);
    let mut nets: Vec<u64> = Vec::new(alloc);
    for wire in made {
        nets.push(net_among(all, before, &wire.item.kind))?;
        before = counted(before, &wire.item.kind);
    }
    Ok(nets)
}

// The net of a wire.
fn net(nets: &[u64], wire: u64) -> u64
    ensures { result ≡ slice_index nets.now wire }
{
    nets.get(wire as usize).copied().unwrap_or(0)
}

// An operator, with its operands numbered anew.
fn renamed(op: CellOp, nets: &[u64]) -> CellOp
    ensures { result ≡ renamed (slice_index nets.now) op }
{
    match op {
        CellOp::Const(value) => CellOp::Const(value),
        CellOp::Not(x) => CellOp::Not(net(nets, x)),
        CellOp::And(x, y) => CellOp::And(net(nets, x), net(nets, y)),
        CellOp::Or(x, y) => CellOp::Or(net(nets, x), net(nets, y)),
        CellOp::Xor(x, y) => CellOp::Xor(net(nets, x), net(nets, y)),
        CellOp::Add(x, y) => CellOp::Add(net(nets, x), net(nets, y)),
        CellOp::Sub(x, y) => CellOp::Sub(net(nets, x), net(nets, y)),
        CellOp::Eq(x, y) => CellOp::Eq(net(nets, x), net(nets, y)),
        CellOp::Less(x, y) => CellOp::Less(net(nets, x), net(nets, y)),
        CellOp::Mux(pick, x, y) => CellOp::Mux(net(nets, pick), net(nets, x), net(nets, y)),
        CellOp::Concat(x, y) => CellOp::Concat(net(nets, x), net(nets, y)),
        CellOp::Select { net: x, hi, lo } => CellOp::Select {
            net: net(nets, x),
            hi,
            lo,
        },
    }
}

// The net of the wire before a register; 0 where it has none.
fn next_of(next: Option<u64>, nets: &[u64]) -> u64
    ensures { result ≡ next_of (slice_index nets.now) next }
{
    match next {
        Some(wire) => net(nets, wire),
        None => 0,
    }
}

// The register of a wire that is one.
fn reg_of(made: &Made, nets: &[u64]) -> Option<Reg>
    ensures { result ≡ reg_of (slice_index nets.now) made.now }
{
    match made.item.kind {
        Kind::Register => Some(Reg {
            width: made.item.width,
            next: next_of(made.next, nets),
        }),
        Kind::Input(_) | Kind::Gate(_) => None,
    }
}

// The cell of a wire that has an operator.
fn cell_of(made: &Made, nets: &[u64]) -> Option<Cell>
    ensures { result ≡ cell_of (slice_index nets.now) made.now }
{
    match made.item.kind {
        Kind::Gate(op) => Some(Cell {
            width: made.item.width,
            op: renamed(op, nets),
        }),
        Kind::Input(_) | Kind::Register => None,
    }
}

// The port of a wire that is an input.
fn port_of(alloc: Global, item: &Item) -> Result<Option<Port>, Memory>
    ensures { IfOk result (λ port. port ≡ port_of item.now) }
{
    match &item.kind {
        Kind::Input(name) => Ok(Some(Port {
            name: name.copy(alloc)?,
            width: item.width,
        })),
        Kind::Register | Kind::Gate(_) => Ok(None),
    }
}

// Adds an item at the end, if there is one.
fn push_some<T: Drop>(items: &mut Items<T>, item: Option<T>) -> Result<(), Memory>
    ensures { IfOk result (λ _. items.new ≡ items.old ++ cons_option item []) }
{
    match item {
        Some(item) => items.push(item),
        None => Ok(()),
    }
}

// The inputs.
fn ports_of(alloc: Global, made: &[Made]) -> Result<Ports, Memory>
    ensures { IfOk result (λ ports. ports ≡ filter_map (λ (m : Made). port_of m.item) made.now) }
{
    let mut ports = Items::new(alloc);
    for wire in made {
        push_some(&mut ports, port_of(alloc, &wire.item)?)?;
    }
    Ok(ports)
}

// The registers, with the nets numbered anew.
fn regs_of(alloc: Global, made: &[Made], nets: &[u64]) -> Result<Regs, Memory>
    ensures { IfOk result (λ regs. regs ≡ filter_map (reg_of (slice_index nets.now)) made.now) }
{
    let mut regs = Items::new(alloc);
    for wire in made {
        push_some(&mut regs, reg_of(wire, nets))?;
    }
    Ok(regs)
}

// The cells, with the nets numbered anew.
fn cells_of(alloc: Global, made: &[Made], nets: &[u64]) -> Result<CellList, Memory>
    ensures { IfOk result (λ cells. cells ≡ filter_map (cell_of (slice_index nets.now)) made.now) }
{
    let mut cells = Items::new(alloc);
    for wire in made {
        push_some(&mut cells, cell_of(wire, nets))?;
    }
    Ok(cells)
}

// The outputs, with the nets numbered anew.
fn outputs_of(alloc: Global, ports: &[OutPort], nets: &[u64]) -> Result<OutPorts, Memory>
    ensures { IfOk result (λ outputs. outputs ≡ map (out_of (slice_index nets.now)) ports.now) }
{
    let mut outputs = Items::new(alloc);
    for port in ports {
        outputs.push(OutPort {
            name: port.name.copy(alloc)?,
            net: net(nets, port.net),
        })?;
    }
    Ok(outputs)
}

/// The netlist of a builder with this name, these wires and these outputs.
pub fn netlist_of(
    alloc: Global,
    name: Name,
    made: &[Made],
    outputs: &[OutPort],
) -> Result<Netlist, Memory>
    ensures { IfOk result
        (λ n. n ≡ finished (record { name = name; made = made.now; outputs = outputs.now })) }
{
    let list = nets_of(alloc, made)?;
    let nets = list.as_slice();
    let inputs = ports_of(alloc, made)?;
    let regs = regs_of(alloc, made, nets)?;
    let cells = cells_of(alloc, made, nets)?;
    let outputs = outputs_of(alloc, outputs, nets)?;
    Ok(Netlist {
        name,
        inputs,
        regs,
        cells,
        outputs,
    })
}
