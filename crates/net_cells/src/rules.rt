ghost use Rattle.std.specs.Prelude.{◌≡◌, ◌↔◌, ◌+◌, ◌-◌, ◌^◌, ◌<◌, ◌≤◌, IsTrue, All, drop, codes, length};
ghost use Rattle.std.specs.Prelude.{◌≢◌, AllPairs, IfOk, Some, is_some, map, not, slice_get};
ghost use Rattle.net_cells.specs.NameTables.{are_new, number_in, with_names, with_number};
ghost use Rattle.net_cells.specs.declared.netlist.Port.{Port};
ghost use Rattle.net_cells.specs.declared.netlist.Reg.{Reg};
ghost use Rattle.net_cells.specs.declared.netlist.Cell.{Cell};
ghost use Rattle.net_cells.specs.declared.netlist.OutPort.{OutPort};
ghost use Rattle.net_cells.specs.Rules.{IsNet, HasWidth, HaveWidth, HaveOneWidth, IsCell, IsNamed, IsWidth, IsWellFormed, port_names, widths};

use crate::name_table::NameTable;
use crate::netlist::{Cell, CellOp, Netlist, OutPort, Port, Reg, WIDTH_LIMIT};
use dip_lists::Memory;
use dip_sets::Name;
use std::alloc::Global;

// Whether a number has at most so many bits.
#[tactic(auto, using(crate::proofs::Nets::bits))]
fn has_bits(value: u64, width: u32) -> bool
    ensures { IsTrue result ↔ (value < 2 ^ width) }
{
    if width >= u64::BITS {
        return true;
    }
    value >> width == 0
}

fn is_net(netlist: &Netlist, net: u64) -> bool
    ensures { IsTrue result ↔ IsNet (widths netlist.now) net }
{
    netlist.width_of(net).is_some()
}

// Whether a net exists and has this width.
fn has_width(netlist: &Netlist, net: u64, width: u32) -> bool
    ensures { IsTrue result ↔ HasWidth (widths netlist.now) net width }
{
    match netlist.width_of(net) {
        Some(found) => found == width,
        None => false,
    }
}

fn have_width(netlist: &Netlist, x: u64, y: u64, width: u32) -> bool
    ensures { IsTrue result ↔ HaveWidth (widths netlist.now) x y width }
{
    has_width(netlist, x, width) && has_width(netlist, y, width)
}

// Whether two nets exist and have one width.
fn have_one_width(netlist: &Netlist, x: u64, y: u64) -> bool
    ensures { IsTrue result ↔ HaveOneWidth (widths netlist.now) x y }
{
    match netlist.width_of(x) {
        Some(width) => has_width(netlist, y, width),
        None => false,
    }
}

// Whether the widths of two nets add up to that of a cell.
fn is_joined(netlist: &Netlist, x: u64, y: u64, width: u32) -> bool
    ensures { IsTrue result ↔ IsCell (widths netlist.now) width (CellOp.Concat x y) }
{
    let (Some(high), Some(low)) = (netlist.width_of(x), netlist.width_of(y)) else {
        return false;
    };
    u64::from(high) + u64::from(low) == u64::from(width)
}

// Whether a net has the bits from `lo` to `hi`, as many as a cell has.
fn is_part(netlist: &Netlist, net: u64, hi: u32, lo: u32, width: u32) -> bool
    ensures { IsTrue result
        ↔ IsCell (widths netlist.now) width (CellOp.Select net hi lo) }
{
    match netlist.width_of(net) {
        Some(found) => hi < found && lo <= hi && width == hi - lo + 1,
        None => false,
    }
}

// Whether a cell meets the rule of its operator, by the widths of what it reads.
fn is_cell(netlist: &Netlist, cell: Cell) -> bool
    ensures { IsTrue result ↔ IsCell (widths netlist.now) cell.width cell.op }
{
    let width = cell.width;
    match cell.op {
        CellOp::Const(value) => has_bits(value, width),
        CellOp::Not(x) => has_width(netlist, x, width),
        CellOp::And(x, y)
        | CellOp::Or(x, y)
        | CellOp::Xor(x, y)
        | CellOp::Add(x, y)
        | CellOp::Sub(x, y) => have_width(netlist, x, y, width),
        CellOp::Eq(x, y) | CellOp::Less(x, y) => width == 1 && have_one_width(netlist, x, y),
        CellOp::Mux(pick, x, y) => has_width(netlist, pick, 1) && have_width(netlist, x, y, width),
        CellOp::Concat(x, y) => is_joined(netlist, x, y, width),
        CellOp::Select { net, hi, lo } => is_part(netlist, net, hi, lo, width),
    }
}

fn is_width(width: u32) -> bool
    ensures { IsTrue result ↔ IsWidth width }
{
    1 <= width && width <= WIDTH_LIMIT
}

fn is_port(port: &Port) -> bool
    ensures { IsTrue result ↔ IsNamed (codes "p_") port.now.name }
{
    is_named(&port.name, b"p_")
}

fn is_out_port(port: &OutPort) -> bool
    ensures { IsTrue result ↔ IsNamed (codes "p_") port.now.name }
{
    is_named(&port.name, b"p_")
}

// Whether a name has at least 3 bytes and begins with these.
fn is_named(name: &Name, front: &[u8]) -> bool
    ensures { IsTrue result ↔ IsNamed front.now name.now }
{
    let bytes = name.bytes();
    bytes.starts_with(front) && bytes.len() >= 3
}

fn is_reset(port: &Port) -> bool
    ensures { IsTrue result ↔ (port.now ≡ record { name = codes "reset"; width = 1 }) }
{
    port.width == 1 && port.name.bytes() == b"reset".as_slice()
}

// Whether the first input is `reset`, of one bit.
fn has_reset(inputs: &[Port]) -> bool
    ensures { IsTrue result
        ↔ (slice_get inputs.now 0 ≡ Some (record { name = codes "reset"; width = 1 })) }
{
    match inputs.first() {
        Some(port) => is_reset(port),
        None => false,
    }
}

// Whether all inputs behind the first have names of ports.
fn has_inputs(inputs: &[Port]) -> bool
    ensures { IsTrue result
        ↔ All (λ (p : Port). IsNamed (codes "p_") p.name) (drop 1 inputs.now) }
{
    match inputs {
        [] => true,
        [_, rest @ ..] => rest.iter().all(is_port),
    }
}

// Whether all outputs have names of ports.
fn has_outputs(outputs: &[OutPort]) -> bool
    ensures { IsTrue result
        ↔ All (λ (o : OutPort). IsNamed (codes "p_") o.name) outputs.now }
{
    outputs.iter().all(is_out_port)
}

// Whether the next net of each register exists and has its width.
fn has_regs(netlist: &Netlist) -> bool
    ensures { IsTrue result
        ↔ All (λ (r : Reg). HasWidth (widths netlist.now) r.next r.width) netlist.now.regs }
{
    netlist
        .regs
        .as_slice()
        .iter()
        .all(|reg| has_width(netlist, reg.next, reg.width))
}

// Whether each cell meets its rule.
fn has_cells(netlist: &Netlist) -> bool
    ensures { IsTrue result
        ↔ All (λ (c : Cell). IsCell (widths netlist.now) c.width c.op) netlist.now.cells }
{
    netlist
        .cells
        .as_slice()
        .iter()
        .all(|cell| is_cell(netlist, *cell))
}

// Whether the net of each output exists.
fn shows_nets(netlist: &Netlist) -> bool
    ensures { IsTrue result
        ↔ All (λ (o : OutPort). IsNet (widths netlist.now) o.net) netlist.now.outputs }
{
    netlist
        .outputs
        .as_slice()
        .iter()
        .all(|port| is_net(netlist, port.net))
}

fn ports_have_widths(ports: &[Port]) -> bool
    ensures { IsTrue result ↔ All (λ (p : Port). IsWidth p.width) ports.now }
{
    ports.iter().all(|port| is_width(port.width))
}

fn regs_have_widths(regs: &[Reg]) -> bool
    ensures { IsTrue result ↔ All (λ (r : Reg). IsWidth r.width) regs.now }
{
    regs.iter().all(|reg| is_width(reg.width))
}

fn cells_have_widths(cells: &[Cell]) -> bool
    ensures { IsTrue result ↔ All (λ (c : Cell). IsWidth c.width) cells.now }
{
    cells.iter().all(|cell| is_width(cell.width))
}

// Whether all nets have widths that a net may have: inputs, registers and cells.
fn have_widths(netlist: &Netlist) -> bool
    ensures { IsTrue result ↔ All IsWidth (widths netlist.now) }
{
    if !ports_have_widths(netlist.inputs.as_slice()) {
        return false;
    }
    if !regs_have_widths(netlist.regs.as_slice()) {
        return false;
    }
    cells_have_widths(netlist.cells.as_slice())
}

// Whether there are fewer than 2^64 nets.
fn are_few(netlist: &Netlist) -> bool
    ensures { IsTrue result ↔ (length (widths netlist.now) < 2 ^ 64) }
{
    let regs = netlist.regs.len() as u64;
    let cells = netlist.cells.len() as u64;
    let sources = (netlist.inputs.len() as u64).checked_add(regs);
    sources.is_some_and(|sources| sources.checked_add(cells).is_some())
}

// Whether a name isn't in the table, where it is put then.
fn is_new(table: &mut NameTable, name: &Name) -> Result<bool, Memory>
    ensures answer { IfOk result (λ is. is ≡ not (is_some (number_in table.old name.now))) }
    ensures known { IfOk result (λ is. IsTrue is
        → number_in table.new ≡ with_number (number_in table.old) name.now 0) }
{
    if table.number_of(name.bytes()).is_some() {
        return Ok(false);
    }
    table.set(name.bytes(), 0)?;
    Ok(true)
}

// Whether the names of inputs differ and aren't in the table, where they are put then.
fn are_new_inputs(table: &mut NameTable, inputs: &[Port]) -> Result<bool, Memory>
    ensures answer { IfOk result (λ is. is
        ≡ are_new (number_in table.old) (map (λ (p : Port). p.name) inputs.now)) }
    ensures known { IfOk result (λ is. IsTrue is
        → number_in table.new ≡ with_names (number_in table.old) (map (λ (p : Port). p.name) inputs.now)) }
{
    for port in inputs {
        if !is_new(table, &port.name)? {
            return Ok(false);
        }
    }
    Ok(true)
}

// Whether the names of outputs differ and aren't in the table.
fn are_new_outputs(table: &mut NameTable, outputs: &[OutPort]) -> Result<bool, Memory>
    ensures { IfOk result (λ is. is
        ≡ are_new (number_in table.old) (map (λ (o : OutPort). o.name) outputs.now)) }
{
    for port in outputs {
        if !is_new(table, &port.name)? {
            return Ok(false);
        }
    }
    Ok(true)
}

// Whether no two ports have one name.
fn names_differ(alloc: Global, netlist: &Netlist) -> Result<bool, Memory>
    ensures { IfOk result (λ is. IsTrue is ↔ AllPairs (λ x y. x ≢ y) (port_names netlist.now)) }
{
    let mut table = NameTable::new(alloc);
    if !are_new_inputs(&mut table, netlist.inputs.as_slice())? {
        return Ok(false);
    }
    are_new_outputs(&mut table, netlist.outputs.as_slice())
}

/// Whether the rules of well-formed netlists hold: its name, its ports, the number of its nets, their
/// widths, and what each register, cell and output names. Takes time linear in the size of the netlist, but
/// for the names of its ports: each is looked up among those before it, whatever names they are.
pub fn well_formed(alloc: Global, netlist: &Netlist) -> Result<bool, Memory>
    ensures { IfOk result (λ is. IsTrue is ↔ IsWellFormed netlist.now) }
{
    let distinct = names_differ(alloc, netlist)?;
    Ok(
        distinct
            && is_named(&netlist.name, b"m_")
            && has_reset(netlist.inputs.as_slice())
            && has_inputs(netlist.inputs.as_slice())
            && has_outputs(netlist.outputs.as_slice())
            && are_few(netlist)
            && have_widths(netlist)
            && has_regs(netlist)
            && has_cells(netlist)
            && shows_nets(netlist),
    )
}
