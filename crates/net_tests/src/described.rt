ghost use Rattle.std.specs.Prelude.{◌≡◌, IfOk};

use dip_lists::{Items, Memory};
use dip_sets::Name;
use net_cells::{Cell, CellOp, Netlist, OutPort, Port, Reg};
use std::alloc::Global;

/// The first word of a line, and what stands behind the space after it.
pub fn cut(line: &str) -> (&str, &str) {
    line.split_once(' ').unwrap_or((line, ""))
}

/// The number that a word is; 0 where it is none.
pub fn number(word: &str) -> u64 {
    word.parse().unwrap_or(0)
}

/// The width that a word is, in bits; 0 where it is none.
pub fn width(word: &str) -> u32 {
    word.parse().unwrap_or(0)
}

/// The name that a word is.
pub fn name(alloc: Global, word: &str) -> Result<Name, Memory>
    ensures { IfOk result (λ name. name ≡ word.now) }
{
    Name::new(alloc, word)?.ok_or(Memory)
}

// A netlist of this name, with nothing in it.
fn empty(alloc: Global, word: &str) -> Result<Netlist, Memory> {
    Ok(Netlist {
        name: name(alloc, word)?,
        inputs: Items::new(alloc),
        regs: Items::new(alloc),
        cells: Items::new(alloc),
        outputs: Items::new(alloc),
    })
}

// An operator by its name and its numbers.
fn operator(word: &str, x: u64, y: u64, z: u64) -> CellOp {
    match word {
        "not" => CellOp::Not(x),
        "and" => CellOp::And(x, y),
        "or" => CellOp::Or(x, y),
        "xor" => CellOp::Xor(x, y),
        "add" => CellOp::Add(x, y),
        "sub" => CellOp::Sub(x, y),
        "eq" => CellOp::Eq(x, y),
        "less" => CellOp::Less(x, y),
        "mux" => CellOp::Mux(x, y, z),
        "concat" => CellOp::Concat(x, y),
        _ => CellOp::Const(x),
    }
}

// A cell by its width, its operator's name and its numbers, as `4 add 1 2` or, of net 3, `2 select 3 5 4`.
fn cell(words: &str) -> Cell {
    let (bits, rest) = cut(words);
    let (word, rest) = cut(rest);
    let (x, rest) = cut(rest);
    let (y, z) = cut(rest);
    let op = if word == "select" {
        CellOp::Select {
            net: number(x),
            hi: width(y),
            lo: width(z),
        }
    } else {
        operator(word, number(x), number(y), number(z))
    };
    Cell {
        width: width(bits),
        op,
    }
}

/// Adds an input.
pub fn add_port(
    alloc: Global,
    netlist: &mut Netlist,
    word: &str,
    width: u32,
) -> Result<(), Memory> {
    let name = name(alloc, word)?;
    netlist.inputs.push(Port { name, width })
}

// Adds an output.
fn add_output(alloc: Global, netlist: &mut Netlist, word: &str, net: u64) -> Result<(), Memory> {
    let name = name(alloc, word)?;
    netlist.outputs.push(OutPort { name, net })
}

/// Adds a cell.
pub fn add_cell(netlist: &mut Netlist, words: &str) -> Result<(), Memory> {
    netlist.cells.push(cell(words))
}

/// Adds what a line describes to a netlist: `input NAME WIDTH`, `reg WIDTH NEXT`, `cell WIDTH OPERATOR
/// NUMBERS` or `output NAME NET`.
pub fn add(alloc: Global, netlist: &mut Netlist, line: &str) -> Result<(), Memory> {
    let (word, rest) = cut(line);
    let (first, second) = cut(rest);
    match word {
        "input" => add_port(alloc, netlist, first, width(second)),
        "reg" => netlist.regs.push(Reg {
            width: width(first),
            next: number(second),
        }),
        "cell" => add_cell(netlist, rest),
        "output" => add_output(alloc, netlist, first, number(second)),
        _ => Ok(()),
    }
}

/// A chain of so many cells of one bit, each the inverse of the next one and the last one that of a net,
/// and an output that shows the first. Net 0 is `reset`, and the cells' nets are the next ones.
pub fn chain(alloc: Global, cells: u64, last: u64) -> Result<Netlist, Memory> {
    let mut netlist = empty(alloc, "m_t")?;
    add_port(alloc, &mut netlist, "reset", 1)?;
    for place in 2..cells.saturating_add(2) {
        let net = if place > cells { last } else { place };
        let op = CellOp::Not(net);
        netlist.cells.push(Cell { width: 1, op })?;
    }
    add_output(alloc, &mut netlist, "p_q", 1)?;
    Ok(netlist)
}

/// The netlist of one cell over `reset` and two inputs of one width, nets 1 and 2, and an output that shows
/// it.
pub fn single(alloc: Global, width: u32, cell: &str) -> Result<Netlist, Memory> {
    let mut netlist = empty(alloc, "m_t")?;
    add_port(alloc, &mut netlist, "reset", 1)?;
    add_port(alloc, &mut netlist, "p_x", width)?;
    add_port(alloc, &mut netlist, "p_y", width)?;
    add_cell(&mut netlist, cell)?;
    add_output(alloc, &mut netlist, "p_q", 3)?;
    Ok(netlist)
}

/// The netlist of this name that lines describe.
pub fn described(alloc: Global, name: &str, lines: &[String]) -> Result<Netlist, Memory> {
    let mut netlist = empty(alloc, name)?;
    for line in lines {
        add(alloc, &mut netlist, line.as_str())?;
    }
    Ok(netlist)
}
