ghost use Rattle.std.specs.Prelude.{◌≡◌, ◌++◌, [], ◌∷◌, ◌+◌, ◌^◌, ◌<◌, length, codes, decimal, IfOk, Ok, OnOk, slice_index};
ghost use Rattle.net_cells.specs.Rules.{IsWellFormed, widths, sources};
ghost use Rattle.ver_text.specs.Spelling as spec;
ghost use Rattle.ver_text.specs.Reading.{read_text};
ghost use Rattle.ver_text.specs.TextLaw.{Spells};

use crate::kind::Kind;
use crate::writing::add_literal;
use dip_lists::{Bytes, Memory};
use dip_text::Text;
use net_cells::{Cell, CellOp, Netlist, OutPort, Port, Reg};
use std::alloc::Global;

// The bytes of a keyword or another token that isn't a name, a number or a literal.
fn written_as(kind: Kind) -> &'static [u8]
    ensures { result.now ≡ spec.written_as kind }
{
    match kind {
        Kind::Module => b"module",
        Kind::Input => b"input",
        Kind::Output => b"output",
        Kind::Reg => b"reg",
        Kind::Wire => b"wire",
        Kind::Assign => b"assign",
        Kind::Always => b"always",
        Kind::Posedge => b"posedge",
        Kind::Endmodule => b"endmodule",
        Kind::OpenParen => b"(",
        Kind::CloseParen => b")",
        Kind::OpenBracket => b"[",
        Kind::CloseBracket => b"]",
        Kind::OpenBrace => b"{",
        Kind::CloseBrace => b"}",
        Kind::Comma => b",",
        Kind::Semicolon => b";",
        Kind::Colon => b":",
        Kind::Becomes => b"=",
        Kind::Question => b"?",
        Kind::At => b"@",
        Kind::Tilde => b"~",
        Kind::And => b"&",
        Kind::Or => b"|",
        Kind::Xor => b"^",
        Kind::Plus => b"+",
        Kind::Minus => b"-",
        Kind::Equal => b"==",
        Kind::Less => b"<",
        Kind::LessEqual => b"<=",
        _ => b"",
    }
}

// The range of so many bits, from the highest down to 0.
fn add_range(text: &mut Text, width: u32) -> Result<(), Memory>
    ensures { OnOk result (text.new ≡ text.old ++ spec.laid (spec.range width)) }
{
    text.add(b"[")?;
    text.add_number(u64::from(width.saturating_sub(1)))?;
    text.add(b":0] ")
}

// A port: its direction, width and name.
fn add_port(text: &mut Text, direction: Kind, width: u32, name: &[u8]) -> Result<(), Memory>
    ensures { OnOk result (text.new ≡ text.old ++ spec.laid (spec.port_pieces direction width name.now)) }
{
    text.add(written_as(direction))?;
    text.add(b" ")?;
    add_range(text, width)?;
    text.add(name)
}

// The module's name, and the clock.
fn add_heading(text: &mut Text, name: &[u8]) -> Result<(), Memory>
    ensures { OnOk result (text.new ≡ text.old ++ spec.laid (spec.heading name.now)) }
{
    text.add(b"module ")?;
    text.add(name)?;
    text.add(b"(")?;
    add_port(text, Kind::Input, 1, b"clock")
}

// The inputs of the netlist.
fn add_inputs(text: &mut Text, inputs: &[Port]) -> Result<(), Memory>
    ensures { OnOk result (text.new ≡ text.old ++ spec.lines (spec.input_parts inputs.now)) }
{
    for port in inputs {
        text.add(b", ")?;
        add_port(text, Kind::Input, port.width, port.name.bytes())?;
    }
    Ok(())
}

// The width of a net, 0 where there is none.
#[tactic(auto, using(crate::proofs::Lists::index_get))]
fn width_of(netlist: &Netlist, net: u64) -> u32
    ensures { result ≡ slice_index (widths netlist.now) net }
{
    netlist.width_of(net).unwrap_or(0)
}

// The outputs, each with the width of its net.
fn add_outputs(text: &mut Text, netlist: &Netlist, outputs: &[OutPort]) -> Result<(), Memory>
    ensures { OnOk result (text.new ≡ text.old
        ++ spec.lines (spec.output_parts (widths netlist.now) outputs.now)) }
{
    for port in outputs {
        text.add(b", ")?;
        add_port(
            text,
            Kind::Output,
            width_of(netlist, port.net),
            port.name.bytes(),
        )?;
    }
    Ok(())
}

// The line that says how wide a register or the net of a cell is.
fn add_net(
    text: &mut Text,
    what: Kind,
    width: u32,
    letter: &[u8],
    number: u64,
) -> Result<(), Memory>
    ensures { OnOk result (text.new ≡ text.old
        ++ spec.laid (spec.net what width (letter.now ++ decimal number))) }
{
    text.add(written_as(what))?;
    text.add(b" ")?;
    add_range(text, width)?;
    text.add(letter)?;
    text.add_number(number)?;
    text.add(b";\n")
}

// A line for each register, numbered from a first one on.
fn add_registers(text: &mut Text, first: u64, regs: &[Reg]) -> Result<(), Memory>
    requires { first + length regs.now < 2 ^ 64 }
    ensures { OnOk result (text.new ≡ text.old ++ spec.lines (spec.registers first regs.now)) }
{
    let mut number = first;
    for reg in regs {
        add_net(text, Kind::Reg, reg.width, b"r", number)?;
        number += 1;
    }
    Ok(())
}

// A line for each cell's net, numbered from a first one on.
fn add_wires(text: &mut Text, first: u64, cells: &[Cell]) -> Result<(), Memory>
    requires { first + length cells.now < 2 ^ 64 }
    ensures { OnOk result (text.new ≡ text.old ++ spec.lines (spec.wires first cells.now)) }
{
    let mut number = first;
    for cell in cells {
        add_net(text, Kind::Wire, cell.width, b"w", number)?;
        number += 1;
    }
    Ok(())
}

// The number of the first cell's net.
fn sources(netlist: &Netlist) -> u64
    requires { length (widths netlist.now) < 2 ^ 64 }
    ensures { result ≡ sources netlist.now }
{
    netlist.inputs.len() as u64 + netlist.regs.len() as u64
}

// The name of a register or of the net of a cell, by its number.
fn add_made_name(text: &mut Text, sources: u64, number: u64) -> Result<(), Memory>
    ensures { OnOk result (text.new ≡ text.old ++ spec.made_name sources number) }
{
    if number < sources {
        text.add(b"r")?;
        text.add_number(number)
    } else {
        text.add(b"w")?;
        text.add_number(number)
    }
}

// The name of a net: that of an input, or the one that its number makes.
fn add_name(text: &mut Text, netlist: &Netlist, number: u64) -> Result<(), Memory>
    requires { length (widths netlist.now) < 2 ^ 64 }
    ensures { OnOk result (text.new ≡ text.old ++ spec.net_name netlist.now number) }
{
    match netlist.inputs.get(number as usize) {
        Some(port) => text.add(port.name.bytes()),
        None => add_made_name(text, sources(netlist), number),
    }
}

// Two nets with an operator between them.
fn add_between(
    text: &mut Text,
    netlist: &Netlist,
    x: u64,
    operator: Kind,
    y: u64,
) -> Result<(), Memory>
    requires { length (widths netlist.now) < 2 ^ 64 }
    ensures { OnOk result (text.new ≡ text.old
        ++ spec.laid (spec.between (spec.net_name netlist.now x) operator (spec.net_name netlist.now y))) }
{
    add_name(text, netlist, x)?;
    text.add(b" ")?;
    text.add(written_as(operator))?;
    text.add(b" ")?;
    add_name(text, netlist, y)
}

// A net inverted.
fn add_not(text: &mut Text, netlist: &Netlist, x: u64) -> Result<(), Memory>
    requires { length (widths netlist.now) < 2 ^ 64 }
    ensures { OnOk result (text.new ≡ text.old ++ spec.laid (spec.expression netlist.now 0 (CellOp.Not x))) }
{
    text.add(b"~")?;
    add_name(text, netlist, x)
}

// A choice by one net between two others.
fn add_mux(text: &mut Text, netlist: &Netlist, pick: u64, x: u64, y: u64) -> Result<(), Memory>
    requires { length (widths netlist.now) < 2 ^ 64 }
    ensures { OnOk result (text.new ≡ text.old
        ++ spec.laid (spec.expression netlist.now 0 (CellOp.Mux pick x y))) }
{
    add_name(text, netlist, pick)?;
    text.add(b" ? ")?;
    add_name(text, netlist, x)?;
    text.add(b" : ")?;
    add_name(text, netlist, y)
}

// Two nets joined.
fn add_concat(text: &mut Text, netlist: &Netlist, x: u64, y: u64) -> Result<(), Memory>
    requires { length (widths netlist.now) < 2 ^ 64 }
    ensures { OnOk result (text.new ≡ text.old
        ++ spec.laid (spec.expression netlist.now 0 (CellOp.Concat x y))) }
{
    text.add(b"{")?;
    add_name(text, netlist, x)?;
    text.add(b", ")?;
    add_name(text, netlist, y)?;
    text.add(b"}")
}

// Bits of a net.
fn add_select(text: &mut Text, netlist: &Netlist, x: u64, hi: u32, lo: u32) -> Result<(), Memory>
    requires { length (widths netlist.now) < 2 ^ 64 }
    ensures { OnOk result (text.new ≡ text.old
        ++ spec.laid (spec.expression netlist.now 0 (CellOp.Select x hi lo))) }
{
    add_name(text, netlist, x)?;
    text.add(b"[")?;
    text.add_number(u64::from(hi))?;
    text.add(b":")?;
    text.add_number(u64::from(lo))?;
    text.add(b"]")
}

// The expression of a cell of so many bits.
fn add_expression(text: &mut Text, netlist: &Netlist, width: u32, op: CellOp) -> Result<(), Memory>
    requires { length (widths netlist.now) < 2 ^ 64 }
    ensures { OnOk result (text.new ≡ text.old ++ spec.laid (spec.expression netlist.now width op)) }
{
    match op {
        CellOp::Const(value) => add_literal(text, width, value),
        CellOp::Not(x) => add_not(text, netlist, x),
        CellOp::And(x, y) => add_between(text, netlist, x, Kind::And, y),
        CellOp::Or(x, y) => add_between(text, netlist, x, Kind::Or, y),
        CellOp::Xor(x, y) => add_between(text, netlist, x, Kind::Xor, y),
        CellOp::Add(x, y) => add_between(text, netlist, x, Kind::Plus, y),
        CellOp::Sub(x, y) => add_between(text, netlist, x, Kind::Minus, y),
        CellOp::Eq(x, y) => add_between(text, netlist, x, Kind::Equal, y),
        CellOp::Less(x, y) => add_between(text, netlist, x, Kind::Less, y),
        CellOp::Mux(pick, x, y) => add_mux(text, netlist, pick, x, y),
        CellOp::Concat(x, y) => add_concat(text, netlist, x, y),
        CellOp::Select { net, hi, lo } => add_select(text, netlist, net, hi, lo),
    }
}

// The line that gives a cell its value.
fn add_cell_value(text: &mut Text, netlist: &Netlist, number: u64, cell: Cell) -> Result<(), Memory>
    requires { length (widths netlist.now) < 2 ^ 64 }
    ensures { OnOk result (text.new ≡ text.old
        ++ spec.laid
        (spec.assignment (spec.cell_name number) (spec.expression netlist.now cell.width cell.op))) }
{
    text.add(b"assign w")?;
    text.add_number(number)?;
    text.add(b" = ")?;
    add_expression(text, netlist, cell.width, cell.op)?;
    text.add(b";\n")
}

// A line for the value of each cell, numbered from a first one on.
fn add_cell_values(
    text: &mut Text,
    netlist: &Netlist,
    first: u64,
    cells: &[Cell],
) -> Result<(), Memory>
    requires few { length (widths netlist.now) < 2 ^ 64 }
    requires last { first + length cells.now < 2 ^ 64 }
    ensures { OnOk result (text.new ≡ text.old ++ spec.lines (spec.cell_values netlist.now first cells.now)) }
{
    let mut number = first;
    for cell in cells {
        add_cell_value(text, netlist, number, *cell)?;
        number += 1;
    }
    Ok(())
}

// The line that gives an output its net.
fn add_output_value(text: &mut Text, netlist: &Netlist, output: &OutPort) -> Result<(), Memory>
    requires { length (widths netlist.now) < 2 ^ 64 }
    ensures { OnOk result (text.new ≡ text.old
        ++ spec.laid
        (spec.assignment output.now.name (spec.tight_name (spec.net_name netlist.now output.now.net) ∷ []))) }
{
    text.add(b"assign ")?;
    text.add(output.name.bytes())?;
    text.add(b" = ")?;
    add_name(text, netlist, output.net)?;
    text.add(b";\n")
}

// A line for the net of each output.
fn add_output_values(text: &mut Text, netlist: &Netlist, outputs: &[OutPort]) -> Result<(), Memory>
    requires { length (widths netlist.now) < 2 ^ 64 }
    ensures { OnOk result (text.new ≡ text.old ++ spec.lines (spec.output_values netlist.now outputs.now)) }
{
    for output in outputs {
        add_output_value(text, netlist, output)?;
    }
    Ok(())
}

// The rising edge of the clock, and the register that changes at it.
fn add_edge(text: &mut Text, number: u64) -> Result<(), Memory>
    ensures { OnOk result (text.new ≡ text.old ++ (codes "always @(posedge clock) r" ++ decimal number)) }
{
    text.add(b"always @(")?;
    text.add(b"posedge ")?;
    text.add(b"clock) r")?;
    text.add_number(number)
}

// The line that gives a register its next net.
#[tactic(auto, unfolding(crate::specs::Spelling::update))]
fn add_update(text: &mut Text, netlist: &Netlist, number: u64, next: u64) -> Result<(), Memory>
    requires { length (widths netlist.now) < 2 ^ 64 }
    ensures { OnOk result (text.new ≡ text.old
        ++ spec.laid (spec.update (spec.register_name number) (spec.net_name netlist.now next))) }
{
    add_edge(text, number)?;
    text.add(b" <= ")?;
    add_name(text, netlist, next)?;
    text.add(b";\n")
}

// A line for the next net of each register, numbered from a first one on.
fn add_updates(text: &mut Text, netlist: &Netlist, first: u64, regs: &[Reg]) -> Result<(), Memory>
    requires few { length (widths netlist.now) < 2 ^ 64 }
    requires last { first + length regs.now < 2 ^ 64 }
    ensures { OnOk result (text.new ≡ text.old ++ spec.lines (spec.updates netlist.now first regs.now)) }
{
    let mut number = first;
    for reg in regs {
        add_update(text, netlist, number, reg.next)?;
        number += 1;
    }
    Ok(())
}

// The module and its ports.
#[tactic(auto, using(crate::proofs::Lists::joined), unfolding(crate::specs::Spelling::header))]
fn add_header(text: &mut Text, netlist: &Netlist) -> Result<(), Memory>
    ensures { OnOk result (text.new ≡ text.old ++ spec.group_lines (spec.header netlist.now)) }
{
    add_heading(text, netlist.name.bytes())?;
    add_inputs(text, netlist.inputs.as_slice())?;
    add_outputs(text, netlist, netlist.outputs.as_slice())?;
    text.add(b");\n")
}

// The lines that say which registers and cells there are.
#[tactic(auto, using(crate::proofs::Lists::joined), unfolding(crate::specs::Spelling::declarations))]
fn add_declarations(text: &mut Text, netlist: &Netlist) -> Result<(), Memory>
    requires { length (widths netlist.now) < 2 ^ 64 }
    ensures { OnOk result (text.new ≡ text.old ++ spec.group_lines (spec.declarations netlist.now)) }
{
    let first = netlist.inputs.len() as u64;
    let sources = sources(netlist);
    add_registers(text, first, netlist.regs.as_slice())?;
    add_wires(text, sources, netlist.cells.as_slice())
}

// The lines that say what values nets have, and the end.
#[tactic(auto, using(crate::proofs::Lists::joined), unfolding(crate::specs::Spelling::values))]
fn add_values(text: &mut Text, netlist: &Netlist) -> Result<(), Memory>
    requires { length (widths netlist.now) < 2 ^ 64 }
    ensures { OnOk result (text.new ≡ text.old ++ spec.group_lines (spec.values netlist.now)) }
{
    let first = netlist.inputs.len() as u64;
    let sources = sources(netlist);
    add_cell_values(text, netlist, sources, netlist.cells.as_slice())?;
    add_output_values(text, netlist, netlist.outputs.as_slice())?;
    add_updates(text, netlist, first, netlist.regs.as_slice())?;
    text.add(b"endmodule\n")
}

// The text of a netlist, in the one layout.
#[tactic(auto, unfolding(crate::specs::Spelling::layout))]
fn laid_out(alloc: Global, netlist: &Netlist) -> Result<Bytes, Memory>
    requires { IsWellFormed netlist.now }
    ensures { IfOk result (λ text. text ≡ spec.layout netlist.now) }
{
    let mut text = Text::new(alloc);
    add_header(&mut text, netlist)?;
    add_declarations(&mut text, netlist)?;
    add_values(&mut text, netlist)?;
    Ok(text.into_bytes())
}

/// The text of a netlist, in the one layout: it spells the netlist, and is read back as it. The error is
/// want of memory.
#[tactic(auto, using(crate::proofs::PrintedTexts::text_spells, crate::proofs::PrintedTexts::text_read))]
pub fn print(alloc: Global, netlist: &Netlist) -> Result<Bytes, Memory>
    requires { IsWellFormed netlist.now }
    ensures layout { IfOk result (λ text. text ≡ spec.layout netlist.now) }
    ensures spells { IfOk result (λ text. Spells text netlist.now) }
    ensures read { IfOk result (λ text. read_text text ≡ Ok netlist.now) }
{
    laid_out(alloc, netlist)
}
