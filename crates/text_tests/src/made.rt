use crate::answer::{answer_to, show};
use std::alloc::AllocError;
use std::io;

// The lines that say how wide the nets of so many cells are.
fn put_wires(cells: u64, text: &mut String) -> Result<(), AllocError> {
    for number in 0..cells {
        write!(text, "wire [0:0] w{};\n", number.saturating_add(1))?;
    }
    Ok(())
}

// The lines that give each of the cells its value, the inverse of `reset`.
fn put_values(cells: u64, text: &mut String) -> Result<(), AllocError> {
    for number in 0..cells {
        write!(text, "assign w{} = ~reset;\n", number.saturating_add(1))?;
    }
    Ok(())
}

// The text of a netlist with so many cells.
fn put_text(cells: u64, text: &mut String) -> Result<(), AllocError> {
    write!(
        text,
        "module m_large(input [0:0] clock, input [0:0] reset, output [0:0] p_q);\n"
    )?;
    put_wires(cells, text)?;
    put_values(cells, text)?;
    write!(text, "assign p_q = w{cells};\nendmodule\n")
}

// The inputs of a text, each called by these first letters and a number of eight digits from 0 on.
fn put_inputs(front: &str, count: usize, text: &mut String) -> Result<(), AllocError> {
    for number in 0..count {
        write!(text, ", input [0:0] {front}{number:08}")?;
    }
    Ok(())
}

// The text of a netlist with so many inputs, called by these first letters and a number, whose output is
// called by them and `last`, and shows the input with number 0.
fn put_ports(front: &str, count: usize, last: &str, text: &mut String) -> Result<(), AllocError> {
    write!(text, "module m_ports(input [0:0] clock, input [0:0] reset")?;
    put_inputs(front, count, text)?;
    write!(text, ", output [0:0] {front}{last});\n")?;
    write!(text, "assign {front}{last} = {front}00000000;\nendmodule\n")
}

/// Prints what reading answers to the text of a netlist with so many inputs and an output, whose names begin
/// with the same letters; and how long the text is.
pub fn ports(rt: &HostRuntime, count: usize, front: &str, last: &str) -> io::Result<()> {
    let mut text = String::new(rt.alloc());
    if put_ports(front, count, last, &mut text).is_err() {
        return println!(rt; "ports: out of memory");
    }
    println!(rt; "{} bytes", text.len())?;
    show(rt, "ports", answer_to(rt.alloc(), text.as_bytes()))
}

/// Prints what reading answers to the text of a netlist with so many cells, and how long the text is.
pub fn large(rt: &HostRuntime, cells: u64) -> io::Result<()> {
    let mut text = String::new(rt.alloc());
    if put_text(cells, &mut text).is_err() {
        return println!(rt; "large: out of memory");
    }
    println!(rt; "{} bytes", text.len())?;
    show(rt, "large", answer_to(rt.alloc(), text.as_bytes()))
}
