ghost use Rattle.net_cells.specs.Rules.{IsWellFormed};

use net_cells::Netlist;
use std::alloc::Global;
use std::io;
use ver_text::{TextFault, print, read};

/// What reading answers to a text.
#[derive(Debug, Clone, Copy, PartialEq, Eq)]
pub enum Answer {
    /// It spells a netlist, whose printed text it is.
    Printed,
    /// It spells a netlist, whose printed text is another one.
    Spelled,
    /// It is refused at this place.
    Refused(usize),
    /// Memory was wanting.
    Memory,
}

// Whether a text is the printed one of the netlist that was read of it.
fn printed(alloc: Global, netlist: &Netlist, text: &[u8]) -> Answer
    requires { IsWellFormed netlist.now }
{
    match print(alloc, netlist) {
        Ok(again) => {
            if again.as_slice() == text {
                Answer::Printed
            } else {
                Answer::Spelled
            }
        }
        Err(_) => Answer::Memory,
    }
}

/// What reading answers to a text.
pub fn answer_to(alloc: Global, text: &[u8]) -> Answer {
    match read(alloc, text) {
        Ok(netlist) => printed(alloc, &netlist, text),
        Err(TextFault::NotText { place }) => Answer::Refused(place),
        Err(TextFault::Memory) => Answer::Memory,
    }
}

/// Prints an answer, behind a word that says of what.
pub fn show(rt: &HostRuntime, of: &str, answer: Answer) -> io::Result<()> {
    match answer {
        Answer::Printed => println!(rt; "{of}: the printed text of its netlist"),
        Answer::Spelled => println!(rt; "{of}: spells a netlist"),
        Answer::Refused(place) => println!(rt; "{of}: refused at {place}"),
        Answer::Memory => println!(rt; "{of}: out of memory"),
    }
}

// The name of a netlist, and how many ports, registers and cells it has.
fn show_counts(rt: &HostRuntime, netlist: &Netlist) -> io::Result<()> {
    let name = netlist.name.as_str();
    let (inputs, outputs) = (netlist.inputs.len(), netlist.outputs.len());
    let (regs, cells) = (netlist.regs.len(), netlist.cells.len());
    println!(rt; "{name}: {inputs} inputs, {outputs} outputs, {regs} registers, {cells} cells")
}

// The cells of a netlist, a line for each.
fn show_cells(rt: &HostRuntime, netlist: &Netlist) -> io::Result<()> {
    for cell in netlist.cells.as_slice() {
        println!(rt; "{} bits, {:?}", cell.width, cell.op)?;
    }
    Ok(())
}

/// Prints what a text says: its counts and its cells.
pub fn show_netlist(rt: &HostRuntime, text: &[u8]) -> io::Result<()> {
    match read(rt.alloc(), text) {
        Ok(netlist) => {
            show_counts(rt, &netlist)?;
            show_cells(rt, &netlist)
        }
        Err(_) => println!(rt; "no netlist"),
    }
}
