use crate::built;
use crate::described::{chain, cut, described, number, single, width};
use crate::queued::queued;
use crate::run::{formed, run, trace};
use dip_lists::{Items, Memory};
use net_cells::Netlist;
use std::alloc::{AllocError, Global};
use std::io;

/// What was read of the input: the name of the netlist that is described, and the lines that say what it
/// has.
#[derive(Drop)]
pub struct Script {
    name: String,
    lines: Vec<String>,
}

// The numbers that words are.
fn numbers(alloc: Global, words: &str) -> Result<Vec<u64>, AllocError> {
    let mut numbers = Vec::new(alloc);
    for word in words.split(' ') {
        numbers.push(number(word))?;
    }
    Ok(numbers)
}

// Prints whether a netlist is well formed, if there is one.
fn show_formed(rt: &HostRuntime, made: Result<Netlist, Memory>) -> io::Result<()> {
    match made {
        Ok(netlist) => formed(rt, &netlist),
        Err(_) => println!(rt; "no netlist"),
    }
}

// Runs a netlist, if there is one: `CYCLES INPUT INPUT ..`.
fn show_run(rt: &HostRuntime, made: Result<Netlist, Memory>, words: &str) -> io::Result<()> {
    let (cycles, rest) = cut(words);
    let inputs = numbers(rt.alloc(), rest)?;
    match made {
        Ok(netlist) => run(rt, netlist, inputs.as_slice(), number(cycles)),
        Err(_) => println!(rt; "no netlist"),
    }
}

// Runs the netlist of one cell for a cycle: `WIDTH RESET,X,Y CELL`, where the width is that of the two
// inputs.
fn show_single(rt: &HostRuntime, words: &str) -> io::Result<()> {
    let (bits, rest) = cut(words);
    let (values, cell) = cut(rest);
    let mut inputs = Vec::new(rt.alloc());
    for word in values.split(',') {
        inputs.push(number(word))?;
    }
    print!(rt; "{words}: ")?;
    match single(rt.alloc(), width(bits), cell) {
        Ok(netlist) => run(rt, netlist, inputs.as_slice(), 1),
        Err(_) => println!(rt; "no netlist"),
    }
}

// Prints how wide a net is.
fn show_width(rt: &HostRuntime, made: Result<Netlist, Memory>, net: u64) -> io::Result<()> {
    match made {
        Ok(netlist) => match netlist.width_of(net) {
            Some(width) => println!(rt; "net {net}: {width} bits"),
            None => println!(rt; "net {net}: none"),
        },
        Err(_) => println!(rt; "no netlist"),
    }
}

// Runs a chain of so many cells, of which the last reads this net.
fn show_chain(rt: &HostRuntime, words: &str) -> io::Result<()> {
    let (cells, last) = cut(words);
    show_run(rt, chain(rt.alloc(), number(cells), number(last)), "1 0")
}

// The numbers of one cycle: `RESET,PUT,ITEM,TAKE`.
fn cycle(alloc: Global, words: &str) -> Result<Items<u64>, Memory> {
    let mut numbers = Items::new(alloc);
    for word in words.split(',') {
        numbers.push(number(word))?;
    }
    Ok(numbers)
}

// Those of several cycles.
fn cycles(alloc: Global, words: &str) -> Result<Items<Items<u64>>, Memory> {
    let mut cycles = Items::new(alloc);
    for word in words.split(' ') {
        cycles.push(cycle(alloc, word)?)?;
    }
    Ok(cycles)
}

// Runs a queue of items of four bits, a cycle for each word.
fn show_queue(rt: &HostRuntime, words: &str) -> io::Result<()> {
    match (queued(rt.alloc()), cycles(rt.alloc(), words)) {
        (Ok(netlist), Ok(cycles)) => trace(rt, netlist, cycles.as_slice()),
        _ => println!(rt; "out of memory"),
    }
}

impl Script {
    /// Nothing was read.
    pub fn new(alloc: Global) -> Script {
        Script {
            name: String::new(alloc),
            lines: Vec::new(alloc),
        }
    }

    // The netlist that the lines describe.
    fn netlist(&self, alloc: Global) -> Result<Netlist, Memory> {
        described(alloc, self.name.as_str(), self.lines.as_slice())
    }

    // Begins the description of a netlist of this name.
    fn begin(&mut self, alloc: Global, name: &str) -> io::Result<()> {
        self.lines.clear();
        self.name = String::from_str(alloc, name)?;
        Ok(())
    }

    // One more line of the description.
    fn describe(&mut self, alloc: Global, line: &str) -> io::Result<()> {
        self.lines.push(String::from_str(alloc, line)?)?;
        Ok(())
    }

    /// Takes a line of the input. `netlist NAME` begins the description of a netlist, to which `input`,
    /// `reg`, `cell` and `output` add. Then `formed` asks whether it is well formed, `width NET` how wide a
    /// net is, and `run CYCLES INPUTS` what its output shows after so many cycles; `op` asks for the value
    /// of one cell, `chain` for that of many, and `counter`, `shown`, `late`, `operators` and `folds` about
    /// netlists that a builder made; `queue` runs a queue, a cycle for each word. Any other line is printed.
    pub fn take(&mut self, rt: &HostRuntime, line: &str) -> io::Result<()> {
        let alloc = rt.alloc();
        let (word, rest) = cut(line);
        match word {
            "netlist" => self.begin(alloc, rest),
            "input" | "reg" | "cell" | "output" => self.describe(alloc, line),
            "formed" => show_formed(rt, self.netlist(alloc)),
            "width" => show_width(rt, self.netlist(alloc), number(rest)),
            "run" => show_run(rt, self.netlist(alloc), rest),
            "op" => show_single(rt, rest),
            "chain" => show_chain(rt, rest),
            "counter" => show_run(rt, built::counter(alloc), rest),
            "shown" => show_run(rt, built::shown(alloc), rest),
            "late" => show_run(rt, built::late(alloc), rest),
            "operators" => show_formed(rt, built::operators(alloc)),
            "queue" => show_queue(rt, rest),
            "folds" => show_formed(rt, built::folds(alloc)),
            "" => Ok(()),
            _ => println!(rt; "{line}"),
        }
    }
}
