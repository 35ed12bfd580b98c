//! Memories, a source driver and sink ports, a case a line.
//!
//! A line that begins with `cycle` passes a cycle of a driver that sends four requests: its number, in
//! hexadecimal digits, `take`, `full` or `stall`, and the id with which a beat comes back, if one does.
//!
//! A line that begins with `sink` serves a sink port; its parts stand between `;`. The first part has the
//! bytes of the bus, a delay and a role; another one is `ask` and the next request, an operation, a param, a
//! size, an id, an address, flags and bytes, or a cycle with `-`, `a`, `d` or `ad`, the channels on which the
//! port is stalled. The device is one of the test's own, in a box, at 64 addresses from 0x100 on.
//!
//! A line that begins with `try` tries beats at a sink port that is opened in the same way; another part is
//! `pass`, with which the offered beat passes, or a beat: an operation, a param, a size, an id, an address, a
//! mask and data. Each is followed by whether it leaves, how many beats are there, and what is offered.
//!
//! For any other line the program prepares a memory in a role at sixteen addresses, writes eight bytes, asks
//! one request, and prints the line with the answer and the eight bytes afterwards. The line has the role, an
//! operation, a param, a size (a base-2 logarithm), an address, flags, the bytes that are written first and
//! those of the request, each of eight bytes as one number, the first byte the lowest.
#![tactic(auto)]

mod ask;
mod counting;
mod drive;
mod made;
mod served;
mod tried;
mod words;

use crate::ask::{ask, due};
use crate::counting::Counting;
use crate::drive::{driver_opened, pass};
use crate::made::{Fields, number_of, request_of, room_of};
use crate::served::{do_parts, opened};
use crate::tried::{tried_open, try_parts};
use crate::words::{Case, case_of, cycle_of, opening_of};
use dip_lists::Memory;
use sim_ports::{Cells, Device, SourceDriver};
use std::alloc::Global;
use std::cell::Cell;
use std::fmt::Write;
use std::io;
use std::rc::Rc;
use tl_params::Op;

// The sixteen addresses round an address.
fn addresses_round(alloc: Global, address: u64) -> Result<Vec<u64>, Memory> {
    let first = address / 16 * 16;
    let mut addresses = Vec::new(alloc);
    for more in 0..16 {
        addresses.push(first.saturating_add(more))?;
    }
    Ok(addresses)
}

// The eight bytes round an address, read or written as a number.
fn eight(op: Op, address: u64, number: u64) -> Fields {
    Fields {
        op,
        param: 0,
        size: 3,
        source: 0,
        address: address / 8 * 8,
        flags: 0,
        number,
    }
}

// Room for so many bytes, which are not zeros.
fn spare(alloc: Global, count: usize) -> Result<Vec<u8>, Memory> {
    let mut bytes = Vec::new(alloc);
    for _place in 0..count {
        bytes.push(0xee)?;
    }
    Ok(bytes)
}

// Asks what a case says, and adds the answers to a text.
fn answer(alloc: Global, case: &Case, text: &mut String) -> Result<(), Memory> {
    let addresses = addresses_round(alloc, case.fields.address)?;
    let first = request_of(alloc, &eight(Op::PutFull, case.fields.address, case.old))?;
    let request = request_of(alloc, &case.fields)?;
    let last = request_of(alloc, &eight(Op::Get, case.fields.address, 0))?;
    let mut cells = Cells::new(alloc);
    cells.prepare(case.role, &addresses)?;
    let _written = ask(&mut cells, &addresses, &first, &mut []);
    let mut payload = spare(alloc, room_of(&request))?;
    let denied = ask(&mut cells, &addresses, &request, &mut payload);
    let given = number_of(&payload);
    let mut eight_bytes = spare(alloc, 8)?;
    let _read = ask(&mut cells, &addresses, &last, &mut eight_bytes);
    let after = number_of(&eight_bytes);
    match denied {
        Some(true) => write!(text, " denied {given:x} then {after:x}")?,
        Some(false) => write!(text, " done {given:x} then {after:x}")?,
        None => write!(text, " may not be asked")?,
    }
    Ok(())
}

// Serves a sink port as a line says, whose first part says how it is opened.
fn serve(
    alloc: Global,
    line: &str,
    drops: &Rc<Cell<u32>>,
    text: &mut String,
) -> Result<(), Memory> {
    let (first, parts) = line.split_once(';').unwrap_or((line, ""));
    let device: Box<dyn Device> = Box::new(alloc, Counting::new(alloc, drops.clone()?))?;
    let mut served = opened(alloc, opening_of(first.trim()), device)?;
    do_parts(alloc, &mut served, parts, text)
}

// Serves a sink port, and writes how many devices were dropped meanwhile.
fn serve_line(alloc: Global, line: &str, text: &mut String) -> Result<(), Memory> {
    let drops = Rc::new(alloc, Cell::new(0))?;
    serve(alloc, line, &drops, text)?;
    Ok(write!(text, "\n  {} dropped", drops.get())?)
}

// Tries beats at a sink port as a line says, whose first part says how it is opened.
fn try_line(alloc: Global, line: &str, text: &mut String) -> Result<(), Memory> {
    let (first, parts) = line.split_once(';').unwrap_or((line, ""));
    let device: Box<dyn Device> = Box::new(alloc, Cells::new(alloc))?;
    let mut tried = tried_open(alloc, opening_of(first.trim()), device)?;
    try_parts(&mut tried, parts, text)
}

// Answers a line: a cycle of the driver, a sink port, or a case.
fn answer_line(
    alloc: Global,
    driver: &mut SourceDriver,
    line: &str,
    text: &mut String,
) -> Result<(), Memory> {
    let (word, rest) = line.split_once(' ').unwrap_or((line, ""));
    if word == "cycle" {
        let cycle = cycle_of(rest);
        return pass(driver, cycle.cycle, cycle.way, cycle.back, text);
    }
    if word == "try" {
        return try_line(alloc, rest, text);
    }
    if word == "sink" {
        return serve_line(alloc, rest, text);
    }
    answer(alloc, &case_of(line), text)
}

// Answers all lines.
fn run(rt: &HostRuntime, driver: &mut SourceDriver) -> io::Result<()> {
    for line in rt.lines(rt.alloc()) {
        let line = line?;
        let mut text = String::new(rt.alloc());
        if answer_line(rt.alloc(), driver, line.as_str(), &mut text).is_err() {
            println!(rt; "out of memory")?;
        } else {
            println!(rt; "{line} ->{text}")?;
        }
    }
    Ok(())
}

fn main(rt: HostRuntime) -> io::Result<()> {
    match driver_opened(rt.alloc()) {
        Ok(Some(mut driver)) => run(&rt, &mut driver),
        _ => println!(rt; "no driver"),
    }
}
