//! Calls on parameters, messages, beats and pieces, a case a line: the program reads lines from its
//! input, and prints each with the answer.
#![tactic(auto)]

mod beats;
mod codes;
mod made;
mod messages;
mod pieces;
mod ports;
mod wires;
mod words;

use dip_lists::Memory;
use std::alloc::Global;
use std::io;

// Writes the answer to a case.
fn answer(alloc: Global, word: &str, rest: &str, text: &mut String) -> Result<(), Memory> {
    match word {
        "width" => ports::width(rest, text),
        "nexus" => ports::nexus(text),
        "params" => ports::params(text),
        "answers" => ports::answers(text),
        "largest" => ports::largest(text),
        "owner" => ports::owners(alloc, rest, text),
        "codes" => codes::codes(text),
        "ops" => codes::ops(rest, text),
        "acks" => codes::acks(rest, text),
        "fragments" => codes::fragments(alloc, rest, text),
        "shrinks" => codes::shrinks(alloc, rest, text),
        "bundle" => ports::bundle(alloc, rest, text),
        "copies" => ports::copies(alloc, text),
        "count" => beats::count(rest, text),
        "sent" => beats::sent(alloc, rest, text),
        "active" => wires::active(rest, text),
        "bits" => wires::bits(alloc, rest, text),
        "down" => wires::down(alloc, rest, text),
        "up" => wires::up(alloc, rest, text),
        "cut" => pieces::cut(alloc, rest, text),
        "reply" => pieces::reply(alloc, rest, text),
        _ => beats::back(alloc, rest, text),
    }
}

// Prints a case and its answer.
fn case(rt: &HostRuntime, line: &str) -> io::Result<()> {
    let (word, rest) = line.split_once(' ').unwrap_or((line, ""));
    let mut text = String::new(rt.alloc());
    if answer(rt.alloc(), word, rest, &mut text).is_err() {
        return println!(rt; "{line} -> out of memory");
    }
    println!(rt; "{line} ->{text}")
}

fn main(rt: HostRuntime) -> io::Result<()> {
    for line in rt.lines(rt.alloc()) {
        case(&rt, line?.as_str())?;
    }
    Ok(())
}
