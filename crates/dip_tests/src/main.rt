//! Calls of the base crates, a case a line: the program reads lines from its input, and prints each with
//! the answer.
#![tactic(auto)]

mod files;
mod lists;
mod ranges;
mod sets;
mod shapes;
mod words;

use dip_lists::Memory;
use std::alloc::Global;
use std::io;

// Writes the answer to a case of lists, texts and names.
fn answer_of_lists(alloc: Global, word: &str, rest: &str, text: &mut String) -> Result<(), Memory> {
    match word {
        "items" => lists::items(alloc, rest, text),
        "replaced" => lists::replaced(alloc, rest, text),
        "few" => lists::few(alloc, rest, text),
        "bounded" => lists::bounded(alloc, rest, text),
        "decimal" => lists::decimals(alloc, rest, text),
        "hex" => lists::hexadecimals(alloc, rest, text),
        "names" => lists::names(alloc, rest, text),
        _ => sets::answer(alloc, word, rest, text),
    }
}

// Writes the answer to a case.
fn answer(rt: &HostRuntime, word: &str, rest: &str, text: &mut String) -> Result<(), Memory> {
    match word {
        "memory" => files::in_memory(rt.alloc(), rest, text),
        "system" => files::on_the_system(rt, rest, text),
        "bulk" => files::bulk(rt, rest, text),
        "puts" => files::puts(rt.alloc(), rest, text),
        "breaks" => files::breaks(rt.alloc(), rest, text),
        "toml" => shapes::under_key(rt.alloc(), rest, text),
        _ => answer_of_lists(rt.alloc(), word, rest, text),
    }
}

// Prints a case and its answer.
fn case(rt: &HostRuntime, line: &str) -> io::Result<()> {
    let (word, rest) = line.split_once(' ').unwrap_or((line, ""));
    let mut text = String::new(rt.alloc());
    if answer(rt, word, rest, &mut text).is_err() {
        return println!(rt; "{line} -> out of memory");
    }
    println!(rt; "{line} ->{text}")
}

fn main(rt: HostRuntime) -> io::Result<()> {
    for line in rt.lines(rt.alloc()) {
        case(&rt, line?.as_str())?;
    }
    files::print(&rt);
    Ok(())
}
