use crate::answers::{Answer, Failing, NOTHING, answer_on, files_of, print_answer};
use dip_io::MemFiles;
use dip_lists::Memory;
use std::alloc::Global;
use std::{io, str};

// What the text holds before a run that finds one.
const BEFORE: &str = "as it was";

// A run in which the first save fails: the call after the load.
const FIRST_SAVE: Failing = Failing { call: 2, put: 0 };

// A run in which the third byte of the line isn't taken.
const THIRD_PUT: Failing = Failing { call: 0, put: 3 };

// Whether there is a text after a run, and whether it is as before.
#[derive(Clone, Copy)]
enum Held {
    Nothing,
    Before,
    Another,
}

// A run of `verilog` in memory: how it ended, what the text holds then, and what `read` answers on it.
#[derive(Drop)]
struct Built {
    answer: Answer,
    held: Held,
    read: Answer,
}

fn held_by(text: Option<&[u8]>) -> Held {
    match text {
        None => Held::Nothing,
        Some(bytes) if bytes == BEFORE.as_bytes() => Held::Before,
        Some(_) => Held::Another,
    }
}

// Runs `verilog` on a design file and the text `b`.
fn built_in(alloc: Global, files: &mut MemFiles, failing: &Failing) -> Result<Built, Memory> {
    let answer = answer_on(alloc, "verilog a b", files, failing)?;
    let held = held_by(files.get("b"));
    let read = answer_on(alloc, "read b", files, &NOTHING)?;
    Ok(Built { answer, held, read })
}

// The same where there is no text yet.
fn built_anew(alloc: Global, file: &[u8], failing: &Failing) -> Result<Built, Memory> {
    let mut files = files_of(alloc, file, failing)?;
    built_in(alloc, &mut files, failing)
}

// The same where there is one.
fn built_over(alloc: Global, file: &[u8], failing: &Failing) -> Result<Built, Memory> {
    let mut files = files_of(alloc, file, failing)?;
    files.set("b", BEFORE.as_bytes())?;
    built_in(alloc, &mut files, failing)
}

// Prints an answer, of a netlist's line without how many cells there are.
fn print_front(rt: &HostRuntime, answer: &Answer) -> io::Result<()> {
    let text = str::from_utf8(answer.printed.as_slice()).unwrap_or("");
    match text.split_once(" cells ") {
        Some((front, _)) => println!(rt; "{front}, status {}", answer.code),
        None => print_answer(rt, answer),
    }
}

// Prints how a run ended, and what the text holds.
fn print_built(rt: &HostRuntime, built: &Built) -> io::Result<()> {
    print_front(rt, &built.answer)?;
    match built.held {
        Held::Nothing => println!(rt; "no text"),
        Held::Before => println!(rt; "the text is as before"),
        Held::Another => {
            print!(rt; "the text is read: ")?;
            print_front(rt, &built.read)?;
            let same = built.answer.printed.as_slice() == built.read.printed.as_slice();
            println!(rt; "the same line: {same}")
        }
    }
}

fn print_run(rt: &HostRuntime, run: Result<Built, Memory>) -> io::Result<()> {
    match run {
        Ok(built) => print_built(rt, &built),
        Err(Memory) => println!(rt; "no memory"),
    }
}

/// Runs `verilog` on a design file where there is no text yet.
pub fn show_built(rt: &HostRuntime, file: &[u8]) -> io::Result<()> {
    print_run(rt, built_anew(rt.alloc(), file, &NOTHING))
}

/// The same where there is a text.
pub fn show_overwritten(rt: &HostRuntime, file: &[u8]) -> io::Result<()> {
    print_run(rt, built_over(rt.alloc(), file, &NOTHING))
}

/// The same where saving the text fails.
pub fn show_unsaved(rt: &HostRuntime, file: &[u8]) -> io::Result<()> {
    print_run(rt, built_over(rt.alloc(), file, &FIRST_SAVE))
}

/// The same where the third byte of the line isn't taken.
pub fn show_unsaid(rt: &HostRuntime, file: &[u8]) -> io::Result<()> {
    print_run(rt, built_over(rt.alloc(), file, &THIRD_PUT))
}
