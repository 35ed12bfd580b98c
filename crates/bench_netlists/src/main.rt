//! The program `bench_netlists`: pieces of work on made input, for measuring.
#![tactic(auto)]

mod made;
mod run;

use std::env;
use std::process::ExitCode;

const USAGE: &str =
    "usage: bench_netlists WORK CELLS TIMES .., where WORK is engine, loop, print or read";

/// What can be done with a made netlist.
#[derive(Debug, Clone, Copy)]
enum Work {
    /// So many cycles of it.
    Engine,
    /// Opening it with a loop of one cell, so many times.
    Loop,
    /// Its text, so many times.
    Print,
    /// Reading its text, so many times.
    Read,
}

/// A piece of work.
#[derive(Debug, Clone, Copy)]
struct Piece {
    work: Work,
    /// How many cells the netlist has.
    cells: u64,
    /// How often it is done.
    times: u64,
}

// The work with this name.
fn work_named(name: &str) -> Option<Work> {
    match name {
        "engine" => Some(Work::Engine),
        "loop" => Some(Work::Loop),
        "print" => Some(Work::Print),
        "read" => Some(Work::Read),
        _ => None,
    }
}

// The piece of work that three words ask for; `None` where they ask for nothing that there is.
fn piece_of(words: &[String]) -> Option<Piece> {
    let [work, cells, times] = words else {
        return None;
    };
    let (Ok(cells), Ok(times)) = (cells.parse(), times.parse()) else {
        return None;
    };
    Some(Piece {
        work: work_named(work.as_str())?,
        cells,
        times,
    })
}

// Does a piece of work and prints its counts; `None` where that fails.
fn counted(rt: &HostRuntime, piece: Piece) -> Option<()> {
    let Piece { work, cells, times } = piece;
    match work {
        Work::Engine => {
            let state = run::engine(rt.alloc(), cells, times).ok()??;
            println!(rt; "cells {cells} cycles {times} state {state:x}").ok()
        }
        Work::Loop => {
            let net = run::looped(rt.alloc(), cells, times).ok()??;
            println!(rt; "cells {cells} opened {times} times, a loop at net {net}").ok()
        }
        Work::Print => {
            let bytes = run::printed(rt.alloc(), cells, times).ok()??;
            println!(rt; "cells {cells} printed {times} times, {bytes} bytes").ok()
        }
        Work::Read => {
            let nets = run::read_again(rt.alloc(), cells, times).ok()??;
            println!(rt; "cells {cells} read {times} times, {nets} cells").ok()
        }
    }
}

// The words that the program is started with, its own name aside.
fn words_of(rt: &HostRuntime) -> Option<Vec<String>> {
    let mut words = Vec::new(rt.alloc());
    for word in env::args(rt).ok()?.skip(1) {
        words.push(word).ok()?;
    }
    Some(words)
}

fn usage(rt: &HostRuntime) -> u8 {
    let _ = println!(rt; "{USAGE}");
    2
}

// Does the pieces of work that words ask for, three words each.
fn status(rt: &HostRuntime, words: &[String]) -> u8 {
    if words.is_empty() {
        return usage(rt);
    }
    for words in words.chunks(3) {
        let Some(piece) = piece_of(words) else {
            return usage(rt);
        };
        if counted(rt, piece).is_none() {
            return 1;
        }
    }
    0
}

fn main(rt: HostRuntime) -> ExitCode {
    match words_of(&rt) {
        Some(words) => ExitCode::from(status(&rt, words.as_slice())),
        None => ExitCode::from(1),
    }
}
