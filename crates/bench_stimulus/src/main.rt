//! The program `bench_stimulus`: a memory under many requests, and a stimulus file read, for measuring.
//!
//! `memory BYTES TIMES` prepares a memory at so many addresses, asks it so many gets and puts of 64 bytes in
//! turn, and prints a sum of what it answered. `file DESIGN STIMULUS TIMES` reads a stimulus file so many
//! times for the design of another file, and prints how many requests it states.
#![tactic(auto)]

mod file;
mod memory;

use crate::file::{Kept, requests_in};
use crate::memory::sum_of;
use dip_io::{Files, RealFiles};
use std::env;
use std::process::ExitCode;

const USAGE: &str = "usage: bench_stimulus memory BYTES TIMES | file DESIGN STIMULUS TIMES";

/// The most bytes of a file that are loaded.
const MOST_LOADED: usize = 1 << 25;

// The words that the program is started with, its own name aside.
fn words_of(rt: &HostRuntime) -> Option<Vec<String>> {
    let mut words = Vec::new(rt.alloc());
    for word in env::args(rt).ok()?.skip(1) {
        words.push(word).ok()?;
    }
    Some(words)
}

// The bytes of a file.
fn bytes_of(rt: &HostRuntime, name: &str) -> Option<Vec<u8>> {
    let mut files = RealFiles::new(rt.clone().ok()?);
    let mut bytes = Vec::new(rt.alloc());
    files.load(name, MOST_LOADED, &mut bytes).ok()?;
    Some(bytes)
}

// Asks a memory, and prints a sum.
fn ask(rt: &HostRuntime, count: u64, times: u64) -> Option<()> {
    let sum = sum_of(rt.alloc(), count, times).ok()?;
    println!(rt; "{count} addresses, asked {times} times, sum {sum}").ok()
}

// Reads a stimulus file, and prints its requests.
fn read(rt: &HostRuntime, design: &str, stimulus: &str, times: u64) -> Option<()> {
    let kept = Kept {
        design: bytes_of(rt, design)?,
        stimulus: bytes_of(rt, stimulus)?,
    };
    let requests = requests_in(rt.alloc(), &kept, times)?;
    println!(rt; "{requests} requests, read {times} times").ok()
}

// Does what the words ask for; `None` where they ask for nothing that there is, or where it fails.
fn work(rt: &HostRuntime, words: &[String]) -> Option<()> {
    match words {
        [word, count, times] if word.as_str() == "memory" => {
            ask(rt, count.parse().ok()?, times.parse().ok()?)
        }
        [word, design, stimulus, times] if word.as_str() == "file" => read(
            rt,
            design.as_str(),
            stimulus.as_str(),
            times.parse().ok()?,
        ),
        _ => None,
    }
}

fn main(rt: HostRuntime) -> ExitCode {
    let done = match words_of(&rt) {
        Some(words) => work(&rt, words.as_slice()),
        None => None,
    };
    if done.is_some() {
        return ExitCode::from(0);
    }
    let _ = println!(rt; "{USAGE}");
    ExitCode::from(2)
}
