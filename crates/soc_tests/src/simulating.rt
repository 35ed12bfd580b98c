use crate::answers::{Answer, Failing, NOTHING, answer_on, answer_with, print_answer};
use dip_io::MemFiles;
use dip_lists::Memory;
use soc_top::MOST_DEVICES;
use std::alloc::Global;
use std::io;

// A run in which the load of the stimulus fails: the call after the load of the design.
const SECOND_LOAD: Failing = Failing { call: 2, put: 0 };

// A run in which the save fails: the call after both loads.
const THE_SAVE: Failing = Failing { call: 3, put: 0 };

// A run in which the second byte of the trace isn't taken.
const SECOND_PUT: Failing = Failing { call: 0, put: 2 };

// Whether there is a text after a run, and whether it is the one that `verilog` saves.
#[derive(Clone, Copy)]
enum Held {
    Nothing,
    OfVerilog,
    Another,
}

// A run of `sim` in memory: how it ended, and what the text holds then.
#[derive(Drop)]
struct Simulated {
    answer: Answer,
    held: Held,
}

fn held_by(text: Option<&[u8]>, of_verilog: Option<&[u8]>) -> Held {
    match text {
        None => Held::Nothing,
        Some(bytes) if bytes == of_verilog.unwrap_or(&[]) => Held::OfVerilog,
        Some(_) => Held::Another,
    }
}

// Runs `sim` with so many memories where there is no text yet, and then `verilog` on the same design.
fn simulate(
    alloc: Global,
    design: &[u8],
    stimulus: &[u8],
    failing: &Failing,
    count: usize,
) -> Result<Simulated, Memory> {
    let mut files = MemFiles::new(alloc);
    files.fail_at(failing.call)?;
    files.set("d", design)?;
    files.set("s", stimulus)?;
    let answer = answer_with(alloc, "sim d s t", &mut files, failing, count)?;
    let _line = answer_on(alloc, "verilog d v", &mut files, &NOTHING)?;
    let held = held_by(files.get("t"), files.get("v"));
    Ok(Simulated { answer, held })
}

fn show_run(
    rt: &HostRuntime,
    design: &[u8],
    stimulus: &[u8],
    failing: &Failing,
    count: usize,
) -> io::Result<()> {
    let Ok(run) = simulate(rt.alloc(), design, stimulus, failing, count) else {
        return println!(rt; "no memory");
    };
    print_answer(rt, &run.answer)?;
    match run.held {
        Held::Nothing => println!(rt; "no text"),
        Held::OfVerilog => println!(rt; "the text that verilog saves"),
        Held::Another => println!(rt; "another text"),
    }
}

/// Runs `sim` on a design and a stimulus where there is no text yet.
pub fn show_traced(rt: &HostRuntime, design: &[u8], stimulus: &[u8]) -> io::Result<()> {
    show_run(rt, design, stimulus, &NOTHING, MOST_DEVICES)
}

/// The same where so many memories are handed in.
pub fn show_devices(
    rt: &HostRuntime,
    design: &[u8],
    stimulus: &[u8],
    count: &str,
) -> io::Result<()> {
    let count = count.parse::<usize>().unwrap_or(0);
    show_run(rt, design, stimulus, &NOTHING, count)
}

/// The same where the stimulus can't be loaded.
pub fn show_unheard(rt: &HostRuntime, design: &[u8], stimulus: &[u8]) -> io::Result<()> {
    show_run(rt, design, stimulus, &SECOND_LOAD, MOST_DEVICES)
}

/// The same where saving the text fails.
pub fn show_unkept(rt: &HostRuntime, design: &[u8], stimulus: &[u8]) -> io::Result<()> {
    show_run(rt, design, stimulus, &THE_SAVE, MOST_DEVICES)
}

/// The same where the second byte of the trace isn't taken.
pub fn show_cut_off(rt: &HostRuntime, design: &[u8], stimulus: &[u8]) -> io::Result<()> {
    show_run(rt, design, stimulus, &SECOND_PUT, MOST_DEVICES)
}
