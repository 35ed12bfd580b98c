ghost use Rattle.std.specs.Prelude.{◌<◌};

use dip_io::{Files, MemFiles, MemOut, Out, RealFiles, RealOut};
use dip_lists::{Bytes, Items, Memory};
use dip_rule::Rules;
use soc_report::Status;
use soc_top::{MOST_DEVICES, boxed_cells, soc, soc_by_standard_rules};
use std::alloc::Global;
use std::{io, str};

/// What is to fail in a run in memory: the load or save and the put with these numbers, 0 for none.
#[derive(Clone, Copy)]
pub struct Failing {
    pub call: u64,
    pub put: u64,
}

/// A run in which nothing fails.
pub const NOTHING: Failing = Failing { call: 0, put: 0 };

/// A run in which the first load fails.
pub const FIRST_LOAD: Failing = Failing { call: 1, put: 0 };

/// A command on one file.
#[derive(Clone, Copy)]
pub enum Command {
    Map,
    Read,
}

impl Command {
    // The words of the command on the file `a`.
    fn words(self) -> &'static str {
        match self {
            Command::Map => "map a",
            Command::Read => "read a",
        }
    }
}

/// How a run ended: its exit status, and what it printed.
#[derive(Drop)]
pub struct Answer {
    pub code: u8,
    pub printed: Bytes,
}

// The words of a line.
fn words_of(alloc: Global, line: &str) -> Result<Vec<String>, Memory> {
    let mut words = Vec::new(alloc);
    for word in line.split(' ') {
        if !word.is_empty() {
            words.push(String::from_str(alloc, word)?)?;
        }
    }
    Ok(words)
}

/// The files of a run: `a` alone.
pub fn files_of(alloc: Global, file: &[u8], failing: &Failing) -> Result<MemFiles, Memory> {
    let mut files = MemFiles::new(alloc);
    files.fail_at(failing.call)?;
    files.set("a", file)?;
    Ok(files)
}

// How much one put takes: one byte, where one is to fail.
fn most(failing: &Failing) -> usize
    ensures { 0 < result }
{
    if failing.put == 0 { 300 } else { 1 }
}

// How a run of these words ends where so many memories are handed in.
fn ended_with<F: Files, O: Out>(
    alloc: Global,
    words: &[String],
    files: &mut F,
    out: &mut O,
    count: usize,
) -> Result<Status, Memory> {
    let devices = boxed_cells!(alloc, count);
    soc_by_standard_rules(alloc, words, files, out, devices)
}

/// The answer to words on files in memory, where so many memories are handed in.
pub fn answer_with(
    alloc: Global,
    line: &str,
    files: &mut MemFiles,
    failing: &Failing,
    count: usize,
) -> Result<Answer, Memory> {
    let words = words_of(alloc, line)?;
    let mut out = MemOut::new(alloc, most(failing));
    out.fail_at(failing.put)?;
    let status = ended_with(alloc, words.as_slice(), files, &mut out, count)?;
    Ok(Answer {
        code: status.code(),
        printed: Items::from_vec(Vec::from_slice(alloc, out.bytes())?),
    })
}

/// The answer to words on files in memory.
pub fn answer_on(
    alloc: Global,
    line: &str,
    files: &mut MemFiles,
    failing: &Failing,
) -> Result<Answer, Memory> {
    answer_with(alloc, line, files, failing, MOST_DEVICES)
}

/// The answer to a command on a file of these bytes.
pub fn answer_to(
    alloc: Global,
    command: Command,
    file: &[u8],
    failing: &Failing,
) -> Result<Answer, Memory> {
    let mut files = files_of(alloc, file, failing)?;
    answer_on(alloc, command.words(), &mut files, failing)
}

/// The answer to `map` on a file of these bytes, by rules that are handed in.
pub fn map_by(alloc: Global, file: &[u8], rules: &Rules) -> Result<Answer, Memory> {
    let words = words_of(alloc, Command::Map.words())?;
    let mut files = files_of(alloc, file, &NOTHING)?;
    let mut out = MemOut::new(alloc, 300);
    let devices = boxed_cells!(alloc, 0);
    let status = soc(
        alloc,
        words.as_slice(),
        &mut files,
        &mut out,
        rules,
        devices,
    );
    Ok(Answer {
        code: status.code(),
        printed: Items::from_vec(Vec::from_slice(alloc, out.bytes())?),
    })
}

/// Prints an answer: what was printed, and the exit status.
pub fn print_answer(rt: &HostRuntime, answer: &Answer) -> io::Result<()> {
    match str::from_utf8(answer.printed.as_slice()) {
        Ok(text) => println!(rt; "{text}status {}", answer.code),
        Err(_) => println!(rt; "no text"),
    }
}

/// Prints the answer of a run that found memory.
pub fn print_ended(rt: &HostRuntime, ended: Result<Answer, Memory>) -> io::Result<()> {
    match ended {
        Ok(answer) => print_answer(rt, &answer),
        Err(Memory) => println!(rt; "no memory"),
    }
}

/// Prints how long what was printed is, and the exit status.
pub fn print_size(rt: &HostRuntime, ended: Result<Answer, Memory>) -> io::Result<()> {
    match ended {
        Ok(answer) => println!(rt; "{} bytes, status {}", answer.printed.len(), answer.code),
        Err(Memory) => println!(rt; "no memory"),
    }
}

/// Runs these words on files that lie where the program runs, and prints the exit status at the end.
pub fn run_words(rt: &HostRuntime, line: &str) -> io::Result<()> {
    let Ok(words) = words_of(rt.alloc(), line) else {
        return println!(rt; "no memory");
    };
    let mut files = RealFiles::new(rt.clone()?);
    let mut out = RealOut::new(rt.clone()?);
    let ended = ended_with(
        rt.alloc(),
        words.as_slice(),
        &mut files,
        &mut out,
        MOST_DEVICES,
    );
    println!(rt; "status {}", ended.unwrap_or(Status::Memory).code())
}
