use crate::lists::add_bytes;
use crate::words::{number, say, say_number, say_whether};
use dip_io::{Failed, Files, LoadFault, MemFiles, MemOut, RealFiles, RealOut, put_all, read_first};
use dip_lists::Memory;
use std::alloc::Global;
use std::fs;
use std::io::{self, Read};

// Adds to an answer whether a call has failed.
fn say_done(text: &mut String, done: Result<(), Failed>) -> Result<(), Memory> {
    say(text, if done.is_ok() { "done" } else { "failed" })
}

// Adds what was loaded behind `<`, and whether it failed.
fn say_loaded(text: &mut String, loaded: Result<(), LoadFault>, into: &[u8]) -> Result<(), Memory> {
    say(text, "<")?;
    add_bytes(text, into)?;
    match loaded {
        Ok(()) => Ok(()),
        Err(LoadFault::Failed) => say(text, "failed"),
        Err(LoadFault::Memory) => Err(Memory),
    }
}

// Loads so many bytes of a file, behind what stands there already.
fn load<F: Files>(
    alloc: Global,
    files: &mut F,
    name: &str,
    max: u64,
    text: &mut String,
) -> Result<(), Memory> {
    let mut into = Vec::from_slice(alloc, b"|")?;
    let loaded = files.load(name, max.min(1000) as usize, &mut into);
    say_loaded(text, loaded, into.as_slice())
}

// A load or a save: `load:a:3` loads three bytes of a, `save:a:text` saves a text.
fn call<F: Files>(
    alloc: Global,
    files: &mut F,
    word: &str,
    text: &mut String,
) -> Result<(), Memory> {
    let (word, rest) = word.split_once(':').unwrap_or((word, ""));
    let (name, value) = rest.split_once(':').unwrap_or((rest, ""));
    match word {
        "load" => load(alloc, files, name, number(value), text),
        _ => say_done(text, files.save(name, value.as_bytes())),
    }
}

// Calls on files in memory: `fail:2` lets the second fail, the others are loads and saves.
fn memory_call(
    alloc: Global,
    files: &mut MemFiles,
    word: &str,
    text: &mut String,
) -> Result<(), Memory> {
    match word.split_once(':') {
        Some(("fail", place)) => files.fail_at(number(place)),
        Some(("set", rest)) => {
            let (name, value) = rest.split_once(':').unwrap_or((rest, ""));
            files.set(name, value.as_bytes())
        }
        Some(("get", name)) => say_whether(text, files.get(name).is_some()),
        _ => call(alloc, files, word, text),
    }
}

/// Calls on files in memory, in order.
pub fn in_memory(alloc: Global, rest: &str, text: &mut String) -> Result<(), Memory> {
    let mut files = MemFiles::new(alloc);
    for word in rest.split(' ') {
        memory_call(alloc, &mut files, word, text)?;
    }
    Ok(())
}

/// Calls on the files of the system, in order: `drop:a` removes a file.
pub fn on_the_system(rt: &HostRuntime, rest: &str, text: &mut String) -> Result<(), Memory> {
    let Ok(clone) = rt.clone() else {
        return Err(Memory);
    };
    let mut files = RealFiles::new(clone);
    for word in rest.split(' ') {
        match word.split_once(':') {
            Some(("drop", name)) => say_whether(text, fs::remove_file(rt, name).is_ok())?,
            _ => call(rt.alloc(), &mut files, word, text)?,
        }
    }
    Ok(())
}

// So many bytes.
fn bytes_of(alloc: Global, count: u64) -> Result<Vec<u8>, Memory> {
    let mut bytes = Vec::new(alloc);
    for number in 0..count {
        bytes.push((number % 251) as u8)?;
    }
    Ok(bytes)
}

/// Saves so many bytes in a file of the system and loads them again: how many come back, and whether they
/// are the same.
pub fn bulk(rt: &HostRuntime, rest: &str, text: &mut String) -> Result<(), Memory> {
    let bytes = bytes_of(rt.alloc(), number(rest))?;
    let Ok(clone) = rt.clone() else {
        return Err(Memory);
    };
    let mut files = RealFiles::new(clone);
    say_done(text, files.save("dip_tests_bulk.tmp", bytes.as_slice()))?;
    let mut back = Vec::new(rt.alloc());
    let loaded = files.load("dip_tests_bulk.tmp", bytes.len(), &mut back);
    say_whether(text, loaded.is_ok())?;
    say_number(text, back.len() as u64)?;
    say_whether(text, back.as_slice() == bytes.as_slice())?;
    say_whether(text, fs::remove_file(rt, "dip_tests_bulk.tmp").is_ok())
}

/// A text put into an output in memory that takes so many bytes at once, where one put is to fail.
pub fn puts(alloc: Global, rest: &str, text: &mut String) -> Result<(), Memory> {
    let (most, rest) = rest.split_once(' ').unwrap_or((rest, ""));
    let (failing, bytes) = rest.split_once(' ').unwrap_or((rest, ""));
    let mut out = MemOut::new(alloc, number(most).clamp(1, 1000) as usize);
    out.fail_at(number(failing))?;
    let done = put_all(&mut out, bytes.as_bytes());
    say(text, "<")?;
    add_bytes(text, out.bytes())?;
    say_done(text, done)
}

// Gives three bytes a call, and fails once it has none left.
#[derive(Drop)]
struct Breaking<'a> {
    left: &'a [u8],
}

impl Read for Breaking<'_> {
    fn read(&mut self, buffer: &mut [u8]) -> io::Result<usize> {
        if self.left.is_empty() {
            return Err(io::Error::from(io::ErrorKind::TimedOut));
        }
        let most = buffer.len().min(3);
        self.left.read(&mut buffer[..most])
    }
}

/// The first bytes of a source of eight bytes that then breaks off.
pub fn breaks(alloc: Global, rest: &str, text: &mut String) -> Result<(), Memory> {
    let mut into = Vec::from_slice(alloc, b"|")?;
    let mut source = Breaking { left: b"01234567" };
    let loaded = read_first(&mut source, number(rest).min(1000) as usize, &mut into);
    say_loaded(text, loaded, into.as_slice())
}

/// Puts a line on standard output.
pub fn print(rt: &HostRuntime) {
    if let Ok(clone) = rt.clone() {
        let mut out = RealOut::new(clone);
        let _done = put_all(&mut out, b"standard output\n");
    }
}
