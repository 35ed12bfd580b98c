use crate::show::{show_whether, show_whole};
use crate::stated::{Unread, stated};
use dip_lists::Memory;
use soc_stimulus::Stimulus;
use std::alloc::Global;
use std::io;

/// The design, the stimulus file that is being made, and the one that is kept for changes.
#[derive(Drop)]
pub struct Script {
    alloc: Global,
    design: String,
    file: String,
    kept: String,
}

// Adds a part with line ends in the place of `^`.
fn add_unfolded(text: &mut String, part: &str) -> Result<(), Memory> {
    for letter in part.chars() {
        text.push(if letter == '^' { '\n' } else { letter })?;
    }
    Ok(())
}

// A text with these line ends.
fn unfolded(alloc: Global, part: &str) -> Result<String, Memory> {
    let mut text = String::new(alloc);
    add_unfolded(&mut text, part)?;
    Ok(text)
}

// A text with `new` in the place of the first `old`; the empty one where there is none.
fn changed(alloc: Global, text: &str, old: &str, new: &str) -> Result<String, Memory> {
    let mut made = String::new(alloc);
    let old = unfolded(alloc, old)?;
    if let Some((before, after)) = text.split_once(old.as_str()) {
        made.push_str(before)?;
        add_unfolded(&mut made, new)?;
        made.push_str(after)?;
    }
    Ok(made)
}

// What a file with a byte behind it that isn't UTF-8 states.
fn stated_broken(alloc: Global, design: &[u8], file: &[u8]) -> Result<Stimulus, Unread> {
    let Ok(mut bytes) = Vec::from_slice(alloc, file) else {
        return Err(Unread::Memory);
    };
    if bytes.push(0xff).is_err() {
        return Err(Unread::Memory);
    }
    stated(alloc, design, bytes.as_slice())
}

impl Script {
    /// No design, and an empty file.
    pub fn new(alloc: Global) -> Script {
        Script {
            alloc,
            design: String::new(alloc),
            file: String::new(alloc),
            kept: String::new(alloc),
        }
    }

    // Adds a line to the file.
    fn add(&mut self, line: &str) -> Result<(), Memory> {
        add_unfolded(&mut self.file, line)?;
        self.file.push('\n')?;
        Ok(())
    }

    // Adds the lines of `N|LINES` so many times.
    fn add_times(&mut self, argument: &str) -> Result<(), Memory> {
        let (times, line) = argument.split_once('|').unwrap_or((argument, ""));
        for _time in 0..times.parse::<u32>().unwrap_or(0) {
            self.add(line)?;
        }
        Ok(())
    }

    // Fills the file with line ends up to a size.
    fn pad(&mut self, size: &str) -> Result<(), Memory> {
        for _place in self.file.len()..size.parse::<usize>().unwrap_or(0) {
            self.file.push('\n')?;
        }
        Ok(())
    }

    // Makes the file the design, and begins a new one.
    fn take_design(&mut self) -> Result<(), Memory> {
        self.design = String::from_str(self.alloc, self.file.as_str())?;
        self.file.clear();
        Ok(())
    }

    // Keeps the file for changes.
    fn keep(&mut self) -> Result<(), Memory> {
        self.kept = String::from_str(self.alloc, self.file.as_str())?;
        Ok(())
    }

    // Makes the kept file with the change `OLD|NEW`.
    fn change(&mut self, argument: &str) -> Result<(), Memory> {
        let (old, new) = argument.split_once('|').unwrap_or((argument, ""));
        self.file = changed(self.alloc, self.kept.as_str(), old, new)?;
        Ok(())
    }

    // Changes the file once more.
    fn also(&mut self, argument: &str) -> Result<(), Memory> {
        let (old, new) = argument.split_once('|').unwrap_or((argument, ""));
        self.file = changed(self.alloc, self.file.as_str(), old, new)?;
        Ok(())
    }

    // What the file states.
    fn read(&self) -> Result<Stimulus, Unread> {
        stated(self.alloc, self.design.as_bytes(), self.file.as_bytes())
    }

    // Does a command that changes the file; answers whether it is one.
    fn edit(&mut self, command: &str, argument: &str) -> Result<bool, Memory> {
        match command {
            "design" => self.take_design()?,
            "new" => self.file.clear(),
            "keep" => self.keep()?,
            "pad" => self.pad(argument)?,
            _ => return Ok(false),
        }
        Ok(true)
    }

    // Makes the change that a command asks for, if it asks for one.
    fn alter(&mut self, command: &str, argument: &str) -> Result<(), Memory> {
        match command {
            "change" => self.change(argument),
            "also" => self.also(argument),
            _ => Ok(()),
        }
    }

    // Prints what a command asks for.
    fn show(&self, rt: &HostRuntime, command: &str, line: &str) -> io::Result<()> {
        match command {
            "#" => println!(rt; "{line}"),
            "read" => show_whole(rt, self.read()),
            "judge" | "change" | "also" if self.file.is_empty() => println!(rt;
                "{line} -> no file"
            ),
            "judge" | "change" | "also" => show_whether(rt, line, self.read()),
            "broken" => {
                let file = self.file.as_bytes();
                let read = stated_broken(self.alloc, self.design.as_bytes(), file);
                show_whether(rt, line, read)
            }
            _ => println!(rt; "unknown: {line}"),
        }
    }

    // Does the command of a line, and prints what it asks for.
    fn command(&mut self, rt: &HostRuntime, line: &str) -> io::Result<()> {
        let (command, argument) = line.split_once(' ').unwrap_or((line, ""));
        match self.edit(command, argument) {
            Ok(true) => return Ok(()),
            Ok(false) => {}
            Err(Memory) => return println!(rt; "no memory"),
        }
        if self.alter(command, argument).is_err() {
            return println!(rt; "no memory");
        }
        self.show(rt, command, line)
    }

    // Adds the lines that a line of the input says; answers whether it says any.
    fn grow(&mut self, line: &str) -> Result<bool, Memory> {
        if let Some(line) = line.strip_prefix('|') {
            self.add(line)?;
            return Ok(true);
        }
        if let Some(argument) = line.strip_prefix('*') {
            self.add_times(argument)?;
            return Ok(true);
        }
        Ok(false)
    }

    /// Does what a line of the input says.
    pub fn run_line(&mut self, rt: &HostRuntime, line: &str) -> io::Result<()> {
        match self.grow(line) {
            Ok(true) => Ok(()),
            Ok(false) => self.command(rt, line),
            Err(Memory) => println!(rt; "no memory"),
        }
    }
}
