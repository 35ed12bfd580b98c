use crate::answers::{
    Answer, Command, FIRST_LOAD, Failing, NOTHING, answer_to, print_answer, print_ended,
    print_size, run_words,
};
use crate::building::{show_built, show_overwritten, show_unsaid, show_unsaved};
use crate::lies::{map_by_given, map_by_narrow};
use crate::plan::show_plan;
use crate::simulating::{show_cut_off, show_devices, show_traced, show_unheard, show_unkept};
use crate::tree::show_tree;
use dip_lists::{Items, Memory};
use std::alloc::Global;
use std::fmt::Write;
use std::io;

/// The file that is being made, the command that is run on it, the file that is kept for changes, and the
/// design where the file is a stimulus.
#[derive(Drop)]
pub struct Script {
    alloc: Global,
    on_file: Command,
    file: String,
    kept: String,
    design: String,
}

// Adds a part, with a number in the place of `#`, the next in the place of `@`, and its hexadecimal digits in
// the place of `$`.
fn add_numbered(text: &mut String, number: u32, part: &str) -> Result<(), Memory> {
    for letter in part.chars() {
        match letter {
            '#' => write!(text, "{number}")?,
            '@' => write!(text, "{}", number.wrapping_add(1))?,
            '$' => write!(text, "{number:x}")?,
            _ => text.push(letter)?,
        }
    }
    text.push('\n')?;
    Ok(())
}

// Adds a line so many times.
fn add_each(text: &mut String, times: u32, part: &str) -> Result<(), Memory> {
    for number in 0..times {
        add_numbered(text, number, part)?;
    }
    Ok(())
}

// Adds a part with line ends in the place of `^`.
fn add_unfolded(text: &mut String, part: &str) -> Result<(), Memory> {
    for letter in part.chars() {
        text.push(if letter == '^' { '\n' } else { letter })?;
    }
    Ok(())
}

// A text with these line ends.
fn unfolded(alloc: Global, part: &str) -> Result<String, Memory> {
    let mut text = String::new(alloc);
    add_unfolded(&mut text, part)?;
    Ok(text)
}

// A text with `new` in the place of the first `old`; the empty one where there is none.
fn changed(alloc: Global, text: &str, old: &str, new: &str) -> Result<String, Memory> {
    let mut made = String::new(alloc);
    let old = unfolded(alloc, old)?;
    if let Some((before, after)) = text.split_once(old.as_str()) {
        made.push_str(before)?;
        add_unfolded(&mut made, new)?;
        made.push_str(after)?;
    }
    Ok(made)
}

// Prints the answer on each front of a file, with its length, where it is another than on the front before.
fn show_cuts(rt: &HostRuntime, command: Command, file: &[u8]) -> io::Result<()> {
    let mut last = Items::new(rt.alloc());
    for length in 0..=file.len() {
        let Ok(answer) = answer_to(rt.alloc(), command, &file[..length], &NOTHING) else {
            return println!(rt; "no memory");
        };
        if answer.printed.as_slice() != last.as_slice() {
            print!(rt; "{length} ")?;
            print_answer(rt, &answer)?;
            last = answer.printed;
        }
    }
    Ok(())
}

// The first put whose failing isn't answered so: exit status 4, and what was due before it is printed.
fn wrong_put(
    alloc: Global,
    command: Command,
    file: &[u8],
    due: &[u8],
) -> Result<Option<usize>, Memory> {
    for count in 0..due.len() {
        let failing = Failing {
            call: 0,
            put: count as u64 + 1,
        };
        let answer = answer_to(alloc, command, file, &failing)?;
        if answer.code != 4 || answer.printed.as_slice() != &due[..count] {
            return Ok(Some(count));
        }
    }
    Ok(None)
}

// Prints how the run on a file ends where each put of one byte fails in turn.
fn show_puts(rt: &HostRuntime, command: Command, file: &[u8]) -> io::Result<()> {
    let Ok(answer) = answer_to(rt.alloc(), command, file, &NOTHING) else {
        return println!(rt; "no memory");
    };
    let due = answer.printed.as_slice();
    match wrong_put(rt.alloc(), command, file, due) {
        Ok(None) => println!(rt; "{} puts fail as they should", due.len()),
        Ok(Some(count)) => println!(rt; "wrong after {count}"),
        Err(Memory) => println!(rt; "no memory"),
    }
}

impl Script {
    /// An empty design file.
    pub fn new(alloc: Global) -> Script {
        Script {
            alloc,
            on_file: Command::Map,
            file: String::new(alloc),
            kept: String::new(alloc),
            design: String::new(alloc),
        }
    }

    // Begins a file on which this command is run.
    fn begin(&mut self, command: Command) {
        self.on_file = command;
        self.file.clear();
        self.design.clear();
    }

    // Begins a stimulus file for the design that was made.
    fn begin_stimulus(&mut self) -> Result<(), Memory> {
        self.design = String::from_str(self.alloc, self.file.as_str())?;
        self.file.clear();
        Ok(())
    }

    // What is run on a changed file.
    fn on_change(&self) -> &'static str {
        if self.design.is_empty() {
            "answer"
        } else {
            "traced"
        }
    }

    // Adds a line to the file.
    fn add(&mut self, line: &str) -> Result<(), Memory> {
        self.file.push_str(line)?;
        self.file.push('\n')?;
        Ok(())
    }

    // Adds the lines of `N|LINE`.
    fn add_times(&mut self, argument: &str) -> Result<(), Memory> {
        if let Some((times, line)) = argument.split_once('|') {
            add_each(&mut self.file, times.parse::<u32>().unwrap_or(0), line)?;
        }
        Ok(())
    }

    // Fills the file with line ends up to a size.
    fn pad(&mut self, size: &str) -> Result<(), Memory> {
        for _ in self.file.len()..size.parse::<usize>().unwrap_or(0) {
            self.file.push('\n')?;
        }
        Ok(())
    }

    // Keeps the file for changes.
    fn keep(&mut self) -> Result<(), Memory> {
        self.kept = String::from_str(self.alloc, self.file.as_str())?;
        Ok(())
    }

    // Makes the kept file with the change `OLD|NEW`.
    fn change(&mut self, argument: &str) -> Result<(), Memory> {
        let (old, new) = argument.split_once('|').unwrap_or((argument, ""));
        self.file = changed(self.alloc, self.kept.as_str(), old, new)?;
        Ok(())
    }

    // The answer on the file where these calls fail.
    fn answer(&self, failing: &Failing) -> Result<Answer, Memory> {
        answer_to(self.alloc, self.on_file, self.file.as_bytes(), failing)
    }

    // Prints the answer on the first bytes of the file.
    fn show_front(&self, rt: &HostRuntime, length: &str) -> io::Result<()> {
        let file = self.file.as_bytes();
        let length = length.parse::<usize>().unwrap_or(0).min(file.len());
        print_ended(
            rt,
            answer_to(self.alloc, self.on_file, &file[..length], &NOTHING),
        )
    }

    // Prints the answer on the design file by a rule that is handed in.
    fn show_given(&self, rt: &HostRuntime, argument: &str) -> io::Result<()> {
        print_ended(rt, map_by_given(self.alloc, self.file.as_bytes(), argument))
    }

    // Changes the file as a line of the input says; answers what is then to be run, and on what.
    fn edit<'a>(&mut self, line: &'a str) -> Result<(&'a str, &'a str), Memory> {
        if let Some(line) = line.strip_prefix('|') {
            self.add(line)?;
            return Ok(("", ""));
        }
        if let Some(argument) = line.strip_prefix('*') {
            self.add_times(argument)?;
            return Ok(("", ""));
        }
        let (command, argument) = line.split_once(' ').unwrap_or((line, ""));
        self.command(command, argument)
    }

    // Does a command that changes the file; answers what is then to be run, and on what.
    fn command<'a>(
        &mut self,
        command: &'a str,
        argument: &'a str,
    ) -> Result<(&'a str, &'a str), Memory> {
        match command {
            "new" => self.begin(Command::Map),
            "text" => self.begin(Command::Read),
            "stimulus" => self.begin_stimulus()?,
            "keep" => self.keep()?,
            "pad" => self.pad(argument)?,
            "change" => {
                self.change(argument)?;
                return Ok((self.on_change(), ""));
            }
            _ => return Ok((command, argument)),
        }
        Ok(("", ""))
    }

    // Runs what a command asks for.
    fn run(&self, rt: &HostRuntime, command: &str, argument: &str) -> io::Result<()> {
        match command {
            "" => Ok(()),
            "#" => println!(rt; "# {argument}"),
            "answer" => print_ended(rt, self.answer(&NOTHING)),
            "loads" => print_ended(rt, self.answer(&FIRST_LOAD)),
            "front" => self.show_front(rt, argument),
            "cuts" => show_cuts(rt, self.on_file, self.file.as_bytes()),
            "puts" => show_puts(rt, self.on_file, self.file.as_bytes()),
            "given" => self.show_given(rt, argument),
            "narrow" => print_ended(rt, map_by_narrow(self.alloc, self.file.as_bytes())),
            "size" => print_size(rt, self.answer(&NOTHING)),
            "built" => show_built(rt, self.file.as_bytes()),
            "rebuilt" => show_overwritten(rt, self.file.as_bytes()),
            "unsaved" => show_unsaved(rt, self.file.as_bytes()),
            "unsaid" => show_unsaid(rt, self.file.as_bytes()),
            "traced" => show_traced(rt, self.design.as_bytes(), self.file.as_bytes()),
            "devices" => {
                show_devices(rt, self.design.as_bytes(), self.file.as_bytes(), argument)
            }
            "unheard" => show_unheard(rt, self.design.as_bytes(), self.file.as_bytes()),
            "unkept" => show_unkept(rt, self.design.as_bytes(), self.file.as_bytes()),
            "cut" => show_cut_off(rt, self.design.as_bytes(), self.file.as_bytes()),
            "tree" => show_tree(rt, self.file.as_bytes()),
            "plan" => show_plan(rt, self.file.as_bytes()),
            "run" => run_words(rt, argument),
            _ => println!(rt; "unknown: {command}"),
        }
    }

    /// Does what a line of the input says.
    pub fn run_line(&mut self, rt: &HostRuntime, line: &str) -> io::Result<()> {
        match self.edit(line) {
            Ok((command, argument)) => self.run(rt, command, argument),
            Err(Memory) => println!(rt; "no memory"),
        }
    }
}
