//! Reads stimulus files for designs, and prints which rule each fails at which entry, or what it states.
//!
//! A line of the input is a title, which is printed (`# ..`), a line of the file that is being made (`|..`),
//! such lines so many times (`*N|..`), or a command. `design` makes the file the design of what follows, and
//! begins a new one; `new` begins a new one; `keep` keeps the file for changes; `pad N` fills it with line
//! ends up to N bytes. `read` prints all that the file states, or the rule and the entry; `judge` prints
//! whether it states a stimulus; `broken` that of the file with a byte behind it that isn't UTF-8;
//! `change OLD|NEW` that of the kept file with a text of it changed; `also OLD|NEW` that of the file with
//! one more change. In all of these `^` is a line end.
#![tactic(auto)]

mod script;
mod show;
mod stated;

use crate::script::Script;
use std::io;

// Runs each line of the input.
fn run(rt: &HostRuntime) -> io::Result<()> {
    let mut script = Script::new(rt.alloc());
    for line in rt.lines(rt.alloc()) {
        script.run_line(rt, line?.as_str())?;
    }
    Ok(())
}

fn main(rt: HostRuntime) {
    if let Ok(()) = run(&rt) {}
}
