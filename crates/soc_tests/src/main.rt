//! Runs cases of `soc` by the standard rules, and prints how each ends.
//!
//! A line of the input is a title, which is printed (`# ..`), a line of the file that is being made
//! (`|..`), such a line so many times (`*N|..`, with its number in the place of `#`, its hexadecimal digits
//! in that of `$`, and the next number in that of `@`), or a command: `new` begins a design file, on which
//! `map` is run, and `text` a netlist text, on which `read` is; `keep` keeps the file for changes, `pad N`
//! fills it with line ends up to N bytes, `answer` prints the answer on it, `front N` that on its first N
//! bytes, `size` the length of the answer alone, `change OLD|NEW` the answer on the kept file with a text
//! of it changed (`^` is a line end), `cuts` those on each front of it, `puts` where each put fails in
//! turn, `loads` where the first load fails, `given TEMPLATE DOWN UP` by a rule of the kind `given`
//! besides, `narrow` by one rule alone, of the kind `narrow`, and `run ..` runs these words on the files
//! that lie where this program runs. `built` runs `verilog` on the design file and a text that isn't there,
//! `rebuilt` on a text that is, `unsaved` where saving that fails, and `unsaid` where the third byte of the
//! line isn't taken; each prints what the text holds then. `stimulus` begins a stimulus file for the design
//! that was made: `traced` runs `sim` on both and a text that isn't there, `devices N` with N memories,
//! `unheard` where the stimulus can't be loaded, `unkept` where saving the text fails, and `cut` where the
//! second byte of the trace isn't taken; each says whether there is a text then, and `change` runs
//! `traced`. `tree` prints what a design file states and the map doesn't show, and `plan` the plan of its
//! design.
#![tactic(auto)]

mod answers;
mod building;
mod lies;
mod narrow;
mod plan;
mod rules;
mod script;
mod simulating;
mod tree;

use crate::script::Script;
use std::io;

// Runs each line of the input.
fn run(rt: &HostRuntime) -> io::Result<()> {
    let mut script = Script::new(rt.alloc());
    for line in rt.lines(rt.alloc()) {
        script.run_line(rt, line?.as_str())?;
    }
    Ok(())
}

fn main(rt: HostRuntime) {
    if let Ok(()) = run(&rt) {}
}
