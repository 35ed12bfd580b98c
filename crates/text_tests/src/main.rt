//! The program `text_tests`: reads the netlist texts on its input, and changes of them, and prints what
//! reading answers to each. The module `script` says what the lines of the input ask for.
#![tactic(auto)]

mod answer;
mod changes;
mod made;
mod script;

use crate::script::Script;
use std::io;

fn main(rt: HostRuntime) -> io::Result<()> {
    let mut script = Script::new(rt.alloc());
    for line in rt.lines(rt.alloc()) {
        script.take(&rt, line?.as_str())?;
    }
    Ok(())
}
