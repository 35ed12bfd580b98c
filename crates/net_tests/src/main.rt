//! The program `net_tests`: makes the netlists that its input describes, and prints whether they are well
//! formed and what they do when they run. The module `script` says what the lines of the input ask for.
#![tactic(auto)]

mod built;
mod described;
mod queued;
mod run;
mod script;

use crate::script::Script;
use std::io;

fn main(rt: HostRuntime) -> io::Result<()> {
    let mut script = Script::new(rt.alloc());
    for line in rt.lines(rt.alloc()) {
        script.take(&rt, line?.as_str())?;
    }
    Ok(())
}
