ghost use Rattle.dip_rule.specs.Stated.{Answers};
ghost use Rattle.tl_rules.specs.Adapters as spec;

use crate::ports::only;
use dip_rule::RuleFault;
use std::alloc::Global;
use tl_params::{Args, DownPort, UpPort, copy_down, copy_up};

/// What a buffer shows below: the port above it. Any argument is refused with 1, another number of ports than
/// one with 2.
pub fn buffer_down(alloc: Global, args: &Args, ins: &[DownPort]) -> Result<DownPort, RuleFault>
    ensures { Answers (spec.buffer_down args.now ins.now) result }
{
    if !args.is_empty() {
        return Err(RuleFault::Refused(1));
    }
    match only(ins) {
        Some(port) => Ok(copy_down(alloc, port)?),
        None => Err(RuleFault::Refused(2)),
    }
}

/// What a buffer shows above: the port below it. Any argument is refused with 1, another number of ports than
/// one with 2.
pub fn buffer_up(alloc: Global, args: &Args, outs: &[UpPort]) -> Result<UpPort, RuleFault>
    ensures { Answers (spec.buffer_up args.now outs.now) result }
{
    if !args.is_empty() {
        return Err(RuleFault::Refused(1));
    }
    match only(outs) {
        Some(port) => Ok(copy_up(alloc, port)?),
        None => Err(RuleFault::Refused(2)),
    }
}
