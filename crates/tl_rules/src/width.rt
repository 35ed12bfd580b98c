ghost use Rattle.std.specs.Prelude.{◌≡◌, IfOk};
ghost use Rattle.dip_rule.specs.Stated.{Answers};
ghost use Rattle.tl_rules.specs.Adapters as spec;

use crate::ports::only;
use dip_lists::{Duplicate, Memory};
use dip_rule::RuleFault;
use std::alloc::Global;
use tl_params::{Args, DownPort, UpPort, copy_down, is_width};

// The only argument, where it is a width.
fn width_argument(args: &Args) -> Option<u32>
    ensures { result ≡ spec.width_argument args.now }
{
    match args.as_slice() {
        [width] if is_width(*width) => Some(*width),
        _ => None,
    }
}

// A copy of a port behind a bus of this width.
fn with_beat(alloc: Global, width: u32, port: &UpPort) -> Result<UpPort, Memory>
    ensures { IfOk result (λ wide. wide ≡ spec.with_beat width port.now) }
{
    let slaves = port.slaves.duplicate(alloc)?;
    Ok(UpPort {
        slaves,
        beat: width,
    })
}

/// What a width adapter shows below: the port above it. Arguments other than one of 1, 2, 4 and 8 are refused
/// with 1, another number of ports than one with 2.
pub fn width_down(alloc: Global, args: &Args, ins: &[DownPort]) -> Result<DownPort, RuleFault>
    ensures { Answers (spec.width_down args.now ins.now) result }
{
    let Some(_) = width_argument(args) else {
        return Err(RuleFault::Refused(1));
    };
    match only(ins) {
        Some(port) => Ok(copy_down(alloc, port)?),
        None => Err(RuleFault::Refused(2)),
    }
}

/// What a width adapter shows above: the port below it, behind a bus as wide as the argument says. Arguments
/// other than one of 1, 2, 4 and 8 are refused with 1, another number of ports than one with 2.
pub fn width_up(alloc: Global, args: &Args, outs: &[UpPort]) -> Result<UpPort, RuleFault>
    ensures { Answers (spec.width_up args.now outs.now) result }
{
    let Some(width) = width_argument(args) else {
        return Err(RuleFault::Refused(1));
    };
    match only(outs) {
        Some(port) => Ok(with_beat(alloc, width, port)?),
        None => Err(RuleFault::Refused(2)),
    }
}
