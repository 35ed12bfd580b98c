ghost use Rattle.std.specs.Prelude.{◌≡◌};
ghost use Rattle.dip_rule.specs.Stated.{Answers, StatedAnswer};
ghost use Rattle.tl_params.specs.declared.ports.DownPort.{DownPort};
ghost use Rattle.tl_params.specs.declared.ports.UpPort.{UpPort};

use crate::RuleFault;
use tl_params::{Args, DownPort, UpPort};

/// How the nodes of a kind make their ports of those that they are given.
///
/// Both calls are total, and answer what the rule states: for equal arguments and ports always the same.
pub trait Rule: Drop {
    ghost says_down: { Self → StatedAnswer DownPort };

    ghost says_up: { Self → StatedAnswer UpPort };

    /// What goes down, from what comes down at some ports.
    fn down(&self, args: &Args, ins: &[DownPort]) -> Result<DownPort, RuleFault>
        ensures { Answers (says_down self.now args.now ins.now) result };

    /// What goes up, from what comes up at some ports.
    fn up(&self, args: &Args, outs: &[UpPort]) -> Result<UpPort, RuleFault>
        ensures { Answers (says_up self.now args.now outs.now) result };
}
