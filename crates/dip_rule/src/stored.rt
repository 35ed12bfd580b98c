ghost use Rattle.dip_rule.specs.Stated.{IsStated, StatedAnswer};
ghost use Rattle.tl_params.specs.declared.ports.DownPort.{DownPort};
ghost use Rattle.tl_params.specs.declared.ports.UpPort.{UpPort};

use crate::{AskedDown, AskedUp, Rule, RuleFault};
use std::marker::{Model, PhantomData};
use tl_params::{Args, DownPort, UpPort};

/// Two stated answers, and no call.
pub trait Says {
    ghost down: { StatedAnswer DownPort };

    ghost up: { StatedAnswer UpPort };
}

/// A rule made of two sides, which may be asked on all arguments and ports and answer what `S` states.
#[derive(Drop)]
pub struct Stored<S: Says, D: AskedDown, U: AskedUp> {
    by_down: D,
    by_up: U,
    says: PhantomData<S>,
}

impl<S: Says, D: AskedDown, U: AskedUp> Model for Stored<S, D, U> {
    ghost use Rattle.std.specs.Prelude.{⊤};
    ghost use Rattle.dip_rule.specs.Stated.{IsStated};

    ghost Value = { ⊤ };

    ghost view = { λ s. tt };

    ghost invariant = { λ s. IsStated (D.may s.by_down) (D.gives s.by_down) S.down × IsStated (U.may
        s.by_up) (U.gives s.by_up) S.up };
}

impl<S: Says, D: AskedDown, U: AskedUp> Stored<S, D, U> {
    /// Keeps two sides that answer what `S` states.
    pub fn new(down: D, up: U) -> Stored<S, D, U>
        requires down { IsStated (D.may down) (D.gives down) S.down }
        requires up { IsStated (U.may up) (U.gives up) S.up }
    {
        Stored {
            by_down: down,
            by_up: up,
            says: PhantomData,
        }
    }
}

impl<S: Says, D: AskedDown, U: AskedUp> Rule for Stored<S, D, U> {
    ghost says_down = { λ s. S.down };

    ghost says_up = { λ s. S.up };

    fn down(&self, args: &Args, ins: &[DownPort]) -> Result<DownPort, RuleFault> {
        self.by_down.ask_down(args, ins)
    }

    fn up(&self, args: &Args, outs: &[UpPort]) -> Result<UpPort, RuleFault> {
        self.by_up.ask_up(args, outs)
    }
}
