ghost use Rattle.std.specs.Prelude.{◌≡◌, ℕ, List, Result};
ghost use Rattle.std.specs.Borrow.{Bor};
ghost use Rattle.dip_rule.specs.declared.fault.RuleFault.{RuleFault};
ghost use Rattle.tl_params.specs.declared.ports.DownPort.{DownPort};
ghost use Rattle.tl_params.specs.declared.ports.UpPort.{UpPort};

use crate::RuleFault;
use tl_params::{Args, DownPort, UpPort};

/// What can be asked down: on which arguments and ports it may be, and what it may answer there.
pub trait AskedDown: Drop {
    ghost may: { Self → List ℕ → List DownPort → Type 0 };

    ghost gives: { Self → List ℕ → List DownPort → Result DownPort RuleFault → Type 0 };

    /// What it answers.
    fn ask_down(&self, args: &Args, ins: &[DownPort]) -> Result<DownPort, RuleFault>
        requires { may self.now args.now ins.now }
        ensures { gives self.now args.now ins.now result };
}

/// What can be asked up.
pub trait AskedUp: Drop {
    ghost may: { Self → List ℕ → List UpPort → Type 0 };

    ghost gives: { Self → List ℕ → List UpPort → Result UpPort RuleFault → Type 0 };

    /// What it answers.
    fn ask_up(&self, args: &Args, outs: &[UpPort]) -> Result<UpPort, RuleFault>
        requires { may self.now args.now outs.now }
        ensures { gives self.now args.now outs.now result };
}

/// A closure that is asked down.
#[derive(Drop)]
pub struct ByDown<F> {
    pub call: F,
}

impl<F: Fn(&Args, &[DownPort]) -> Result<DownPort, RuleFault>> AskedDown for ByDown<F> {
    ghost may = { λ f args ins. (a : Bor (List ℕ)) (i : Bor (List DownPort)) → a.now ≡ args → i.now ≡ ins
        → F.pre f.call a i };

    ghost gives = { λ f args ins r. (a : Bor (List ℕ)) × (i : Bor (List DownPort)) × (a.now ≡ args) ×
        (i.now ≡ ins) × F.post f.call a i r };

    fn ask_down(&self, args: &Args, ins: &[DownPort]) -> Result<DownPort, RuleFault> {
        (self.call)(args, ins)
    }
}

/// A closure that is asked up.
#[derive(Drop)]
pub struct ByUp<F> {
    pub call: F,
}

impl<F: Fn(&Args, &[UpPort]) -> Result<UpPort, RuleFault>> AskedUp for ByUp<F> {
    ghost may = { λ f args outs. (a : Bor (List ℕ)) (o : Bor (List UpPort)) → a.now ≡ args → o.now ≡ outs
        → F.pre f.call a o };

    ghost gives = { λ f args outs r. (a : Bor (List ℕ)) × (o : Bor (List UpPort)) × (a.now ≡ args) ×
        (o.now ≡ outs) × F.post f.call a o r };

    fn ask_up(&self, args: &Args, outs: &[UpPort]) -> Result<UpPort, RuleFault> {
        (self.call)(args, outs)
    }
}
