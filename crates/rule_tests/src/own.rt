ghost use Rattle.std.specs.Prelude.{Err, ⊤};
ghost use Rattle.dip_rule.specs.Stated.{Answers, IsStated};
ghost use Rattle.tl_rules.specs.Adapters as adapters;

use dip_lists::{Items, Memory};
use dip_rule::{AskedDown, AskedUp, ByDown, ByUp, Rule, RuleFault, Says, Stored};
use std::alloc::Global;
use std::cell::Cell;
use std::rc::Rc;
use tl_params::{Args, DownPort, UpPort};
use tl_rules::{buffer_down, buffer_up};

/// Answers as a buffer does, and counts how often it is asked. The first asking after `short` was set finds
/// no memory.
#[derive(Drop)]
pub struct Counting {
    pub alloc: Global,
    pub asked: Rc<Cell<u32>>,
    pub short: Rc<Cell<bool>>,
}

impl Counting {
    // Counts an asking; whether it finds memory.
    fn is_asked(&self) -> bool {
        self.asked.set(self.asked.get().saturating_add(1));
        !self.short.replace(false)
    }
}

impl Rule for Counting {
    ghost says_down = { λ s. adapters.buffer_down };

    ghost says_up = { λ s. adapters.buffer_up };

    fn down(&self, args: &Args, ins: &[DownPort]) -> Result<DownPort, RuleFault> {
        if self.is_asked() {
            buffer_down(self.alloc, args, ins)
        } else {
            Err(RuleFault::Memory)
        }
    }

    fn up(&self, args: &Args, outs: &[UpPort]) -> Result<UpPort, RuleFault> {
        if self.is_asked() {
            buffer_up(self.alloc, args, outs)
        } else {
            Err(RuleFault::Memory)
        }
    }
}

/// Answers down as a buffer does, and refuses all up with 9.
#[derive(Drop)]
pub struct RefusingUp {
    pub alloc: Global,
}

impl Rule for RefusingUp {
    ghost says_down = { λ s. adapters.buffer_down };

    ghost says_up = { λ s args outs. Err 9 };

    fn down(&self, args: &Args, ins: &[DownPort]) -> Result<DownPort, RuleFault> {
        buffer_down(self.alloc, args, ins)
    }

    fn up(&self, _args: &Args, _outs: &[UpPort]) -> Result<UpPort, RuleFault> {
        Err(RuleFault::Refused(9))
    }
}

/// Refuses all with 7 down and with 8 up.
#[derive(Drop)]
pub struct Refusing;

/// A rule that refuses all.
pub type RefusingRule = Stored<Refusing, Refusing, Refusing>;

impl Says for Refusing {
    ghost down = { λ args ins. Err 7 };

    ghost up = { λ args outs. Err 8 };
}

impl AskedDown for Refusing {
    ghost may = { λ s args ins. ⊤ };

    ghost gives = { λ s args ins r. Answers (Err 7) r };

    fn ask_down(&self, _args: &Args, _ins: &[DownPort]) -> Result<DownPort, RuleFault> {
        Err(RuleFault::Refused(7))
    }
}

impl AskedUp for Refusing {
    ghost may = { λ s args outs. ⊤ };

    ghost gives = { λ s args outs r. Answers (Err 8) r };

    fn ask_up(&self, _args: &Args, _outs: &[UpPort]) -> Result<UpPort, RuleFault> {
        Err(RuleFault::Refused(8))
    }
}

/// A rule that refuses all, in a box of its own.
pub fn refusing_rule(alloc: Global) -> Result<Box<RefusingRule>, Memory> {
    Ok(Box::new(alloc, Stored::new(Refusing, Refusing))?)
}

// The numbers with which a rule of these two sides refuses, 0 where it answers.
fn refusals<S: Says, D: AskedDown, U: AskedUp>(alloc: Global, down: D, up: U) -> (u16, u16)
    requires down { IsStated (D.may down) (D.gives down) S.down }
    requires up { IsStated (U.may up) (U.gives up) S.up }
{
    let stored: Stored<S, D, U> = Stored::new(down, up);
    let args = Items::new(alloc);
    let down = match stored.down(&args, &[]) {
        Err(RuleFault::Refused(number)) => number,
        _ => 0,
    };
    let up = match stored.up(&args, &[]) {
        Err(RuleFault::Refused(number)) => number,
        _ => 0,
    };
    (down, up)
}

/// The numbers with which a rule of two closures refuses, which is stored and asked once each way.
pub fn closed(alloc: Global) -> (u16, u16) {
    refusals::<Refusing, _, _>(
        alloc,
        ByDown {
            call: |_args: &Args, _ins: &[DownPort]| -> Result<DownPort, RuleFault> {
                Err(RuleFault::Refused(7))
            },
        },
        ByUp {
            call: |_args: &Args, _outs: &[UpPort]| -> Result<UpPort, RuleFault> {
                Err(RuleFault::Refused(8))
            },
        },
    )
}

/// A rule that counts, in a box of its own.
pub fn counting_rule(
    alloc: Global,
    asked: &Rc<Cell<u32>>,
    short: &Rc<Cell<bool>>,
) -> Result<Box<Counting>, Memory> {
    Ok(Box::new(
        alloc,
        Counting {
            alloc,
            asked: asked.clone()?,
            short: short.clone()?,
        },
    )?)
}

/// A rule that refuses up, in a box of its own.
pub fn refusing_up(alloc: Global) -> Result<Box<RefusingUp>, Memory> {
    Ok(Box::new(alloc, RefusingUp { alloc })?)
}
