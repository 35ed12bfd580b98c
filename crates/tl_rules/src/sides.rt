// The five standard rules as `Stored` values. Each stands as forty lines that differ in names alone, since
// what they share can't be shared: `Says` states by a type, so each rule wants a type of its own; an `impl`
// that a macro of this repository writes is refused; and a struct that holds a bare function or closure
// can't be boxed as a rule. Both sides of a rule are one struct, whose value stands twice in the rule: as
// the side that is asked down and the one asked up.

ghost use Rattle.std.specs.Prelude.{⊤};
ghost use Rattle.dip_rule.specs.Stated.{Answers};
ghost use Rattle.tl_rules.specs.Adapters.{buffer_down, buffer_up, width_down, width_up};
ghost use Rattle.tl_rules.specs.Crossbars.{xbar_down, xbar_up};
ghost use Rattle.tl_rules.specs.Fragments.{fragmenter_down, fragmenter_up};
ghost use Rattle.tl_rules.specs.Shrinks.{shrinker_down, shrinker_up};

use crate::buffer::{buffer_down, buffer_up};
use crate::fragmenter::{fragmenter_down, fragmenter_up};
use crate::shrinker::{shrinker_down, shrinker_up};
use crate::width::{width_down, width_up};
use crate::xbar::{xbar_down, xbar_up};
use dip_lists::Memory;
use dip_rule::{AskedDown, AskedUp, RuleFault, Says, Stored};
use std::alloc::Global;
use tl_params::{Args, DownPort, UpPort};

/// Both sides of the rule of a buffer, with the memory that its answers take.
#[derive(Drop)]
pub struct BufferSides {
    alloc: Global,
}

impl Says for BufferSides {
    ghost down = { buffer_down };

    ghost up = { buffer_up };
}

impl AskedDown for BufferSides {
    ghost may = { λ s args ins. ⊤ };

    ghost gives = { λ s args ins r. Answers (buffer_down args ins) r };

    fn ask_down(&self, args: &Args, ins: &[DownPort]) -> Result<DownPort, RuleFault> {
        buffer_down(self.alloc, args, ins)
    }
}

impl AskedUp for BufferSides {
    ghost may = { λ s args outs. ⊤ };

    ghost gives = { λ s args outs r. Answers (buffer_up args outs) r };

    fn ask_up(&self, args: &Args, outs: &[UpPort]) -> Result<UpPort, RuleFault> {
        buffer_up(self.alloc, args, outs)
    }
}

/// The rule of a buffer.
pub type BufferRule = Stored<BufferSides, BufferSides, BufferSides>;

/// The rule of a buffer in a box of its own, which takes memory for its answers from `alloc`.
pub fn buffer_rule(alloc: Global) -> Result<Box<BufferRule>, Memory> {
    let rule = Stored::new(BufferSides { alloc }, BufferSides { alloc });
    Ok(Box::new(alloc, rule)?)
}

/// Both sides of the rule of a width adapter, with the memory that its answers take.
#[derive(Drop)]
pub struct WidthSides {
    alloc: Global,
}

impl Says for WidthSides {
    ghost down = { width_down };

    ghost up = { width_up };
}

impl AskedDown for WidthSides {
    ghost may = { λ s args ins. ⊤ };

    ghost gives = { λ s args ins r. Answers (width_down args ins) r };

    fn ask_down(&self, args: &Args, ins: &[DownPort]) -> Result<DownPort, RuleFault> {
        width_down(self.alloc, args, ins)
    }
}

impl AskedUp for WidthSides {
    ghost may = { λ s args outs. ⊤ };

    ghost gives = { λ s args outs r. Answers (width_up args outs) r };

    fn ask_up(&self, args: &Args, outs: &[UpPort]) -> Result<UpPort, RuleFault> {
        width_up(self.alloc, args, outs)
    }
}

/// The rule of a width adapter.
pub type WidthRule = Stored<WidthSides, WidthSides, WidthSides>;

/// The rule of a width adapter in a box of its own, which takes memory for its answers from `alloc`.
pub fn width_rule(alloc: Global) -> Result<Box<WidthRule>, Memory> {
    let rule = Stored::new(WidthSides { alloc }, WidthSides { alloc });
    Ok(Box::new(alloc, rule)?)
}

/// Both sides of the rule of a fragmenter, with the memory that its answers take.
#[derive(Drop)]
pub struct FragmenterSides {
    alloc: Global,
}

impl Says for FragmenterSides {
    ghost down = { fragmenter_down };

    ghost up = { fragmenter_up };
}

impl AskedDown for FragmenterSides {
    ghost may = { λ s args ins. ⊤ };

    ghost gives = { λ s args ins r. Answers (fragmenter_down args ins) r };

    fn ask_down(&self, args: &Args, ins: &[DownPort]) -> Result<DownPort, RuleFault> {
        fragmenter_down(self.alloc, args, ins)
    }
}

impl AskedUp for FragmenterSides {
    ghost may = { λ s args outs. ⊤ };

    ghost gives = { λ s args outs r. Answers (fragmenter_up args outs) r };

    fn ask_up(&self, args: &Args, outs: &[UpPort]) -> Result<UpPort, RuleFault> {
        fragmenter_up(self.alloc, args, outs)
    }
}

/// The rule of a fragmenter.
pub type FragmenterRule = Stored<FragmenterSides, FragmenterSides, FragmenterSides>;

/// The rule of a fragmenter in a box of its own, which takes memory for its answers from `alloc`.
pub fn fragmenter_rule(alloc: Global) -> Result<Box<FragmenterRule>, Memory> {
    let rule = Stored::new(FragmenterSides { alloc }, FragmenterSides { alloc });
    Ok(Box::new(alloc, rule)?)
}

/// Both sides of the rule of a shrinker, with the memory that its answers take.
#[derive(Drop)]
pub struct ShrinkerSides {
    alloc: Global,
}

impl Says for ShrinkerSides {
    ghost down = { shrinker_down };

    ghost up = { shrinker_up };
}

impl AskedDown for ShrinkerSides {
    ghost may = { λ s args ins. ⊤ };

    ghost gives = { λ s args ins r. Answers (shrinker_down args ins) r };

    fn ask_down(&self, args: &Args, ins: &[DownPort]) -> Result<DownPort, RuleFault> {
        shrinker_down(self.alloc, args, ins)
    }
}

impl AskedUp for ShrinkerSides {
    ghost may = { λ s args outs. ⊤ };

    ghost gives = { λ s args outs r. Answers (shrinker_up args outs) r };

    fn ask_up(&self, args: &Args, outs: &[UpPort]) -> Result<UpPort, RuleFault> {
        shrinker_up(self.alloc, args, outs)
    }
}

/// The rule of a shrinker.
pub type ShrinkerRule = Stored<ShrinkerSides, ShrinkerSides, ShrinkerSides>;

/// The rule of a shrinker in a box of its own, which takes memory for its answers from `alloc`.
pub fn shrinker_rule(alloc: Global) -> Result<Box<ShrinkerRule>, Memory> {
    let rule = Stored::new(ShrinkerSides { alloc }, ShrinkerSides { alloc });
    Ok(Box::new(alloc, rule)?)
}

/// Both sides of the rule of a crossbar, with the memory that its answers take.
#[derive(Drop)]
pub struct XbarSides {
    alloc: Global,
}

impl Says for XbarSides {
    ghost down = { xbar_down };

    ghost up = { xbar_up };
}

impl AskedDown for XbarSides {
    ghost may = { λ s args ins. ⊤ };

    ghost gives = { λ s args ins r. Answers (xbar_down args ins) r };

    fn ask_down(&self, args: &Args, ins: &[DownPort]) -> Result<DownPort, RuleFault> {
        xbar_down(self.alloc, args, ins)
    }
}

impl AskedUp for XbarSides {
    ghost may = { λ s args outs. ⊤ };

    ghost gives = { λ s args outs r. Answers (xbar_up args outs) r };

    fn ask_up(&self, args: &Args, outs: &[UpPort]) -> Result<UpPort, RuleFault> {
        xbar_up(self.alloc, args, outs)
    }
}

/// The rule of a crossbar.
pub type XbarRule = Stored<XbarSides, XbarSides, XbarSides>;

/// The rule of a crossbar in a box of its own, which takes memory for its answers from `alloc`.
pub fn xbar_rule(alloc: Global) -> Result<Box<XbarRule>, Memory> {
    let rule = Stored::new(XbarSides { alloc }, XbarSides { alloc });
    Ok(Box::new(alloc, rule)?)
}
