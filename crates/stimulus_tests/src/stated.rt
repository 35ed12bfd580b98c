ghost use Rattle.std.specs.Prelude.{IfOk};
ghost use Rattle.tl_edge.specs.SoundPlans.{IsSound};
ghost use Rattle.dip_graph.specs.WellStated.{IsWellStated};
ghost use Rattle.dip_plan.specs.Standing.{StandsTo};

use dip_graph::{Design, Fault};
use dip_plan::{Accepted, check};
use soc_design::read_design;
use soc_stimulus::{StimFault, Stimulus, read_stimulus};
use std::alloc::Global;
use tl_rules::boxed_standard_rules;

/// Why there is no stimulus.
#[derive(Clone, Copy)]
pub enum Unread {
    /// The design isn't accepted.
    Design,
    /// The file fails a rule at an entry.
    Line { rule: u16, entry: u64 },
    Memory,
}

// What the design of a file has, by the standard rules.
fn accepted_of(alloc: Global, design: &Design) -> Result<Accepted, Fault>
    requires { IsWellStated design.now }
    ensures sound { IfOk result (λ accepted. IsSound accepted.plan) }
    ensures stands { IfOk result (λ accepted. StandsTo design.now accepted.edges accepted.solution
        accepted.plan) }
{
    let rules = boxed_standard_rules!(alloc);
    check(alloc, design, &rules)
}

// What a stimulus file states for a design.
fn stated_for(alloc: Global, design: &Design, file: &[u8]) -> Result<Stimulus, Unread>
    requires { IsWellStated design.now }
{
    let Ok(accepted) = accepted_of(alloc, design) else {
        return Err(Unread::Design);
    };
    match read_stimulus(alloc, file, design, &accepted) {
        Ok(stimulus) => Ok(stimulus),
        Err(StimFault::Line { rule, entry }) => Err(Unread::Line { rule, entry }),
        Err(StimFault::Memory) => Err(Unread::Memory),
    }
}

/// What a stimulus file states for the design of a file.
pub fn stated(alloc: Global, design: &[u8], file: &[u8]) -> Result<Stimulus, Unread> {
    let Ok(design) = read_design(alloc, design) else {
        return Err(Unread::Design);
    };
    stated_for(alloc, &design, file)
}
