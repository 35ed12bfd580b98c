ghost use Rattle.std.specs.Prelude.{IfOk};
ghost use Rattle.tl_edge.specs.SoundPlans.{IsSound};
ghost use Rattle.dip_graph.specs.WellStated.{IsWellStated};
ghost use Rattle.dip_plan.specs.Standing.{StandsTo};

use dip_graph::{Design, Fault};
use dip_plan::{Accepted, check};
use soc_design::read_design;
use soc_stimulus::read_stimulus;
use std::alloc::Global;
use tl_rules::boxed_standard_rules;

/// The bytes of a design file and of a stimulus file.
#[derive(Drop)]
pub struct Kept {
    pub design: Vec<u8>,
    pub stimulus: Vec<u8>,
}

// What a design has, by the standard rules.
fn accepted_of(alloc: Global, design: &Design) -> Result<Accepted, Fault>
    requires { IsWellStated design.now }
    ensures sound { IfOk result (λ accepted. IsSound accepted.plan) }
    ensures stands { IfOk result (λ accepted. StandsTo design.now accepted.edges accepted.solution
        accepted.plan) }
{
    let rules = boxed_standard_rules!(alloc);
    check(alloc, design, &rules)
}

// How many requests a file states for an accepted design, read so many times.
fn read_times(
    alloc: Global,
    design: &Design,
    accepted: &Accepted,
    file: &[u8],
    times: u64,
) -> Option<usize>
    requires design { IsWellStated design.now }
    requires plan { IsSound accepted.now.plan }
    requires stands { StandsTo design.now accepted.now.edges accepted.now.solution accepted.now.plan }
{
    let mut requests = 0;
    for _ in 0..times {
        let stimulus = read_stimulus(alloc, file, design, accepted).ok()?;
        requests = stimulus.requests.len();
    }
    Some(requests)
}

/// How many requests a stimulus file states for the design of another one, read so many times; `None` where
/// it states none.
pub fn requests_in(alloc: Global, kept: &Kept, times: u64) -> Option<usize> {
    let Ok(design) = read_design(alloc, kept.design.as_slice()) else {
        return None;
    };
    let Ok(accepted) = accepted_of(alloc, &design) else {
        return None;
    };
    read_times(alloc, &design, &accepted, kept.stimulus.as_slice(), times)
}
