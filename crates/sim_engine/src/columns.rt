ghost use Rattle.std.specs.Prelude.{◌≡◌, IfOk, map};
ghost use Rattle.sim_engine.specs.declared.steps.Step.{Step};
ghost use Rattle.sim_engine.specs.Columns.{AreColumns};

use crate::steps::{Kind, Step};
use dip_lists::Memory;
use std::alloc::Global;

/// Steps in columns, so that a cycle reads of each step only what its operator needs.
#[derive(Debug, Drop)]
pub struct Columns {
    /// The first operands.
    pub x: Vec<u32>,
    /// The second operands.
    pub y: Vec<u32>,
    /// The third operands.
    pub z: Vec<u32>,
    /// By how many bits the first operands are moved.
    pub shift: Vec<u8>,
    /// By how many bits the cells are narrower than 64.
    pub short: Vec<u8>,
    /// The operators.
    pub kind: Vec<Kind>,
}

// The operators of some steps.
fn kinds_of(alloc: Global, steps: &[Step]) -> Result<Vec<Kind>, Memory>
    ensures { IfOk result (λ kinds. kinds.items ≡ map (λ (s : Step). s.kind) steps.now) }
{
    let mut kinds = Vec::with_capacity(alloc, steps.len())?;
    for step in steps {
        kinds.push(step.kind)?;
    }
    Ok(kinds)
}

/// The columns of some steps.
pub fn columns_of(alloc: Global, steps: &[Step]) -> Result<Columns, Memory>
    ensures { IfOk result (λ columns. AreColumns columns steps.now) }
{
    Ok(Columns {
        x: steps.iter().map(|step| step.x).collect(alloc)?,
        y: steps.iter().map(|step| step.y).collect(alloc)?,
        z: steps.iter().map(|step| step.z).collect(alloc)?,
        shift: steps.iter().map(|step| step.shift).collect(alloc)?,
        short: steps.iter().map(|step| step.short).collect(alloc)?,
        kind: kinds_of(alloc, steps)?,
    })
}
