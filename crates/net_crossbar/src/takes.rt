ghost use Rattle.std.specs.Prelude.{◌≡◌, ◌<◌, IfOk, length, map, slice_index_or};
ghost use Rattle.net_build.specs.Columns.{no_wire};
ghost use Rattle.net_build.specs.Values.{Adds};
ghost use Rattle.net_gate.specs.declared.types.Serving.{Serving as TheServing};
ghost use Rattle.net_crossbar.specs.Places.{AllAt};
ghost use Rattle.net_crossbar.specs.Serving.{GrantEach, TellsTaken};

use dip_lists::{Items, Memory};
use net_build::{Builder, Wire, Wires};
use net_gate::Serving;
use std::alloc::Global;

// What some gates grant to one head.
fn grants_to(alloc: Global, servings: &[Serving], head: usize) -> Result<Wires, Memory>
    requires { AllAt (λ k (s : TheServing). head < length s.grants) servings.now }
    ensures { IfOk result
        (λ ws. ws ≡ map (λ (s : TheServing). slice_index_or s.grants head no_wire) servings.now) }
{
    let mut out: Wires = Items::new(alloc);
    for place in 0..servings.len() {
        let grants = servings[place].grants.as_slice();
        out.push(grants[head])?;
    }
    Ok(out)
}

// 1 where one of some gates takes a head.
fn take(
    alloc: Global,
    builder: &mut Builder,
    servings: &[Serving],
    count: usize,
    head: usize,
) -> Result<Wire, Memory>
    requires grants { GrantEach builder.old count servings.now }
    requires head { head < count }
    ensures adds { IfOk result (λ _. Adds builder.old builder.new) }
    ensures tells { IfOk result (λ w. TellsTaken builder.new servings.now head w) }
{
    let grants = grants_to(alloc, servings, head)?;
    let wire = builder.any(grants.as_slice())?;
    Ok(wire)
}

/// For each of so many heads 1 where one of some gates takes it.
pub fn build_takes(
    alloc: Global,
    builder: &mut Builder,
    servings: &[Serving],
    count: usize,
) -> Result<Wires, Memory>
    requires { GrantEach builder.old count servings.now }
    ensures adds { IfOk result (λ _. Adds builder.old builder.new) }
    ensures long { IfOk result (λ ws. length ws ≡ count) }
    ensures takes { IfOk result (λ ws. AllAt (λ k w. TellsTaken builder.new servings.now k w) ws) }
{
    let mut out: Wires = Items::new(alloc);
    for head in 0..count {
        let wire = take(alloc, builder, servings, count, head)?;
        out.push(wire)?;
    }
    Ok(out)
}
