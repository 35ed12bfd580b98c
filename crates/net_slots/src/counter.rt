ghost use Rattle.std.specs.Prelude.{◌≡◌, ◌==◌, IfOk};
ghost use Rattle.net_build.specs.Built.{IsBit, IsWire};
ghost use Rattle.net_build.specs.Values.{Adds, Means, Tells, high};
ghost use Rattle.net_slots.specs.Slots.{left_then};
ghost use Rattle.net_slots.specs.SlotWires.{IsCounter};

use crate::types::Counter;
use dip_lists::Memory;
use net_build::{Builder, Wire};

/// 1 where a wire is 0.
#[tactic(auto, using(net_build::proofs::Steps::steps, net_build::proofs::Steps::bit_made))]
pub fn is_none(builder: &mut Builder, left: Wire) -> Result<Wire, Memory>
    requires { IsWire builder.old left }
    ensures adds { IfOk result (λ _. Adds builder.old builder.new) }
    ensures bit { IfOk result (λ w. IsBit builder.new w) }
    ensures tells { IfOk result (λ w. Tells builder.new w (λ v. v left.number == 0)) }
{
    let none = builder.constant(left.width, 0)?;
    let wire = builder.eq(left, none)?;
    Ok(wire)
}

/// How many beats are left after a cycle in which one passes where `go` is 1: of a message that begins so
/// many follow. `idle` is 1 where none is left before.
#[tactic(auto, using(net_build::proofs::Steps::steps, crate::proofs::Counted::one_fits))]
pub fn next_left(
    builder: &mut Builder,
    left: Wire,
    idle: Wire,
    go: Wire,
    rest: Wire,
) -> Result<Wire, Memory>
    requires wires { IsWire builder.old left × IsWire builder.old rest }
    requires bits { IsBit builder.old idle × IsBit builder.old go }
    requires width { rest.width ≡ left.width }
    requires idle { Tells builder.old idle (λ v. v left.number == 0) }
    ensures adds { IfOk result (λ _. Adds builder.old builder.new) }
    ensures wire { IfOk result (λ w. IsWire builder.new w × (w.width ≡ left.width)) }
    ensures value { IfOk result (λ w. Means builder.new w
        (λ v. left_then (high v go) (v left.number) (v rest.number))) }
{
    let one = builder.constant(left.width, 1)?;
    let less = builder.sub(left, one)?;
    let begun = builder.mux(idle, rest, less)?;
    let next = builder.mux(go, begun, left)?;
    Ok(next)
}

/// Counts how many beats of a message are left: a beat passes where `go` is 1, and so many follow one that
/// begins a message.
pub fn count_left(builder: &mut Builder, go: Wire, rest: Wire) -> Result<Counter, Memory>
    requires go { IsBit builder.old go }
    requires rest { IsWire builder.old rest }
    ensures adds { IfOk result (λ _. Adds builder.old builder.new) }
    ensures bit { IfOk result (λ c. IsBit builder.new c.ends) }
    ensures counter { IfOk result (λ c. IsCounter builder.new go rest c) }
{
    let left = builder.register(rest.width)?;
    let idle = is_none(builder, left)?;
    let next = next_left(builder, left, idle, go, rest)?;
    let ends = is_none(builder, next)?;
    builder.drive(left, next)?;
    Ok(Counter { left, ends })
}
