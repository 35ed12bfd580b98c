ghost use Rattle.std.specs.Prelude.{◌≡◌, ◌≤◌, ◌==◌, IfOk, not, nat_lt, ◌&&◌, ◌||◌};
ghost use Rattle.net_build.specs.Built.{IsBit, IsWire};
ghost use Rattle.net_build.specs.Values.{Adds, Tells, high};

use dip_lists::Memory;
use net_build::{Builder, Wire, both, either, inverse};
use net_lanes::equals;

/// 1 where a request's opcode is of one with data.
#[tactic(auto, using(net_build::proofs::Steps::steps, net_build::proofs::Steps::bit_made))]
pub fn asks_with_data(builder: &mut Builder, opcode: Wire) -> Result<Wire, Memory>
    requires { IsWire builder.old opcode × (opcode.width ≡ 3) }
    ensures adds { IfOk result (λ _. Adds builder.old builder.new) }
    ensures bit { IfOk result (λ w. IsBit builder.new w) }
    ensures tells { IfOk result (λ w. Tells builder.new w (λ v. nat_lt (v opcode.number) 4)) }
{
    let get = builder.constant(3, 4)?;
    let data = builder.less(opcode, get)?;
    Ok(data)
}

/// 1 where a response's opcode is of one with data.
pub fn answers_with_data(builder: &mut Builder, opcode: Wire) -> Result<Wire, Memory>
    requires { IsWire builder.old opcode × (opcode.width ≡ 3) }
    ensures adds { IfOk result (λ _. Adds builder.old builder.new) }
    ensures bit { IfOk result (λ w. IsBit builder.new w) }
    ensures tells { IfOk result (λ w. Tells builder.new w (λ v. v opcode.number == 1)) }
{
    equals(builder, opcode, 1)
}

/// 1 where a head is without data, or the narrow beat ends its wide one.
#[tactic(auto, using(net_build::proofs::Steps::steps))]
pub fn uses_up(builder: &mut Builder, loaded: Wire, ends: Wire) -> Result<Wire, Memory>
    requires { IsBit builder.old loaded × IsBit builder.old ends }
    ensures adds { IfOk result (λ _. Adds builder.old builder.new) }
    ensures bit { IfOk result (λ w. IsBit builder.new w) }
    ensures tells { IfOk result
        (λ w. Tells builder.new w (λ v. not (high v loaded) || high v ends)) }
{
    let plain = inverse(builder, loaded)?;
    let all = either(builder, plain, ends)?;
    Ok(all)
}

/// What is done with a head.
#[derive(Debug, Clone, Copy)]
pub struct Passing {
    /// 1 where it is taken.
    pub take: Wire,
    /// 1 where a beat is put.
    pub put: Wire,
}

/// To a narrower bus, by whether there are a head and room, and whether the beat uses the head up: a beat is
/// put where there are both, and the head taken with the last one.
#[tactic(auto, using(net_build::proofs::Steps::steps))]
pub fn pass_narrowing(
    builder: &mut Builder,
    valid: Wire,
    room: Wire,
    last: Wire,
) -> Result<Passing, Memory>
    requires bits { IsBit builder.old valid × IsBit builder.old room × IsBit builder.old last }
    ensures adds { IfOk result (λ _. Adds builder.old builder.new) }
    ensures bits { IfOk result (λ p. IsBit builder.new p.take × IsBit builder.new p.put) }
    ensures put { IfOk result (λ p. Tells builder.new p.put (λ v. high v valid && high v room)) }
    ensures take { IfOk result
        (λ p. Tells builder.new p.take (λ v. (high v valid && high v room) && high v last)) }
{
    let put = both(builder, valid, room)?;
    let take = both(builder, put, last)?;
    Ok(Passing { take, put })
}

/// To a wider bus: a head that ends no wide beat is taken whether there is room or not; one that ends it is
/// taken where there is room, and then the wide beat is put.
#[tactic(auto, using(net_build::proofs::Steps::steps))]
pub fn pass_widening(
    builder: &mut Builder,
    valid: Wire,
    room: Wire,
    last: Wire,
) -> Result<Passing, Memory>
    requires bits { IsBit builder.old valid × IsBit builder.old room × IsBit builder.old last }
    ensures adds { IfOk result (λ _. Adds builder.old builder.new) }
    ensures bits { IfOk result (λ p. IsBit builder.new p.take × IsBit builder.new p.put) }
    ensures put { IfOk result
        (λ p. Tells builder.new p.put (λ v. (high v valid && high v room) && high v last)) }
    ensures take { IfOk result
        (λ p. Tells builder.new p.take (λ v. high v valid && (not (high v last) || high v room))) }
{
    let waits = uses_up(builder, last, room)?;
    let take = both(builder, valid, waits)?;
    let go = both(builder, valid, room)?;
    let put = both(builder, go, last)?;
    Ok(Passing { take, put })
}
