ghost use Rattle.std.specs.Prelude.{IfOk, false, not, ◌&&◌, ◌||◌};
ghost use Rattle.net_build.specs.Built.{IsBit};
ghost use Rattle.net_build.specs.Values.{Adds, Tells, high};

use crate::builder::Builder;
use crate::types::Wire;
use dip_lists::Memory;

/// 1 where a wire of one bit isn't.
#[tactic(auto, using(crate::proofs::Gates::bits))]
pub fn inverse(builder: &mut Builder, x: Wire) -> Result<Wire, Memory>
    requires { IsBit builder.old x }
    ensures adds { IfOk result (λ _. Adds builder.old builder.new) }
    ensures bit { IfOk result (λ w. IsBit builder.new w) }
    ensures tells { IfOk result (λ w. Tells builder.new w (λ v. not (high v x))) }
{
    let wire = builder.not(x)?;
    Ok(wire)
}

/// 1 where two wires of one bit are.
#[tactic(auto, using(crate::proofs::Gates::bits))]
pub fn both(builder: &mut Builder, x: Wire, y: Wire) -> Result<Wire, Memory>
    requires { IsBit builder.old x × IsBit builder.old y }
    ensures adds { IfOk result (λ _. Adds builder.old builder.new) }
    ensures bit { IfOk result (λ w. IsBit builder.new w) }
    ensures tells { IfOk result (λ w. Tells builder.new w (λ v. high v x && high v y)) }
{
    let wire = builder.and(x, y)?;
    Ok(wire)
}

/// 1 where one of two wires of one bit is.
#[tactic(auto, using(crate::proofs::Gates::bits))]
pub fn either(builder: &mut Builder, x: Wire, y: Wire) -> Result<Wire, Memory>
    requires { IsBit builder.old x × IsBit builder.old y }
    ensures adds { IfOk result (λ _. Adds builder.old builder.new) }
    ensures bit { IfOk result (λ w. IsBit builder.new w) }
    ensures tells { IfOk result (λ w. Tells builder.new w (λ v. high v x || high v y)) }
{
    let wire = builder.or(x, y)?;
    Ok(wire)
}

/// A wire that is always 0.
#[tactic(auto, using(crate::proofs::Gates::bits))]
pub fn low(builder: &mut Builder) -> Result<Wire, Memory>
    ensures adds { IfOk result (λ _. Adds builder.old builder.new) }
    ensures bit { IfOk result (λ w. IsBit builder.new w) }
    ensures tells { IfOk result (λ w. Tells builder.new w (λ v. false)) }
{
    let wire = builder.constant(1, 0)?;
    Ok(wire)
}
