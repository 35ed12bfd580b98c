ghost use Rattle.std.specs.Prelude.{◌≡◌, IfOk, not, ◌&&◌, ◌||◌};
ghost use Rattle.net_build.specs.Built.{IsBit};
ghost use Rattle.net_build.specs.Values.{Adds, Tells, high};

use dip_lists::Memory;
use net_build::{Builder, Wire, both, either, inverse};

/// 1 where the head is there and stays.
#[tactic(auto, using(net_build::proofs::Steps::steps))]
pub fn kept(builder: &mut Builder, valid: Wire, pop: Wire) -> Result<Wire, Memory>
    requires { IsBit builder.old valid × IsBit builder.old pop }
    ensures adds { IfOk result (λ _. Adds builder.old builder.new) }
    ensures bit { IfOk result (λ w. IsBit builder.new w) }
    ensures tells { IfOk result (λ w. Tells builder.new w (λ v. high v valid && not (high v pop))) }
{
    let stays = inverse(builder, pop)?;
    let kept = both(builder, valid, stays)?;
    Ok(kept)
}

/// Whether there is a head and a second item in the next cycle.
#[derive(Clone, Copy)]
pub struct Filling {
    /// A head.
    pub valid: Wire,
    /// A second item.
    pub full: Wire,
}

/// By whether the head stays, whether there is a second item, and whether one is put.
#[tactic(auto, using(net_build::proofs::Steps::steps))]
pub fn next_filling(
    builder: &mut Builder,
    kept: Wire,
    full: Wire,
    push: Wire,
) -> Result<Filling, Memory>
    requires { IsBit builder.old kept × IsBit builder.old full × IsBit builder.old push }
    ensures adds { IfOk result (λ _. Adds builder.old builder.new) }
    ensures bits { IfOk result (λ l. IsBit builder.new l.valid × IsBit builder.new l.full) }
    ensures valid { IfOk result
        (λ l. Tells builder.new l.valid (λ v. high v kept || (high v full || high v push))) }
    ensures full { IfOk result
        (λ l. Tells builder.new l.full (λ v. high v kept && (high v full || high v push))) }
{
    let more = either(builder, full, push)?;
    let valid = either(builder, kept, more)?;
    let full = both(builder, kept, more)?;
    Ok(Filling { valid, full })
}
