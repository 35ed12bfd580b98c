ghost use Rattle.std.specs.Prelude.{◌≡◌, IfOk, length, not, false, true, replicate};
ghost use Rattle.net_build.specs.Bits.{AreBits, TellsAll, highs};
ghost use Rattle.net_build.specs.Built.{IsBit};
ghost use Rattle.net_build.specs.Values.{Adds, Tells, high};
ghost use Rattle.net_choice.specs.Rows.{any_of, paired, pairs};
ghost use Rattle.net_choice.specs.Choice.{grants_of};

use crate::rows::{Pairing, pair_each};
use dip_lists::Memory;
use net_build::{Builder, Wire, Wires, both, inverse};
use std::alloc::Global;

/// Which of some requests is granted.
#[derive(Debug, Drop)]
pub struct Granted {
    /// A wire for each: 1 where it is granted.
    pub grants: Wires,
    /// 1 where one is.
    pub some: Wire,
}

// The first of those that may, where there is room. `full` is 1 where there is none.
#[tactic(auto, using(net_build::proofs::Folded::grown))]
fn lowest(builder: &mut Builder, ready: Wire, full: Wire, may: &[Wire]) -> Result<Granted, Memory>
    requires bits { IsBit builder.old ready × IsBit builder.old full }
    requires full { Tells builder.old full (λ v. not (high v ready)) }
    requires may { AreBits builder.old may.now }
    ensures adds { IfOk result (λ _. Adds builder.old builder.new) }
    ensures bits { IfOk result (λ g. IsBit builder.new g.some × AreBits builder.new g.grants) }
    ensures long { IfOk result (λ g. length g.grants ≡ length may.now) }
    ensures grants { IfOk result (λ g. TellsAll builder.new g.grants
        (λ v. grants_of false (highs v may.now)
        (pairs (paired Pairing.Both) (highs v may.now) (replicate (length may.now) (high v ready))))) }
    ensures some { IfOk result (λ g. Tells builder.new g.some (λ v. any_of (highs v g.grants))) }
{
    let firsts = builder.firsts(full, may)?;
    let some = both(builder, firsts.seen, ready)?;
    let grants = firsts.into_wires();
    Ok(Granted { grants, some })
}

// The first in turn of those that may, where there is room.
#[tactic(auto, using(net_build::proofs::Folded::grown))]
fn by_turn(
    alloc: Global,
    builder: &mut Builder,
    ready: Wire,
    full: Wire,
    late: &[Wire],
    may: &[Wire],
) -> Result<Granted, Memory>
    requires bits { IsBit builder.old ready × IsBit builder.old full }
    requires full { Tells builder.old full (λ v. not (high v ready)) }
    requires late { AreBits builder.old late.now }
    requires may { AreBits builder.old may.now }
    requires long { length late.now ≡ length may.now }
    ensures adds { IfOk result (λ _. Adds builder.old builder.new) }
    ensures bits { IfOk result (λ g. IsBit builder.new g.some × AreBits builder.new g.grants) }
    ensures long { IfOk result (λ g. length g.grants ≡ length may.now) }
    ensures grants { IfOk result (λ g. TellsAll builder.new g.grants
        (λ v. grants_of true (highs v late.now)
        (pairs (paired Pairing.Both) (highs v may.now) (replicate (length may.now) (high v ready))))) }
    ensures some { IfOk result (λ g. Tells builder.new g.some (λ v. any_of (highs v g.grants))) }
{
    let lates = pair_each(alloc, builder, Pairing::Both, may, late)?;
    let early = builder.firsts(full, lates.as_slice())?;
    let all = builder.firsts(early.seen, may)?;
    let some = both(builder, all.seen, ready)?;
    let grants = pair_each(
        alloc,
        builder,
        Pairing::Either,
        early.wires.as_slice(),
        all.wires.as_slice(),
    )?;
    Ok(Granted { grants, some })
}

/// Which of these requests is granted where there is room: the first that may, or, going round, the first in
/// turn, where those behind the last winner come late.
#[tactic(auto, using(net_build::proofs::Folded::grown))]
pub fn grant_one(
    alloc: Global,
    builder: &mut Builder,
    round: bool,
    ready: Wire,
    late: &[Wire],
    may: &[Wire],
) -> Result<Granted, Memory>
    requires ready { IsBit builder.old ready }
    requires late { AreBits builder.old late.now }
    requires may { AreBits builder.old may.now }
    requires long { round ≡ true → length late.now ≡ length may.now }
    ensures adds { IfOk result (λ _. Adds builder.old builder.new) }
    ensures bits { IfOk result (λ g. IsBit builder.new g.some × AreBits builder.new g.grants) }
    ensures long { IfOk result (λ g. length g.grants ≡ length may.now) }
    ensures grants { IfOk result (λ g. TellsAll builder.new g.grants
        (λ v. grants_of round (highs v late.now)
        (pairs (paired Pairing.Both) (highs v may.now) (replicate (length may.now) (high v ready))))) }
    ensures some { IfOk result (λ g. Tells builder.new g.some (λ v. any_of (highs v g.grants))) }
{
    let full = inverse(builder, ready)?;
    if round {
        let granted = by_turn(alloc, builder, ready, full, late, may)?;
        Ok(granted)
    } else {
        let granted = lowest(builder, ready, full, may)?;
        Ok(granted)
    }
}
