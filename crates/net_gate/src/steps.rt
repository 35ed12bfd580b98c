ghost use Rattle.std.specs.Prelude.{◌≡◌, ◌-◌, ◌<◌, ◌==◌, ◌&&◌, IfOk, length, false, replicate, if◌then◌else◌};
ghost use Rattle.net_build.specs.Bits.{AreBits, TellsAll, highs, wire_values};
ghost use Rattle.net_build.specs.Built.{IsBit, IsWire};
ghost use Rattle.net_build.specs.Values.{Adds, Means, Tells, high};
ghost use Rattle.net_choice.specs.Rows.{behind_of, paired, pairs};
ghost use Rattle.net_gate.specs.Sides.{late_count, picked_rest};
ghost use Rattle.net_table.specs.Tables.{AreEntries};

use dip_lists::{Items, Memory};
use net_build::{Builder, Wire, Wires, both};
use net_choice::{Pairing, behind, pair_each, spread, switch};
use std::alloc::Global;

/// 1 where nobody holds the gate.
#[tactic(auto, using(net_build::proofs::Steps::steps, net_build::proofs::Steps::bit_made))]
pub fn is_free(builder: &mut Builder, left: Wire) -> Result<Wire, Memory>
    requires { IsWire builder.old left }
    ensures adds { IfOk result (λ _. Adds builder.old builder.new) }
    ensures bit { IfOk result (λ w. IsBit builder.new w) }
    ensures tells { IfOk result (λ w. Tells builder.new w (λ v. v left.number == 0)) }
{
    let none = builder.constant(left.width, 0)?;
    let wire = builder.eq(left, none)?;
    Ok(wire)
}

/// Which heads may pass, where there is room: those that are offered, where nobody holds the gate, or they
/// do.
#[tactic(auto, using(net_build::proofs::Folded::grown, crate::proofs::Stepped::spread_same))]
pub fn may_pass(
    alloc: Global,
    builder: &mut Builder,
    unlocked: Wire,
    mine: &[Wire],
    wants: &[Wire],
) -> Result<Wires, Memory>
    requires unlocked { IsBit builder.old unlocked }
    requires mine { AreBits builder.old mine.now }
    requires wants { AreBits builder.old wants.now }
    requires long { length wants.now ≡ length mine.now }
    ensures adds { IfOk result (λ _. Adds builder.old builder.new) }
    ensures bits { IfOk result (λ ws. AreBits builder.new ws) }
    ensures long { IfOk result (λ ws. length ws ≡ length wants.now) }
    ensures tells { IfOk result (λ ws. TellsAll builder.new ws
        (λ v. pairs (paired Pairing.Both) (highs v wants.now)
        (pairs (paired Pairing.Either) (replicate (length (highs v mine.now)) (high v unlocked))
        (highs v mine.now)))) }
{
    let opens = spread(alloc, unlocked, mine.len())?;
    let free = pair_each(alloc, builder, Pairing::Either, opens.as_slice(), mine)?;
    let may = pair_each(alloc, builder, Pairing::Both, wants, free.as_slice())?;
    Ok(may)
}

/// How many beats are left of the message that holds the gate, in the next cycle.
#[tactic(auto, using(net_build::proofs::Steps::steps, crate::proofs::Stepped::left_steps))]
pub fn next_left(
    builder: &mut Builder,
    left: Wire,
    unlocked: Wire,
    go: Wire,
    rest: Wire,
) -> Result<Wire, Memory>
    requires wires { IsWire builder.old left × IsWire builder.old rest }
    requires bits { IsBit builder.old unlocked × IsBit builder.old go }
    requires width { rest.width ≡ left.width }
    requires unlocked { Tells builder.old unlocked (λ v. v left.number == 0) }
    ensures adds { IfOk result (λ _. Adds builder.old builder.new) }
    ensures wire { IfOk result (λ w. IsWire builder.new w × (w.width ≡ left.width)) }
    ensures value { IfOk result (λ w. Means builder.new w
        (λ v. if high v go then
        (if v left.number == 0 then v rest.number else v left.number - 1) else v left.number)) }
{
    let one = builder.constant(left.width, 1)?;
    let less = builder.sub(left, one)?;
    let begun = builder.mux(unlocked, rest, less)?;
    let next = builder.mux(go, begun, left)?;
    Ok(next)
}

/// Those behind the winner, where one passes that begins a message, else those behind the last one.
#[tactic(auto, using(net_build::proofs::Folded::grown))]
pub fn late_in_turn(
    alloc: Global,
    builder: &mut Builder,
    begins: Wire,
    grants: &[Wire],
    late: &[Wire],
) -> Result<Wires, Memory>
    requires begins { IsBit builder.old begins }
    requires grants { AreBits builder.old grants.now }
    requires late { AreBits builder.old late.now }
    requires long { length late.now ≡ length grants.now }
    ensures adds { IfOk result (λ _. Adds builder.old builder.new) }
    ensures bits { IfOk result (λ ws. AreBits builder.new ws) }
    ensures long { IfOk result (λ ws. length ws ≡ length late.now) }
    ensures tells { IfOk result (λ ws. TellsAll builder.new ws
        (λ v. if high v begins then behind_of false (highs v grants.now) else highs v late.now)) }
{
    let behind = behind(alloc, builder, grants)?;
    let next = switch(alloc, builder, begins, behind.as_slice(), late)?;
    Ok(next)
}

// No wires.
fn none_late(alloc: Global, builder: &mut Builder, late: &[Wire]) -> Result<Wires, Memory>
    requires { length late.now ≡ 0 }
    ensures adds { IfOk result (λ _. Adds builder.old builder.new) }
    ensures bits { IfOk result (λ ws. AreBits builder.new ws) }
    ensures long { IfOk result (λ ws. length ws ≡ length late.now) }
    ensures tells { IfOk result (λ ws. TellsAll builder.new ws (λ v. highs v late.now)) }
{
    Ok(Items::new(alloc))
}

/// The same where turns go round, and none where they don't.
pub fn next_late(
    alloc: Global,
    builder: &mut Builder,
    round: bool,
    begins: Wire,
    grants: &[Wire],
    late: &[Wire],
) -> Result<Wires, Memory>
    requires begins { IsBit builder.old begins }
    requires grants { AreBits builder.old grants.now }
    requires late { AreBits builder.old late.now }
    requires long { length late.now ≡ late_count round (length grants.now) }
    ensures adds { IfOk result (λ _. Adds builder.old builder.new) }
    ensures bits { IfOk result (λ ws. AreBits builder.new ws) }
    ensures long { IfOk result (λ ws. length ws ≡ length late.now) }
    ensures tells { IfOk result (λ ws. TellsAll builder.new ws
        (λ v. if round then
        (if high v begins then behind_of false (highs v grants.now) else highs v late.now)
        else highs v late.now)) }
{
    if round {
        late_in_turn(alloc, builder, begins, grants, late)
    } else {
        none_late(alloc, builder, late)
    }
}

/// How many beats follow the one that is granted, 0 where none is.
pub fn rest_of(
    builder: &mut Builder,
    grants: &[Wire],
    rests: &[Wire],
    width: u32,
) -> Result<Wire, Memory>
    requires some { 0 < length grants.now }
    requires long { length rests.now ≡ length grants.now }
    requires grants { AreBits builder.old grants.now }
    requires rests { AreEntries builder.old width rests.now }
    ensures adds { IfOk result (λ _. Adds builder.old builder.new) }
    ensures wire { IfOk result (λ w. IsWire builder.new w × (w.width ≡ width)) }
    ensures value { IfOk result (λ w. Means builder.new w
        (λ v. picked_rest (highs v grants.now) (wire_values v rests.now))) }
{
    let rest = builder.choose(grants, rests)?;
    Ok(rest)
}

/// 1 where a beat passes and nobody held the gate.
#[tactic(auto, using(net_build::proofs::Steps::steps))]
pub fn begins_one(builder: &mut Builder, go: Wire, unlocked: Wire) -> Result<Wire, Memory>
    requires { IsBit builder.old go × IsBit builder.old unlocked }
    ensures adds { IfOk result (λ _. Adds builder.old builder.new) }
    ensures bit { IfOk result (λ w. IsBit builder.new w) }
    ensures tells { IfOk result (λ w. Tells builder.new w (λ v. high v go && high v unlocked)) }
{
    let begins = both(builder, go, unlocked)?;
    Ok(begins)
}
