ghost use Rattle.std.specs.Prelude.{◌≡◌, ◌<◌, ◌==◌, ◌++◌, IfOk, OnOk, length, true};
ghost use Rattle.net_cells.specs.Rules.{IsWidth};
ghost use Rattle.net_build.specs.Bits.{AreBits, TellsAll, highs, wire_values};
ghost use Rattle.net_build.specs.Built.{IsBit};
ghost use Rattle.net_build.specs.Registers.{AreDistinct, AreUndriven, DrivesAll, numbers};
ghost use Rattle.net_build.specs.Values.{Adds, Opens, Tells, high};
ghost use Rattle.net_choice.specs.Choice.{grants_of};
ghost use Rattle.net_choice.specs.Rows.{any_of};
ghost use Rattle.net_gate.specs.Built.{HasSideShape, IsAfter, IsSideCycle, IsSide, registers_of};
ghost use Rattle.net_gate.specs.Sides.{late_count, may_of};
ghost use Rattle.net_table.specs.Tables.{AllBecome, AreEntries};

use crate::steps::{begins_one, is_free, may_pass, next_late, next_left, rest_of};
use crate::types::Registers;
use dip_lists::{Items, Memory};
use net_build::{Builder, Wire, Wires};
use net_choice::{Granted, grant_one, switch};
use net_table::{drive_registers, open_table};
use std::alloc::Global;

/// How many are told to be late: all where turns go round.
pub fn late_count(round: bool, count: usize) -> usize
    ensures { result ≡ late_count round count }
{
    if round { count } else { 0 }
}

// The registers of one gate, of which the first has this width, in bits.
fn open_side(
    alloc: Global,
    builder: &mut Builder,
    round: bool,
    count: usize,
    wide: u32,
) -> Result<Registers, Memory>
    requires { IsWidth wide }
    ensures opens { IfOk result (λ r. Opens builder.old builder.new (numbers (registers_of r))) }
    ensures undriven { IfOk result (λ r. AreUndriven builder.new (registers_of r)) }
    ensures shape { IfOk result (λ r. HasSideShape builder.new round count wide r) }
{
    let left = builder.register(wide)?;
    let mine = open_table(alloc, builder, count, 1)?;
    let late = open_table(alloc, builder, late_count(round, count), 1)?;
    Ok(Registers { left, mine, late })
}

// Puts wires behind others.
fn append(onto: &mut Wires, more: &[Wire]) -> Result<(), Memory>
    ensures { OnOk result (onto.new ≡ onto.old ++ more.now) }
{
    for wire in more {
        onto.push(*wire)?;
    }
    Ok(())
}

// All registers of one gate.
fn listed(alloc: Global, registers: &Registers) -> Result<Wires, Memory>
    ensures { IfOk result (λ ws. ws ≡ registers_of registers.now) }
{
    let mut out: Wires = Items::new(alloc);
    out.push(registers.left)?;
    append(&mut out, registers.mine.as_slice())?;
    append(&mut out, registers.late.as_slice())?;
    Ok(out)
}

// Puts wires before the registers.
fn close_side(
    alloc: Global,
    builder: &mut Builder,
    round: bool,
    now: &Registers,
    next: &Registers,
) -> Result<(), Memory>
    requires distinct { AreDistinct (registers_of now.now) }
    requires undriven { AreUndriven builder.old (registers_of now.now) }
    requires now { HasSideShape builder.old round (length now.now.mine) now.now.left.width now.now }
    requires next { HasSideShape builder.old round (length now.now.mine) now.now.left.width next.now }
    ensures drives { IfOk result (λ _. DrivesAll builder.old builder.new (numbers (registers_of now.now))) }
    ensures becomes { IfOk result (λ _. AllBecome builder.new (registers_of now.now)
        (λ v. wire_values v (registers_of next.now))) }
{
    let registers = listed(alloc, now)?;
    let nexts = listed(alloc, next)?;
    drive_registers(builder, registers.as_slice(), nexts.as_slice())?;
    Ok(())
}

// Which head passes.
#[tactic(auto, using(net_build::proofs::Folded::grown))]
fn decide(
    alloc: Global,
    builder: &mut Builder,
    round: bool,
    unlocked: Wire,
    now: &Registers,
    wants: &[Wire],
    ready: Wire,
) -> Result<Granted, Memory>
    requires bits { IsBit builder.old unlocked × IsBit builder.old ready }
    requires mine { AreBits builder.old now.now.mine }
    requires late { AreBits builder.old now.now.late }
    requires wants { AreBits builder.old wants.now }
    requires long { length wants.now ≡ length now.now.mine }
    requires turns { round ≡ true → length now.now.late ≡ length wants.now }
    ensures adds { IfOk result (λ _. Adds builder.old builder.new) }
    ensures bits { IfOk result (λ g. IsBit builder.new g.some × AreBits builder.new g.grants) }
    ensures long { IfOk result (λ g. length g.grants ≡ length wants.now) }
    ensures grants { IfOk result (λ g. TellsAll builder.new g.grants
        (λ v. grants_of round (highs v now.now.late)
        (may_of (high v unlocked) (highs v now.now.mine) (highs v wants.now) (high v ready)))) }
    ensures some { IfOk result (λ g. Tells builder.new g.some (λ v. any_of (highs v g.grants))) }
{
    let may = may_pass(alloc, builder, unlocked, now.mine.as_slice(), wants)?;
    let made = grant_one(
        alloc,
        builder,
        round,
        ready,
        now.late.as_slice(),
        may.as_slice(),
    )?;
    Ok(made)
}

// What the registers hold in the next cycle.
fn next_of(
    alloc: Global,
    builder: &mut Builder,
    round: bool,
    unlocked: Wire,
    now: &Registers,
    grants: &[Wire],
    valid: Wire,
    rests: &[Wire],
) -> Result<Registers, Memory>
    requires some { 0 < length grants.now }
    requires rests { AreEntries builder.old now.now.left.width rests.now
        × (length rests.now ≡ length grants.now) }
    requires grants { IsBit builder.old valid × AreBits builder.old grants.now }
    requires unlocked { IsBit builder.old unlocked
        × Tells builder.old unlocked (λ v. v now.now.left.number == 0) }
    requires shape { HasSideShape builder.old round (length grants.now) now.now.left.width now.now }
    ensures adds { IfOk result (λ _. Adds builder.old builder.new) }
    ensures shape { IfOk result
        (λ r. HasSideShape builder.new round (length grants.now) now.now.left.width r) }
    ensures next { IfOk result (λ r. IsAfter builder.new round now.now grants.now valid rests.now r) }
{
    let rest = rest_of(builder, grants, rests, now.left.width)?;
    let left = next_left(builder, now.left, unlocked, valid, rest)?;
    let mine = switch(alloc, builder, valid, grants, now.mine.as_slice())?;
    let begins = begins_one(builder, valid, unlocked)?;
    let late = next_late(alloc, builder, round, begins, grants, now.late.as_slice())?;
    Ok(Registers { left, mine, late })
}

// Which head passes, and what the registers hold in the next cycle.
#[derive(Debug, Drop)]
struct Cycle {
    granted: Granted,
    next: Registers,
}

// What one gate does in a cycle, and what is to be put before its registers.
fn around(
    alloc: Global,
    builder: &mut Builder,
    round: bool,
    now: &Registers,
    wants: &[Wire],
    ready: Wire,
    rests: &[Wire],
) -> Result<Cycle, Memory>
    requires some { 0 < length wants.now }
    requires bits { IsBit builder.old ready × AreBits builder.old wants.now }
    requires rests { AreEntries builder.old now.now.left.width rests.now
        × (length rests.now ≡ length wants.now) }
    requires shape { HasSideShape builder.old round (length wants.now) now.now.left.width now.now }
    ensures adds { IfOk result (λ _. Adds builder.old builder.new) }
    ensures shape { IfOk result
        (λ c. HasSideShape builder.new round (length wants.now) now.now.left.width c.next) }
    ensures bits { IfOk result
        (λ c. IsBit builder.new c.granted.some × AreBits builder.new c.granted.grants) }
    ensures long { IfOk result (λ c. length c.granted.grants ≡ length wants.now) }
    ensures cycle { IfOk result (λ c. IsSideCycle builder.new round wants.now ready rests.now now.now
        c.granted.grants c.granted.some c.next) }
{
    let unlocked = is_free(builder, now.left)?;
    let granted = decide(alloc, builder, round, unlocked, now, wants, ready)?;
    let next = next_of(
        alloc,
        builder,
        round,
        unlocked,
        now,
        granted.grants.as_slice(),
        granted.some,
        rests,
    )?;
    Ok(Cycle { granted, next })
}

/// The registers of a gate, and which head passes.
#[derive(Debug, Drop)]
pub struct Sided {
    /// The registers.
    pub registers: Registers,
    /// Which head passes.
    pub granted: Granted,
}

/// Builds the registers of a gate with a lock, and which of some heads passes: by wires that tell which are
/// offered, whether there is room, and how many beats follow each, in so many bits.
pub fn build_side(
    alloc: Global,
    builder: &mut Builder,
    round: bool,
    wide: u32,
    wants: &[Wire],
    ready: Wire,
    rests: &[Wire],
) -> Result<Sided, Memory>
    requires wide { IsWidth wide }
    requires some { 0 < length wants.now }
    requires bits { IsBit builder.old ready × AreBits builder.old wants.now }
    requires rests { AreEntries builder.old wide rests.now × (length rests.now ≡ length wants.now) }
    ensures adds { IfOk result (λ _. Adds builder.old builder.new) }
    ensures bits { IfOk result
        (λ s. IsBit builder.new s.granted.some × AreBits builder.new s.granted.grants) }
    ensures long { IfOk result (λ s. length s.granted.grants ≡ length wants.now) }
    ensures side { IfOk result (λ s. IsSide builder.new round (length wants.now) wants.now ready rests.now
        s.registers s.granted.grants s.granted.some) }
{
    let registers = open_side(alloc, builder, round, wants.len(), wide)?;
    let cycle = around(alloc, builder, round, &registers, wants, ready, rests)?;
    close_side(alloc, builder, round, &registers, &cycle.next)?;
    let granted = cycle.into_granted();
    Ok(Sided { registers, granted })
}

impl Cycle {
    // Which head passes.
    fn into_granted(self) -> Granted
        ensures { result ≡ self.granted }
    {
        let Cycle { granted, .. } = self;
        granted
    }
}

impl Sided {
    /// Which head passes.
    pub fn into_granted(self) -> Granted
        ensures { result ≡ self.granted }
    {
        let Sided { granted, .. } = self;
        granted
    }
}
