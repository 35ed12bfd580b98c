ghost use Rattle.std.specs.Prelude.{◌≡◌, ◌<◌, ◌≤◌, ◌^◌, ◌==◌, ◌&&◌, ◌||◌, IfOk, is_some, length, not};
ghost use Rattle.net_cells.specs.Rules.{IsWidth};
ghost use Rattle.net_build.specs.Bits.{AreBits, MeansAll, wire_values};
ghost use Rattle.net_build.specs.Built.{IsBit, IsWire};
ghost use Rattle.net_build.specs.Registers.{AreDistinct, AreUndriven, DrivesAll, numbers};
ghost use Rattle.net_build.specs.Values.{Adds, Means, Opens, Tells, high};
ghost use Rattle.net_table.specs.Tables.{AllBecome, AreEntries, entries_written};
ghost use Rattle.net_slots.specs.Slots.{first_free, slot_id, slot_passes};
ghost use Rattle.net_slots.specs.SlotWires.{
  AreMoveWires,
  AreSlotEntries,
  AreSlotWires,
  AreSlots,
  HaveSlotShape,
  IsSized,
  NextSlots,
  TellSlots,
  slot_list,
  slot_side,
  slot_sight,
};

use crate::counter::{is_none, next_left};
use crate::lowest::lowest_free;
use crate::types::{SlotMoves, SlotWires, Slots};
use dip_lists::{Items, Memory};
use net_build::{Builder, Wire, Wires, both, either, inverse};
use net_queue::append;
use net_table::{drive_registers, open_table, read_entry, write_entry};
use std::alloc::Global;

// The registers of so many slots, with new ids and old ids of so many bits.
fn open_slots(
    alloc: Global,
    builder: &mut Builder,
    count: usize,
    new_bits: u32,
    old_bits: u32,
) -> Result<Slots, Memory>
    requires new_bits { IsWidth new_bits }
    requires old_bits { IsWidth old_bits }
    ensures opens { IfOk result (λ s. Opens builder.old builder.new (numbers (slot_list s))) }
    ensures undriven { IfOk result (λ s. AreUndriven builder.new (slot_list s)) }
    ensures shape { IfOk result (λ s. HaveSlotShape builder.new count new_bits old_bits s) }
{
    let id = builder.register(new_bits)?;
    let asking = builder.register(8)?;
    let taken = open_table(alloc, builder, count, 1)?;
    let olds = open_table(alloc, builder, count, old_bits)?;
    Ok(Slots {
        id,
        asking,
        taken,
        olds,
    })
}

// All registers, or what is put before them.
fn listed(alloc: Global, slots: &Slots) -> Result<Wires, Memory>
    ensures { IfOk result (λ ws. ws ≡ slot_list slots.now) }
{
    let mut all: Wires = Items::new(alloc);
    all.push(slots.id)?;
    all.push(slots.asking)?;
    append(&mut all, slots.taken.as_slice())?;
    append(&mut all, slots.olds.as_slice())?;
    Ok(all)
}

// Puts wires before the registers of so many slots, with new and old ids of so many bits.
fn close_slots(
    alloc: Global,
    builder: &mut Builder,
    new_bits: u32,
    old_bits: u32,
    now: &Slots,
    next: &Slots,
) -> Result<(), Memory>
    requires distinct { AreDistinct (slot_list now.now) }
    requires undriven { AreUndriven builder.old (slot_list now.now) }
    requires now { HaveSlotShape builder.old (length now.now.taken) new_bits old_bits now.now }
    requires next { HaveSlotShape builder.old (length now.now.taken) new_bits old_bits next.now }
    ensures drives { IfOk result (λ _. DrivesAll builder.old builder.new (numbers (slot_list now.now))) }
    ensures becomes { IfOk result (λ _. AllBecome builder.new (slot_list now.now)
        (λ v. wire_values v (slot_list next.now))) }
{
    let registers = listed(alloc, now)?;
    let nexts = listed(alloc, next)?;
    drive_registers(builder, registers.as_slice(), nexts.as_slice())?;
    Ok(())
}

// The new id of the next beat of a request.
#[derive(Debug, Clone, Copy)]
struct Choice {
    // 1 where no request is in progress.
    idle: Wire,
    // 1 where a new id is free.
    some: Wire,
    // The id in progress, or the lowest free one.
    id: Wire,
}

// Chooses the new id of the next beat of a request.
#[tactic(auto, using(net_build::proofs::Folded::grown))]
fn choose_id(alloc: Global, builder: &mut Builder, slots: &Slots) -> Result<Choice, Memory>
    requires some { 0 < length slots.now.taken }
    requires shape { IsWire builder.old slots.now.id × IsWire builder.old slots.now.asking }
    requires taken { AreBits builder.old slots.now.taken }
    requires small { length slots.now.taken ≤ 2 ^ slots.now.id.width }
    ensures adds { IfOk result (λ _. Adds builder.old builder.new) }
    ensures bits { IfOk result (λ c. IsBit builder.new c.idle × IsBit builder.new c.some) }
    ensures wire { IfOk result (λ c. IsSized builder.new slots.now.id.width c.id) }
    ensures idle { IfOk result (λ c. Tells builder.new c.idle (λ v. v slots.now.asking.number == 0)) }
    ensures some { IfOk result (λ c. Tells builder.new c.some
        (λ v. is_some (first_free 0 (wire_values v slots.now.taken)))) }
    ensures id { IfOk result (λ c. Means builder.new c.id (λ v. slot_id (slot_side v slots.now))) }
{
    let idle = is_none(builder, slots.asking)?;
    let lowest = lowest_free(alloc, builder, slots.taken.as_slice(), slots.id.width)?;
    let id = builder.mux(idle, lowest.place, slots.id)?;
    Ok(Choice {
        idle,
        some: lowest.some,
        id,
    })
}

// 1 where a beat passes: one is there, with room for it, and it has an id.
#[tactic(auto, using(net_build::proofs::Steps::steps))]
fn let_pass(builder: &mut Builder, wants: Wire, idle: Wire, some: Wire) -> Result<Wire, Memory>
    requires { IsBit builder.old wants × IsBit builder.old idle × IsBit builder.old some }
    ensures adds { IfOk result (λ _. Adds builder.old builder.new) }
    ensures bit { IfOk result (λ w. IsBit builder.new w) }
    ensures tells { IfOk result (λ w. Tells builder.new w
        (λ v. high v wants && (not (high v idle) || high v some))) }
{
    let busy = inverse(builder, idle)?;
    let may = either(builder, busy, some)?;
    let passes = both(builder, wants, may)?;
    Ok(passes)
}

// Which new ids aren't free after a cycle in which a request begins or a response ends.
fn next_taken(
    alloc: Global,
    builder: &mut Builder,
    taken: &[Wire],
    begins: Wire,
    id: Wire,
    frees: Wire,
    new: Wire,
) -> Result<Wires, Memory>
    requires taken { AreEntries builder.old 1 taken.now }
    requires bits { IsBit builder.old begins × IsBit builder.old frees }
    requires ids { IsWire builder.old id × IsWire builder.old new }
    requires small { length taken.now ≤ 2 ^ id.width }
    requires few { length taken.now ≤ 2 ^ new.width }
    ensures adds { IfOk result (λ _. Adds builder.old builder.new) }
    ensures entries { IfOk result (λ ws. AreSlotEntries builder.new (length taken.now) 1 ws) }
    ensures values { IfOk result (λ ws. MeansAll builder.new ws
        (λ v. entries_written (high v frees) (v new.number) 0
        (entries_written (high v begins) (v id.number) 1 (wire_values v taken.now)))) }
{
    let one = builder.constant(1, 1)?;
    let none = builder.constant(1, 0)?;
    let begun = write_entry(alloc, builder, taken, begins, id, one)?;
    let ended = write_entry(alloc, builder, begun.as_slice(), frees, new, none)?;
    Ok(ended)
}

// The slots after a cycle.
fn next_slots(
    alloc: Global,
    builder: &mut Builder,
    slots: &Slots,
    moves: &SlotMoves,
    idle: Wire,
    passes: Wire,
    id: Wire,
) -> Result<Slots, Memory>
    requires shape { HaveSlotShape builder.old (length slots.now.taken) id.width moves.now.old.width
        slots.now }
    requires moves { AreMoveWires builder.old (length slots.now.taken) moves.now.old.width moves.now }
    requires bits { IsBit builder.old idle × IsBit builder.old passes }
    requires id { IsWire builder.old id }
    requires small { length slots.now.taken ≤ 2 ^ id.width }
    requires idle { Tells builder.old idle (λ v. v slots.now.asking.number == 0) }
    requires passes { Tells builder.old passes
        (λ v. slot_passes (slot_side v slots.now) (slot_sight v moves.now)) }
    requires chosen { Means builder.old id (λ v. slot_id (slot_side v slots.now)) }
    ensures adds { IfOk result (λ _. Adds builder.old builder.new) }
    ensures shape { IfOk result
        (λ s. HaveSlotShape builder.new (length slots.now.taken) id.width moves.now.old.width s) }
    ensures next { IfOk result (λ s. NextSlots builder.new slots.now moves.now s) }
{
    let begins = both(builder, passes, idle)?;
    let asking = next_left(builder, slots.asking, idle, passes, moves.rest)?;
    let taken = next_taken(
        alloc,
        builder,
        slots.taken.as_slice(),
        begins,
        id,
        moves.frees,
        moves.new,
    )?;
    let olds = write_entry(alloc, builder, slots.olds.as_slice(), begins, id, moves.old)?;
    Ok(Slots {
        id,
        asking,
        taken,
        olds,
    })
}

// What the slots tell, and what is put before their registers.
#[derive(Debug, Drop)]
struct Cycle {
    wires: SlotWires,
    next: Slots,
}

// What the slots do in a cycle.
fn around(
    alloc: Global,
    builder: &mut Builder,
    new_bits: u32,
    old_bits: u32,
    slots: &Slots,
    moves: &SlotMoves,
) -> Result<Cycle, Memory>
    requires some { 0 < length slots.now.taken }
    requires old_bits { IsWidth old_bits }
    requires small { length slots.now.taken ≤ 2 ^ new_bits }
    requires shape { HaveSlotShape builder.old (length slots.now.taken) new_bits old_bits slots.now }
    requires moves { AreMoveWires builder.old (length slots.now.taken) old_bits moves.now }
    ensures adds { IfOk result (λ _. Adds builder.old builder.new) }
    ensures wires { IfOk result (λ c. AreSlotWires builder.new new_bits old_bits c.wires) }
    ensures tell { IfOk result (λ c. TellSlots builder.new slots.now moves.now c.wires) }
    ensures shape { IfOk result
        (λ c. HaveSlotShape builder.new (length slots.now.taken) new_bits old_bits c.next) }
    ensures next { IfOk result (λ c. NextSlots builder.new slots.now moves.now c.next) }
{
    let choice = choose_id(alloc, builder, slots)?;
    let passes = let_pass(builder, moves.wants, choice.idle, choice.some)?;
    let old = read_entry(builder, slots.olds.as_slice(), old_bits, moves.new)?;
    let next = next_slots(alloc, builder, slots, moves, choice.idle, passes, choice.id)?;
    let wires = SlotWires {
        passes,
        id: choice.id,
        old,
    };
    Ok(Cycle { wires, next })
}

/// The slots of a shrinker, and what they tell.
#[derive(Debug, Drop)]
pub struct BuiltSlots {
    /// The registers.
    pub slots: Slots,
    /// What they tell.
    pub wires: SlotWires,
}

/// Builds so many slots, with new ids and old ids of so many bits, which go by some wires.
pub fn build_slots(
    alloc: Global,
    builder: &mut Builder,
    count: usize,
    new_bits: u32,
    old_bits: u32,
    moves: &SlotMoves,
) -> Result<BuiltSlots, Memory>
    requires some { 0 < count }
    requires new_bits { IsWidth new_bits }
    requires old_bits { IsWidth old_bits }
    requires small { count ≤ 2 ^ new_bits }
    requires moves { AreMoveWires builder.old count old_bits moves.now }
    ensures adds { IfOk result (λ _. Adds builder.old builder.new) }
    ensures wires { IfOk result (λ s. AreSlotWires builder.new new_bits old_bits s.wires) }
    ensures tell { IfOk result (λ s. TellSlots builder.new s.slots moves.now s.wires) }
    ensures slots { IfOk result (λ s. AreSlots builder.new count s.slots moves.now) }
{
    let slots = open_slots(alloc, builder, count, new_bits, old_bits)?;
    let cycle = around(alloc, builder, new_bits, old_bits, &slots, moves)?;
    close_slots(alloc, builder, new_bits, old_bits, &slots, &cycle.next)?;
    let wires = cycle.wires;
    Ok(BuiltSlots { slots, wires })
}
