ghost use Rattle.std.specs.Prelude.{◌≡◌, ◌<◌, ◌≤◌, ◌^◌, ◌==◌, ◌&&◌, IfOk, if◌then◌else◌, length, slice_index_or};
ghost use Rattle.net_cells.specs.Rules.{IsWidth};
ghost use Rattle.net_build.specs.Bits.{MeansAll, wire_values};
ghost use Rattle.net_build.specs.Built.{IsBit, IsWire};
ghost use Rattle.net_build.specs.Values.{Adds, Means, Tells, high};
ghost use Rattle.net_table.specs.Tables.{AreEntries, entries_written};

use dip_lists::{Items, Memory};
use net_build::{Builder, Wire, Wires, both};
use std::alloc::Global;

// 1 where a wire has this value.
#[tactic(auto, using(net_build::proofs::Steps::steps, net_build::proofs::Steps::bit_made))]
fn is_at(builder: &mut Builder, index: Wire, place: u64) -> Result<Wire, Memory>
    requires index { IsWire builder.old index }
    requires small { place < 2 ^ index.width }
    ensures adds { IfOk result (λ _. Adds builder.old builder.new) }
    ensures bit { IfOk result (λ w. IsBit builder.new w) }
    ensures tells { IfOk result (λ w. Tells builder.new w (λ v. v index.number == place)) }
{
    let number = builder.constant(index.width, place)?;
    let wire = builder.eq(index, number)?;
    Ok(wire)
}

// An entry where the index has its place, else another wire.
#[tactic(auto, using(net_build::proofs::Steps::steps, crate::proofs::Indexed::read_means))]
fn read_one(
    builder: &mut Builder,
    entry: Wire,
    index: Wire,
    place: u64,
    rest: Wire,
) -> Result<Wire, Memory>
    requires wires { IsWire builder.old entry × IsWire builder.old index × IsWire builder.old rest }
    requires width { rest.width ≡ entry.width }
    requires small { place < 2 ^ index.width }
    ensures adds { IfOk result (λ _. Adds builder.old builder.new) }
    ensures wire { IfOk result (λ w. IsWire builder.new w × (w.width ≡ entry.width)) }
    ensures value { IfOk result (λ w. Means builder.new w
        (λ v. if v index.number == place then v entry.number else v rest.number)) }
{
    let here = is_at(builder, index, place)?;
    let wire = builder.mux(here, entry, rest)?;
    Ok(wire)
}

/// The entry at an index, counted from 0, and 0 where there is none. The entries have this width, in bits.
pub fn read_entry(
    builder: &mut Builder,
    entries: &[Wire],
    width: u32,
    index: Wire,
) -> Result<Wire, Memory>
    requires width { IsWidth width }
    requires entries { AreEntries builder.old width entries.now }
    requires index { IsWire builder.old index }
    requires small { length entries.now ≤ 2 ^ index.width }
    ensures adds { IfOk result (λ _. Adds builder.old builder.new) }
    ensures wire { IfOk result (λ w. IsWire builder.new w × (w.width ≡ width)) }
    ensures value { IfOk result (λ w. Means builder.new w
        (λ v. slice_index_or (wire_values v entries.now) (v index.number) 0)) }
{
    let mut out = builder.constant(width, 0)?;
    for place in 0..entries.len() {
        out = read_one(builder, entries[place], index, place as u64, out)?;
    }
    Ok(out)
}

// The item where it is entries_written at this place, else what stands there.
#[tactic(auto, using(net_build::proofs::Steps::steps, crate::proofs::Indexed::write_means))]
fn write_one(
    builder: &mut Builder,
    entry: Wire,
    write: Wire,
    index: Wire,
    item: Wire,
    place: u64,
) -> Result<Wire, Memory>
    requires wires { IsWire builder.old entry × IsWire builder.old index × IsWire builder.old item }
    requires write { IsBit builder.old write }
    requires width { entry.width ≡ item.width }
    requires small { place < 2 ^ index.width }
    ensures adds { IfOk result (λ _. Adds builder.old builder.new) }
    ensures wire { IfOk result (λ w. IsWire builder.new w × (w.width ≡ item.width)) }
    ensures value { IfOk result (λ w. Means builder.new w
        (λ v. if high v write && (v index.number == place) then v item.number else v entry.number)) }
{
    let at = is_at(builder, index, place)?;
    let here = both(builder, write, at)?;
    let wire = builder.mux(here, item, entry)?;
    Ok(wire)
}

/// The entries after a cycle in which the one at an index is entries_written, where `write` is 1.
pub fn write_entry(
    alloc: Global,
    builder: &mut Builder,
    entries: &[Wire],
    write: Wire,
    index: Wire,
    item: Wire,
) -> Result<Wires, Memory>
    requires entries { AreEntries builder.old item.width entries.now }
    requires write { IsBit builder.old write }
    requires wires { IsWire builder.old index × IsWire builder.old item }
    requires small { length entries.now ≤ 2 ^ index.width }
    ensures adds { IfOk result (λ _. Adds builder.old builder.new) }
    ensures long { IfOk result (λ ws. length ws ≡ length entries.now) }
    ensures entries { IfOk result (λ ws. AreEntries builder.new item.width ws) }
    ensures values { IfOk result (λ ws. MeansAll builder.new ws
        (λ v. entries_written (high v write) (v index.number) (v item.number) (wire_values v entries.now))) }
{
    let mut out: Wires = Items::new(alloc);
    for place in 0..entries.len() {
        let wire = write_one(builder, entries[place], write, index, item, place as u64)?;
        out.push(wire)?;
    }
    Ok(out)
}
