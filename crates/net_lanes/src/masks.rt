ghost use Rattle.std.specs.Prelude.{◌≡◌, ◌≤◌, ◌<◌, ◌%◌, ◌^◌, IfOk, IsTrue};
ghost use Rattle.tl_params.specs.Arguments.{is_width};
ghost use Rattle.tl_edge.specs.Beats.{active_mask};
ghost use Rattle.tl_edge.specs.Messages.{bytes_of};
ghost use Rattle.net_build.specs.Built.{IsWire};
ghost use Rattle.net_build.specs.Values.{Adds, Means};
ghost use Rattle.net_lanes.specs.Lanes.{AreTabled, MeansWhere, mask_where};

use crate::bits::low_bits;
use dip_lists::{Items, Memory};
use net_build::{Builder, Wire, Wires};
use net_table::read_entry;
use std::alloc::Global;
use tl_edge::active_lanes;

// The active lanes of a message of a size at an address, and none where the address isn't a multiple of it.
fn lanes_where(width: u32, size: u32, address: u64) -> u64
    requires width { IsTrue (is_width width) }
    requires size { size ≤ 8 }
    ensures value { result ≡ mask_where width size address }
    ensures small { result < 2 ^ width }
{
    if address % (1 << size) == 0 {
        active_lanes(width, size, address)
    } else {
        0
    }
}

// For each place of an address on 8 lanes the active lanes of a message of a size.
fn masks_of(alloc: Global, builder: &mut Builder, width: u32, size: u32) -> Result<Wires, Memory>
    requires width { IsTrue (is_width width) }
    requires size { size ≤ 8 }
    ensures adds { IfOk result (λ _. Adds builder.old builder.new) }
    ensures masks { IfOk result
        (λ ws. AreTabled builder.new width 8 (λ v place. mask_where width size place) ws) }
{
    let mut out: Wires = Items::new(alloc);
    for place in 0..8 {
        let mask = builder.constant(width, lanes_where(width, size, place))?;
        out.push(mask)?;
    }
    Ok(out)
}

// The active lanes of a message of a size at a place.
fn mask_at(
    alloc: Global,
    builder: &mut Builder,
    width: u32,
    size: u32,
    place: Wire,
) -> Result<Wire, Memory>
    requires width { IsTrue (is_width width) }
    requires size { size ≤ 8 }
    requires place { IsWire builder.old place × (place.width ≡ 3) }
    ensures adds { IfOk result (λ _. Adds builder.old builder.new) }
    ensures wire { IfOk result (λ w. IsWire builder.new w × (w.width ≡ width)) }
    ensures value { IfOk result
        (λ w. Means builder.new w (λ v. mask_where width size (v place.number))) }
{
    let masks = masks_of(alloc, builder, width, size)?;
    let mask = read_entry(builder, masks.as_slice(), width, place)?;
    Ok(mask)
}

// For each size the active lanes of a message at a place.
fn masks_at(alloc: Global, builder: &mut Builder, width: u32, place: Wire) -> Result<Wires, Memory>
    requires width { IsTrue (is_width width) }
    requires place { IsWire builder.old place × (place.width ≡ 3) }
    ensures adds { IfOk result (λ _. Adds builder.old builder.new) }
    ensures masks { IfOk result
        (λ ws. AreTabled builder.new width 9 (λ v size. mask_where width size (v place.number)) ws) }
{
    let mut out: Wires = Items::new(alloc);
    for size in 0..9 {
        let mask = mask_at(alloc, builder, width, size, place)?;
        out.push(mask)?;
    }
    Ok(out)
}

/// The active lanes of a message of a size at an address, on a bus of so many bytes.
#[tactic(auto, using(net_build::proofs::Steps::steps))]
pub fn active_lanes_of(
    alloc: Global,
    builder: &mut Builder,
    width: u32,
    size: Wire,
    address: Wire,
) -> Result<Wire, Memory>
    requires width { IsTrue (is_width width) }
    requires wires { IsWire builder.old size × IsWire builder.old address }
    ensures adds { IfOk result (λ _. Adds builder.old builder.new) }
    ensures wire { IfOk result (λ w. IsWire builder.new w × (w.width ≡ width)) }
    ensures value { IfOk result (λ w. MeansWhere builder.new
        (λ v. (v size.number ≤ 8) × (v address.number % bytes_of (v size.number) ≡ 0)) w
        (λ v. active_mask width (v size.number) (v address.number))) }
{
    let place = low_bits(builder, address, 3)?;
    let masks = masks_at(alloc, builder, width, place)?;
    let index = low_bits(builder, size, 4)?;
    let mask = read_entry(builder, masks.as_slice(), width, index)?;
    Ok(mask)
}
