ghost use Rattle.std.specs.Prelude.{◌≡◌, ◌<◌, ◌&&◌, [], IfOk, is_some, length, slice_index_or};
ghost use Rattle.net_build.specs.Bits.{AreBits};
ghost use Rattle.net_build.specs.Built.{IsBit, IsWire};
ghost use Rattle.net_build.specs.Columns.{no_wire};
ghost use Rattle.net_build.specs.Values.{Adds};
ghost use Rattle.net_crossbar.specs.Places.{AllAt};
ghost use Rattle.net_crossbar.specs.Wants.{AsksOwner, AsksRange, HaveField};

use dip_lists::{Items, Memory};
use net_build::{Builder, Wire, Wires, both};
use net_paths::{IdBlock, has_id, owns};
use std::alloc::Global;
use tl_params::Slave;

// 1 where a head is there and one of some slaves owns its address.
#[tactic(auto, using(net_build::proofs::Steps::steps))]
fn asks_owner(
    builder: &mut Builder,
    valid: Wire,
    address: Wire,
    slaves: &[Slave],
) -> Result<Wire, Memory>
    requires valid { IsBit builder.old valid }
    requires address { IsWire builder.old address }
    ensures adds { IfOk result (λ _. Adds builder.old builder.new) }
    ensures asks { IfOk result (λ w. AsksOwner builder.new slaves.now valid address w) }
{
    let owned = owns(builder, address, slaves)?;
    let wire = both(builder, valid, owned)?;
    Ok(wire)
}

// 1 where a head is there and its id is in a range.
#[tactic(auto, using(net_build::proofs::Steps::steps))]
fn asks_range(builder: &mut Builder, valid: Wire, id: Wire, block: IdBlock) -> Result<Wire, Memory>
    requires valid { IsBit builder.old valid }
    requires id { IsWire builder.old id }
    ensures adds { IfOk result (λ _. Adds builder.old builder.new) }
    ensures asks { IfOk result (λ w. AsksRange builder.new block valid id w) }
{
    let ranged = has_id(builder, id, block)?;
    let wire = both(builder, valid, ranged)?;
    Ok(wire)
}

/// For each of some heads of requests 1 where it is there and one of some slaves owns its address.
pub fn owner_wants(
    alloc: Global,
    builder: &mut Builder,
    valids: &[Wire],
    rows: &[Wires],
    slaves: &[Slave],
) -> Result<Wires, Memory>
    requires valids { AreBits builder.old valids.now × (length valids.now ≡ length rows.now) }
    requires rows { HaveField builder.old 4 rows.now }
    ensures adds { IfOk result (λ _. Adds builder.old builder.new) }
    ensures long { IfOk result (λ ws. length ws ≡ length rows.now) }
    ensures asks { IfOk result (λ ws. AllAt (λ k w. AsksOwner builder.new slaves.now
        (slice_index_or valids.now k no_wire)
        (slice_index_or (slice_index_or rows.now k []) 4 no_wire) w) ws) }
{
    let mut out: Wires = Items::new(alloc);
    for place in 0..rows.len() {
        let row = rows[place].as_slice();
        let wire = asks_owner(builder, valids[place], row[4], slaves)?;
        out.push(wire)?;
    }
    Ok(out)
}

/// For each of some heads of responses 1 where it is there and its id is in a range.
pub fn range_wants(
    alloc: Global,
    builder: &mut Builder,
    valids: &[Wire],
    rows: &[Wires],
    block: IdBlock,
) -> Result<Wires, Memory>
    requires valids { AreBits builder.old valids.now × (length valids.now ≡ length rows.now) }
    requires rows { HaveField builder.old 2 rows.now }
    ensures adds { IfOk result (λ _. Adds builder.old builder.new) }
    ensures long { IfOk result (λ ws. length ws ≡ length rows.now) }
    ensures asks { IfOk result (λ ws. AllAt (λ k w. AsksRange builder.new block
        (slice_index_or valids.now k no_wire)
        (slice_index_or (slice_index_or rows.now k []) 2 no_wire) w) ws) }
{
    let mut out: Wires = Items::new(alloc);
    for place in 0..rows.len() {
        let row = rows[place].as_slice();
        let wire = asks_range(builder, valids[place], row[2], block)?;
        out.push(wire)?;
    }
    Ok(out)
}
