ghost use Rattle.std.specs.Prelude.{◌≡◌, ◌<◌, ◌≤◌, ◌==◌, ◌^◌, IfOk, is_some, length, map, not};
ghost use Rattle.std.specs.List.{range_with_len};
ghost use Rattle.std.specs.Option.{unwrap_or};
ghost use Rattle.net_cells.specs.Rules.{IsWidth};
ghost use Rattle.net_build.specs.Bits.{AreBits, TellsAll, wire_values};
ghost use Rattle.net_build.specs.Built.{IsBit, IsWire};
ghost use Rattle.net_build.specs.Values.{Adds, Means, Tells};
ghost use Rattle.net_slots.specs.Slots.{first_free};

use crate::constants::constants;
use crate::types::Lowest;
use dip_lists::{Items, Memory};
use net_build::{Builder, Wire, Wires, inverse};
use std::alloc::Global;

// The numbers from 0 of so many.
fn places(alloc: Global, count: usize) -> Result<Items<u64>, Memory>
    ensures { IfOk result (λ xs. xs ≡ range_with_len 0 count) }
{
    let mut out: Items<u64> = Items::new(alloc);
    for place in 0..count {
        out.push(place as u64)?;
    }
    Ok(out)
}

// Each of some wires of one bit inverted.
fn inverses(alloc: Global, builder: &mut Builder, wires: &[Wire]) -> Result<Wires, Memory>
    requires { AreBits builder.old wires.now }
    ensures adds { IfOk result (λ _. Adds builder.old builder.new) }
    ensures bits { IfOk result (λ ws. AreBits builder.new ws) }
    ensures long { IfOk result (λ ws. length ws ≡ length wires.now) }
    ensures tells { IfOk result (λ ws. TellsAll builder.new ws
        (λ v. map (λ value. not (value == 1)) (wire_values v wires.now))) }
{
    let mut out: Wires = Items::new(alloc);
    for place in 0..wires.len() {
        let wire = inverse(builder, wires[place])?;
        out.push(wire)?;
    }
    Ok(out)
}

/// The first of some wires of one bit that isn't 1: its place in a wire of this width, in bits.
pub fn lowest_free(
    alloc: Global,
    builder: &mut Builder,
    taken: &[Wire],
    width: u32,
) -> Result<Lowest, Memory>
    requires some { 0 < length taken.now }
    requires taken { AreBits builder.old taken.now }
    requires width { IsWidth width }
    requires small { length taken.now ≤ 2 ^ width }
    ensures adds { IfOk result (λ _. Adds builder.old builder.new) }
    ensures bit { IfOk result (λ l. IsBit builder.new l.some) }
    ensures wire { IfOk result (λ l. IsWire builder.new l.place × (l.place.width ≡ width)) }
    ensures some { IfOk result (λ l. Tells builder.new l.some
        (λ v. is_some (first_free 0 (wire_values v taken.now)))) }
    ensures place { IfOk result (λ l. Means builder.new l.place
        (λ v. unwrap_or (first_free 0 (wire_values v taken.now)) 0)) }
{
    let frees = inverses(alloc, builder, taken)?;
    let some = builder.any(frees.as_slice())?;
    let numbers = places(alloc, taken.len())?;
    let values = constants(alloc, builder, width, numbers.as_slice())?;
    let place = builder.choose(frees.as_slice(), values.as_slice())?;
    Ok(Lowest { some, place })
}
