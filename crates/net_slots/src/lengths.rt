ghost use Rattle.std.specs.Prelude.{◌≡◌, ℕ, ◌-◌, ◌<◌, ◌≤◌, ◌^◌, IfOk, IsTrue, map};
ghost use Rattle.std.specs.List.{range_with_len};
ghost use Rattle.tl_params.specs.Arguments.{is_width};
ghost use Rattle.tl_edge.specs.Beats.{data_beats};
ghost use Rattle.net_build.specs.Built.{IsBit, IsWire};
ghost use Rattle.net_build.specs.Values.{Adds};
ghost use Rattle.net_slots.specs.SlotWires.{FollowBeats};

use crate::constants::constants;
use dip_lists::{Items, Memory};
use net_build::{Builder, Wire};
use net_table::read_entry;
use std::alloc::Global;
use tl_edge::beats;
use tl_params::Op;

// How many of the sizes 0 to 8 a wire of this width, in bits, can tell.
fn size_count(width: u32) -> u32
    ensures few { result ≤ 9 }
    ensures within { result ≤ 2 ^ width }
    ensures all { (size : ℕ) → size ≤ 8 → size < 2 ^ width → size < result }
{
    if width >= 4 {
        return 9;
    }
    match width {
        0 => 1,
        1 => 2,
        2 => 4,
        _ => 8,
    }
}

// How many beats follow the first beat of data of each of so many sizes, from 0, on a bus of so many bytes.
fn followers(alloc: Global, count: u32, bus: u32) -> Result<Items<u64>, Memory>
    requires few { count ≤ 9 }
    requires bus { IsTrue (is_width bus) }
    ensures { IfOk result (λ xs. xs ≡ map (λ size. data_beats size bus - 1) (range_with_len 0 count)) }
{
    let mut out: Items<u64> = Items::new(alloc);
    for size in 0..count {
        let all = beats(Op::PutFull, size, bus);
        out.push(u64::from(all - 1))?;
    }
    Ok(out)
}

/// How many beats follow the first beat of a message, in 8 bits: by its size, on a bus of so many bytes,
/// where it carries data, and else none.
pub fn beats_after(
    alloc: Global,
    builder: &mut Builder,
    bus: u32,
    carries: Wire,
    size: Wire,
) -> Result<Wire, Memory>
    requires bus { IsTrue (is_width bus) }
    requires wires { IsBit builder.old carries × IsWire builder.old size }
    ensures adds { IfOk result (λ _. Adds builder.old builder.new) }
    ensures wire { IfOk result (λ w. IsWire builder.new w × (w.width ≡ 8)) }
    ensures follow { IfOk result (λ w. FollowBeats builder.new bus carries size w) }
{
    let counts = followers(alloc, size_count(size.width), bus)?;
    let table = constants(alloc, builder, 8, counts.as_slice())?;
    let rest = read_entry(builder, table.as_slice(), 8, size)?;
    let none = builder.constant(8, 0)?;
    let wire = builder.mux(carries, rest, none)?;
    Ok(wire)
}
