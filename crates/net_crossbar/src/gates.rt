ghost use Rattle.std.specs.Prelude.{◌≡◌, ◌<◌, [], IfOk, length, slice_index_or};
ghost use Rattle.net_build.specs.Bits.{AreBits, AreRows};
ghost use Rattle.net_build.specs.Columns.{no_wire};
ghost use Rattle.net_build.specs.Values.{Adds};
ghost use Rattle.net_gate.specs.Built.{AreServing};
ghost use Rattle.net_table.specs.Tables.{AreEntries};
ghost use Rattle.net_crossbar.specs.Places.{AllAt};
ghost use Rattle.net_crossbar.specs.Serving.{AreWanted, IsServedBy, IsSingleGate};

use dip_lists::{Items, Memory};
use net_build::{Builder, Wire, Wires};
use net_gate::{Serving, build_gate, build_single_gate};
use std::alloc::Global;

// The bits in which it is told how many beats follow a head.
const REST_BITS: u32 = 8;

/// A gate for each place to which one head alone goes, in their order: by wires that tell whether it wants to
/// go there and whether there is room, and by its fields, which have these widths. There is nothing to choose
/// and nothing to hold, so it doesn't matter how many beats follow.
pub fn single_gates(
    alloc: Global,
    builder: &mut Builder,
    wants: &[Wires],
    readies: &[Wire],
    rows: &[Wires],
    widths: &[u32],
) -> Result<Items<Serving>, Memory>
    requires one { length rows.now ≡ 1 }
    requires wants { AreWanted builder.old (length rows.now) wants.now }
    requires readies { AreBits builder.old readies.now × (length readies.now ≡ length wants.now) }
    requires rows { AreRows builder.old widths.now rows.now }
    ensures adds { IfOk result (λ _. Adds builder.old builder.new) }
    ensures long { IfOk result (λ ss. length ss ≡ length wants.now) }
    ensures servings { IfOk result
        (λ ss. AllAt (λ k s. AreServing builder.new (length rows.now) widths.now s) ss) }
    ensures gates { IfOk result
        (λ ss. AllAt (λ k s. IsSingleGate builder.new rows.now
        (slice_index_or wants.now k []) (slice_index_or readies.now k no_wire) s) ss) }
{
    let mut out: Items<Serving> = Items::new(alloc);
    for place in 0..wants.len() {
        let wanted = wants[place].as_slice();
        let serving = build_single_gate(alloc, builder, wanted, readies[place], rows, widths)?;
        out.push(serving)?;
    }
    Ok(out)
}

/// A gate for each place to which heads go, in their order: by wires that tell which heads want to go there
/// and whether there is room, and by the heads' fields, which have these widths, and how many beats follow
/// each.
pub fn build_gates(
    alloc: Global,
    builder: &mut Builder,
    round: bool,
    wants: &[Wires],
    readies: &[Wire],
    rows: &[Wires],
    rests: &[Wire],
    widths: &[u32],
) -> Result<Items<Serving>, Memory>
    requires some { 0 < length rows.now }
    requires wants { AreWanted builder.old (length rows.now) wants.now }
    requires readies { AreBits builder.old readies.now × (length readies.now ≡ length wants.now) }
    requires rests { AreEntries builder.old 8 rests.now × (length rests.now ≡ length rows.now) }
    requires rows { AreRows builder.old widths.now rows.now }
    ensures adds { IfOk result (λ _. Adds builder.old builder.new) }
    ensures long { IfOk result (λ ss. length ss ≡ length wants.now) }
    ensures servings { IfOk result
        (λ ss. AllAt (λ k s. AreServing builder.new (length rows.now) widths.now s) ss) }
    ensures gates { IfOk result
        (λ ss. AllAt (λ k s. IsServedBy builder.old builder.new round rows.now rests.now
        (slice_index_or wants.now k []) (slice_index_or readies.now k no_wire) s) ss) }
{
    let mut out: Items<Serving> = Items::new(alloc);
    for place in 0..wants.len() {
        let wanted = wants[place].as_slice();
        let serving = build_gate(
            alloc,
            builder,
            round,
            REST_BITS,
            wanted,
            readies[place],
            rows,
            rests,
            widths,
        )?;
        out.push(serving)?;
    }
    Ok(out)
}
