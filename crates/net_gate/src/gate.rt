ghost use Rattle.std.specs.Prelude.{◌≡◌, ℕ, ◌<◌, ◌∷◌, [], Bool, List, IfOk, length, map};
ghost use Rattle.net_cells.specs.Rules.{IsWidth};
ghost use Rattle.net_build.specs.Bits.{AreBits, AreRows, MeansAll, highs, row_picked, wire_values};
ghost use Rattle.net_build.specs.Built.{IsBit};
ghost use Rattle.net_build.specs.Values.{Adds};
ghost use Rattle.net_gate.specs.Built.{AreServing, IsRow};
ghost use Rattle.net_gate.specs.Gates.{IsGate, RestsAre};
ghost use Rattle.net_table.specs.Tables.{AreEntries};

use crate::side::{build_side, late_count};
use crate::steps::next_late;
use crate::types::Serving;
use dip_lists::{Items, Memory};
use net_build::{Builder, Wire, Wires, both};
use net_choice::{Granted, grant_one};
use net_table::{drive_registers, open_table};
use std::alloc::Global;

// The fields of the head that passes.
fn serve(
    alloc: Global,
    builder: &mut Builder,
    granted: Granted,
    rows: &[Wires],
    widths: &[u32],
) -> Result<Serving, Memory>
    requires some { 0 < length granted.grants }
    requires bits { IsBit builder.old granted.some × AreBits builder.old granted.grants }
    requires long { length rows.now ≡ length granted.grants }
    requires rows { AreRows builder.old widths.now rows.now }
    ensures adds { IfOk result (λ _. Adds builder.old builder.new) }
    ensures grants { IfOk result (λ s. s.grants ≡ granted.grants) }
    ensures valid { IfOk result (λ s. s.valid ≡ granted.some) }
    ensures serving { IfOk result (λ s. AreServing builder.new (length granted.grants) widths.now s) }
    ensures items { IfOk result (λ s. MeansAll builder.new s.items
        (λ v. row_picked (length widths.now) (highs v granted.grants) (map (wire_values v) rows.now))) }
{
    let items = builder.choose_row(granted.grants.as_slice(), rows, widths)?;
    let Granted { grants, some } = granted;
    Ok(Serving {
        grants,
        valid: some,
        items,
    })
}

/// Builds a gate with a lock: by wires that tell which of some heads are offered, whether there is room, the
/// fields of the heads, which have these widths, and how many beats follow each, in so many bits.
pub fn build_gate(
    alloc: Global,
    builder: &mut Builder,
    round: bool,
    wide: u32,
    wants: &[Wire],
    ready: Wire,
    rows: &[Wires],
    rests: &[Wire],
    widths: &[u32],
) -> Result<Serving, Memory>
    requires wide { IsWidth wide }
    requires some { 0 < length wants.now }
    requires bits { IsBit builder.old ready × AreBits builder.old wants.now }
    requires rests { AreEntries builder.old wide rests.now × (length rests.now ≡ length wants.now) }
    requires rows { AreRows builder.old widths.now rows.now × (length rows.now ≡ length wants.now) }
    ensures adds { IfOk result (λ _. Adds builder.old builder.new) }
    ensures serving { IfOk result (λ s. AreServing builder.new (length wants.now) widths.now s) }
    ensures gate { IfOk result (λ s. (rest : List ℕ → ℕ) (most : ℕ)
        → RestsAre builder.old rest most wants.now rows.now rests.now
        → IsGate builder.new round rest most wants.now ready rows.now s) }
{
    let sided = build_side(alloc, builder, round, wide, wants, ready, rests)?;
    let granted = sided.into_granted();
    let serving = serve(alloc, builder, granted, rows, widths)?;
    Ok(serving)
}

/// Builds a gate without a lock, for heads that no beat follows.
pub fn build_free_gate(
    alloc: Global,
    builder: &mut Builder,
    round: bool,
    wants: &[Wire],
    ready: Wire,
    rows: &[Wires],
    widths: &[u32],
) -> Result<Serving, Memory>
    requires some { 0 < length wants.now }
    requires bits { IsBit builder.old ready × AreBits builder.old wants.now }
    requires rows { AreRows builder.old widths.now rows.now × (length rows.now ≡ length wants.now) }
    ensures adds { IfOk result (λ _. Adds builder.old builder.new) }
    ensures serving { IfOk result (λ s. AreServing builder.new (length wants.now) widths.now s) }
    ensures gate { IfOk result (λ s. (rest : List ℕ → ℕ)
        → IsGate builder.new round rest 0 wants.now ready rows.now s) }
{
    let late = open_table(alloc, builder, late_count(round, wants.len()), 1)?;
    let granted = grant_one(alloc, builder, round, ready, late.as_slice(), wants)?;
    let next = next_late(
        alloc,
        builder,
        round,
        granted.some,
        granted.grants.as_slice(),
        late.as_slice(),
    )?;
    drive_registers(builder, late.as_slice(), next.as_slice())?;
    let serving = serve(alloc, builder, granted, rows, widths)?;
    Ok(serving)
}

// A list of one wire.
fn one(alloc: Global, wire: Wire) -> Result<Wires, Memory>
    ensures { IfOk result (λ ws. ws ≡ wire ∷ []) }
{
    let mut out: Wires = Items::new(alloc);
    out.push(wire)?;
    Ok(out)
}

/// Builds a gate of one head: it passes where it is offered and there is room. There is nothing to choose and
/// nothing to hold.
pub fn build_single_gate(
    alloc: Global,
    builder: &mut Builder,
    wants: &[Wire],
    ready: Wire,
    rows: &[Wires],
    widths: &[u32],
) -> Result<Serving, Memory>
    requires one { length wants.now ≡ 1 }
    requires bits { IsBit builder.old ready × AreBits builder.old wants.now }
    requires rows { AreRows builder.old widths.now rows.now × (length rows.now ≡ length wants.now) }
    ensures adds { IfOk result (λ _. Adds builder.old builder.new) }
    ensures serving { IfOk result (λ s. AreServing builder.new (length wants.now) widths.now s) }
    ensures gate { IfOk result (λ s. (round : Bool) (rest : List ℕ → ℕ) (most : ℕ)
        → IsGate builder.new round rest most wants.now ready rows.now s) }
{
    let items = rows[0].copy(alloc)?;
    let valid = both(builder, wants[0], ready)?;
    let grants = one(alloc, valid)?;
    Ok(Serving {
        grants,
        valid,
        items,
    })
}
