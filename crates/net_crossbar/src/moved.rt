ghost use Rattle.std.specs.Prelude.{◌≡◌, ◌<◌, [], IfOk, length, slice_index_or, slice_set};
ghost use Rattle.net_build.specs.Columns.{no_wire};
ghost use Rattle.net_build.specs.Values.{Adds};
ghost use Rattle.net_cells.specs.Rules.{IsWidth};
ghost use Rattle.net_paths.specs.declared.ids.IdBlock.{IdBlock as TheBlock};
ghost use Rattle.net_crossbar.specs.Heads.{IsOfLength, MovesRow, MovesRowBack};
ghost use Rattle.net_crossbar.specs.Places.{AllAt};

use dip_lists::{Items, Memory};
use net_build::{Builder, Wire, Wires};
use net_paths::{IdBlock, move_back, move_id};
use std::alloc::Global;

// A row with another wire at a place.
fn with_wire(alloc: Global, row: &Wires, place: usize, wire: Wire) -> Result<Wires, Memory>
    requires { place < length row.now }
    ensures { IfOk result (λ ws. ws ≡ slice_set row.now place wire) }
{
    let mut out = row.copy(alloc)?;
    out.set(place, wire);
    Ok(out)
}

// The fields of a request with its id moved to a range. The wire of the id is to have so many bits, if they
// suffice.
fn moved_row(
    alloc: Global,
    builder: &mut Builder,
    row: &Wires,
    block: IdBlock,
    width: u32,
) -> Result<Wires, Memory>
    requires row { IsOfLength builder.old 7 row.now }
    requires width { IsWidth width }
    requires bits { block.bits < 32 }
    ensures adds { IfOk result (λ _. Adds builder.old builder.new) }
    ensures row { IfOk result (λ ws. IsOfLength builder.new 7 ws) }
    ensures first { IfOk result (λ ws. slice_index_or ws 0 no_wire ≡ slice_index_or row.now 0 no_wire) }
    ensures moves { IfOk result (λ ws. MovesRow builder.new 3 block row.now ws) }
{
    let id = move_id(builder, row.as_slice()[3], block, width)?;
    let out = with_wire(alloc, row, 3, id)?;
    Ok(out)
}

/// The fields of each of some requests with its id moved to the range of its place.
pub fn moved_rows(
    alloc: Global,
    builder: &mut Builder,
    rows: &[Wires],
    blocks: &[IdBlock],
    width: u32,
) -> Result<Items<Wires>, Memory>
    requires rows { AllAt (λ k row. IsOfLength builder.old 7 row) rows.now }
    requires blocks { AllAt (λ k (block : TheBlock). block.bits < 32) blocks.now }
    requires long { length blocks.now ≡ length rows.now }
    requires width { IsWidth width }
    ensures adds { IfOk result (λ _. Adds builder.old builder.new) }
    ensures long { IfOk result (λ out. length out ≡ length rows.now) }
    ensures rows { IfOk result (λ out. AllAt (λ k ws. IsOfLength builder.new 7 ws) out) }
    ensures first { IfOk result (λ out. AllAt (λ k ws. slice_index_or ws 0 no_wire
        ≡ slice_index_or (slice_index_or rows.now k []) 0 no_wire) out) }
    ensures moves { IfOk result (λ out. AllAt (λ k ws. MovesRow builder.new 3
        (slice_index_or blocks.now k (record { prefix = 0; bits = 0 }))
        (slice_index_or rows.now k []) ws) out) }
{
    let mut out: Items<Wires> = Items::new(alloc);
    for place in 0..rows.len() {
        let row = moved_row(alloc, builder, &rows[place], blocks[place], width)?;
        out.push(row)?;
    }
    Ok(out)
}

/// The fields of a response with its id moved back from a range.
pub fn returned_row(
    alloc: Global,
    builder: &mut Builder,
    row: &Wires,
    block: IdBlock,
) -> Result<Wires, Memory>
    requires row { IsOfLength builder.old 5 row.now }
    ensures adds { IfOk result (λ _. Adds builder.old builder.new) }
    ensures row { IfOk result (λ ws. IsOfLength builder.new 5 ws) }
    ensures moves { IfOk result (λ ws. MovesRowBack builder.new 2 block row.now ws) }
{
    let id = move_back(builder, row.as_slice()[2], block)?;
    let out = with_wire(alloc, row, 2, id)?;
    Ok(out)
}
