ghost use Rattle.std.specs.Prelude.{◌≡◌, ◌≤◌, ◌<◌, ◌⊎◌, [], IfOk, length, slice_index_or};
ghost use Rattle.net_build.specs.Values.{Adds};
ghost use Rattle.net_queue.specs.Rows.{row_widths};
ghost use Rattle.net_crossbar.specs.Heads.{IsFittedTo, IsOfLength, IsWidest};
ghost use Rattle.net_crossbar.specs.Places.{AllAt};

use dip_lists::{Items, Memory};
use net_build::{Builder, Wire, Wires};
use net_queue::fit_row;
use std::alloc::Global;

// Which of two wires is at least as wide as the other: the first, or else the second.
fn wider(one: Wire, other: Wire) -> Wire
    ensures which { (result ≡ one) ⊎ (result ≡ other) }
    ensures first { one.width ≤ result.width }
    ensures second { other.width ≤ result.width }
{
    if one.width < other.width { other } else { one }
}

// The widest wire at a place of some rows.
fn widest_at(rows: &[Wires], place: usize) -> Wire
    requires some { 0 < length rows.now }
    requires long { AllAt (λ k row. place < length row) rows.now }
    ensures { IsWidest rows.now place result }
{
    let mut widest = rows[0].as_slice()[place];
    for at in 0..rows.len() {
        let row = rows[at].as_slice();
        widest = wider(widest, row[place]);
    }
    widest
}

/// For each place of some rows of so many wires the widest wire there.
pub fn widest_row(alloc: Global, rows: &[Wires], count: usize) -> Result<Wires, Memory>
    requires some { 0 < length rows.now }
    requires long { AllAt (λ k row. length row ≡ count) rows.now }
    ensures long { IfOk result (λ ws. length ws ≡ count) }
    ensures widest { IfOk result (λ ws. AllAt (λ place w. IsWidest rows.now place w) ws) }
{
    let mut out: Wires = Items::new(alloc);
    for place in 0..count {
        out.push(widest_at(rows, place))?;
    }
    Ok(out)
}

/// Each of some rows of so many wires with the widths of the widest wires at each place, and the same values.
pub fn fit_rows(
    alloc: Global,
    builder: &mut Builder,
    rows: &[Wires],
    count: usize,
    like: &[Wire],
) -> Result<Items<Wires>, Memory>
    requires rows { AllAt (λ k row. IsOfLength builder.old count row) rows.now }
    requires long { length like.now ≡ count }
    requires widest { AllAt (λ place w. IsWidest rows.now place w) like.now }
    ensures adds { IfOk result (λ _. Adds builder.old builder.new) }
    ensures long { IfOk result (λ out. length out ≡ length rows.now) }
    ensures fitted { IfOk result
        (λ out. AllAt (λ k ws. IsFittedTo builder.new like.now (slice_index_or rows.now k []) ws) out) }
{
    let mut out: Items<Wires> = Items::new(alloc);
    for place in 0..rows.len() {
        let row = rows[place].as_slice();
        let fitted = fit_row(alloc, builder, row, like)?;
        out.push(fitted)?;
    }
    Ok(out)
}

/// The widths of some wires.
pub fn widths_of(alloc: Global, wires: &[Wire]) -> Result<Items<u32>, Memory>
    ensures { IfOk result (λ widths. widths ≡ row_widths wires.now) }
{
    let mut out: Items<u32> = Items::new(alloc);
    for place in 0..wires.len() {
        out.push(wires[place].width)?;
    }
    Ok(out)
}
