ghost use Rattle.std.specs.Prelude.{◌≡◌, ◌<◌, ◌≤◌, IfOk, IsTrue, length, slice_index_or};
ghost use Rattle.tl_params.specs.Arguments.{is_width};
ghost use Rattle.net_build.specs.Bits.{AreBits, AreRows};
ghost use Rattle.net_build.specs.Columns.{no_wire};
ghost use Rattle.net_build.specs.Values.{Adds};
ghost use Rattle.net_gate.specs.Built.{AreServing};
ghost use Rattle.net_crossbar.specs.Crossed.{AreFitted, AreGates};
ghost use Rattle.net_crossbar.specs.Heads.{IsOfLength};
ghost use Rattle.net_crossbar.specs.Places.{AllAt};
ghost use Rattle.net_crossbar.specs.Rests.{HaveOpcodes};
ghost use Rattle.net_crossbar.specs.Serving.{AreWanted};

use crate::channel::Channel;
use crate::fitted::{fit_rows, widest_row, widths_of};
use crate::gates::{build_gates, single_gates};
use crate::rests::build_rests;
use dip_lists::{Items, Memory};
use net_build::{Builder, Wire, Wires};
use net_gate::Serving;
use std::alloc::Global;

/// Rows of the same widths.
#[derive(Debug, Drop)]
pub struct Fitted {
    /// The rows.
    pub rows: Items<Wires>,
    /// The widths of each, in bits.
    pub widths: Items<u32>,
}

/// Rows of so many wires with the same widths and the values that they have.
pub fn fit_all(
    alloc: Global,
    builder: &mut Builder,
    rows: &[Wires],
    count: usize,
) -> Result<Fitted, Memory>
    requires some { 0 < length rows.now }
    requires rows { AllAt (λ k row. IsOfLength builder.old count row) rows.now }
    requires count { 3 ≤ count }
    requires op { AllAt (λ k row. (slice_index_or row 0 no_wire).width ≡ 3) rows.now }
    ensures adds { IfOk result (λ _. Adds builder.old builder.new) }
    ensures fitted { IfOk result (λ f. AreFitted builder.new count rows.now f.rows f.widths) }
{
    let like = widest_row(alloc, rows, count)?;
    let fitted = fit_rows(alloc, builder, rows, count, like.as_slice())?;
    let widths = widths_of(alloc, like.as_slice())?;
    Ok(Fitted {
        rows: fitted,
        widths,
    })
}

/// The gates of one channel, by which heads want to go where. How many beats follow a head is told only where
/// there are others that have to wait for them.
pub fn channel_gates(
    alloc: Global,
    builder: &mut Builder,
    channel: Channel,
    round: bool,
    bytes: u32,
    wants: &[Wires],
    readies: &[Wire],
    rows: &[Wires],
    widths: &[u32],
) -> Result<Items<Serving>, Memory>
    requires bytes { IsTrue (is_width bytes) }
    requires some { 0 < length rows.now }
    requires wants { AreWanted builder.old (length rows.now) wants.now }
    requires readies { AreBits builder.old readies.now × (length readies.now ≡ length wants.now) }
    requires rows { AreRows builder.old widths.now rows.now }
    requires told { HaveOpcodes builder.old rows.now }
    ensures adds { IfOk result (λ _. Adds builder.old builder.new) }
    ensures servings { IfOk result
        (λ ss. AllAt (λ k s. AreServing builder.new (length rows.now) widths.now s) ss) }
    ensures gates { IfOk result
        (λ ss. AreGates builder.new round channel bytes wants.now readies.now rows.now ss) }
{
    if rows.len() == 1 {
        return single_gates(alloc, builder, wants, readies, rows, widths);
    }
    let rests = build_rests(alloc, builder, channel, bytes, rows)?;
    let servings = build_gates(
        alloc,
        builder,
        round,
        wants,
        readies,
        rows,
        rests.as_slice(),
        widths,
    )?;
    Ok(servings)
}
