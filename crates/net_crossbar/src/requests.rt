ghost use Rattle.std.specs.Prelude.{◌≡◌, ◌<◌, IfOk, IsTrue, length, slice_index_or};
ghost use Rattle.tl_params.specs.Arguments.{is_width};
ghost use Rattle.net_build.specs.Bits.{AreBits};
ghost use Rattle.net_build.specs.Columns.{no_wire};
ghost use Rattle.net_build.specs.Values.{Adds};
ghost use Rattle.net_cells.specs.Rules.{IsWidth};
ghost use Rattle.net_gate.specs.declared.types.Serving.{Serving as TheServing};
ghost use Rattle.net_paths.specs.declared.ids.IdBlock.{IdBlock as TheBlock};
ghost use Rattle.net_crossbar.specs.Crossed.{AreRequestRows, AreRequests, RequestsGo};
ghost use Rattle.net_crossbar.specs.Heads.{IsOfLength};
ghost use Rattle.net_crossbar.specs.Places.{AllAt};
ghost use Rattle.net_crossbar.specs.Puts.{IsServedRow};
ghost use Rattle.net_crossbar.specs.Serving.{GrantEach};

use crate::channel::Channel;
use crate::channels::{Fitted, channel_gates, fit_all};
use crate::moved::moved_rows;
use crate::puts::put_requests;
use crate::takes::build_takes;
use crate::ways::output_wants;
use dip_lists::Memory;
use net_build::{Builder, Wire, Wires};
use net_gate::Serving;
use net_paths::IdBlock;
use net_queue::Puts;
use std::alloc::Global;
use tl_edge::Plan;

/// What the gates of one channel take and put.
#[derive(Debug, Drop)]
pub struct Acts {
    /// For each head 1 where it is taken.
    pub takes: Wires,
    /// For each gate what is put.
    pub puts: Puts,
}

// The fields of all heads with their ids moved, in rows of the same widths.
fn request_rows(
    alloc: Global,
    builder: &mut Builder,
    heads: &[Wires],
    blocks: &[IdBlock],
    width: u32,
) -> Result<Fitted, Memory>
    requires some { 0 < length heads.now }
    requires rows { AllAt (λ k row. IsOfLength builder.old 7 row) heads.now }
    requires op { AllAt (λ k row. (slice_index_or row 0 no_wire).width ≡ 3) heads.now }
    requires blocks { AllAt (λ k (block : TheBlock). block.bits < 32) blocks.now }
    requires long { length blocks.now ≡ length heads.now }
    requires width { IsWidth width }
    ensures adds { IfOk result (λ _. Adds builder.old builder.new) }
    ensures rows { IfOk result (λ f. AreRequestRows builder.new blocks.now heads.now f.rows f.widths) }
{
    let moved = moved_rows(alloc, builder, heads, blocks, width)?;
    let fitted = fit_all(alloc, builder, moved.as_slice(), 7)?;
    Ok(fitted)
}

// What gates of requests take and put.
fn request_acts(
    alloc: Global,
    builder: &mut Builder,
    servings: &[Serving],
    count: usize,
    likes: &[Wires],
) -> Result<Acts, Memory>
    requires grants { GrantEach builder.old count servings.now }
    requires served { AllAt (λ k (s : TheServing). IsServedRow builder.old 7 s) servings.now }
    requires likes { AllAt (λ k row. IsOfLength builder.old 7 row) likes.now }
    requires long { length likes.now ≡ length servings.now }
    ensures adds { IfOk result (λ _. Adds builder.old builder.new) }
    ensures acts { IfOk result (λ a. RequestsGo builder.new servings.now count likes.now a.takes a.puts) }
{
    let takes = build_takes(alloc, builder, servings, count)?;
    let puts = put_requests(alloc, builder, servings, likes)?;
    Ok(Acts { takes, puts })
}

/// Builds the wires of all requests: by the heads of all inputs, the room at all outputs, whose edges have
/// these numbers in a plan, and the rows of the outputs' queues.
pub fn build_requests(
    alloc: Global,
    builder: &mut Builder,
    round: bool,
    bytes: u32,
    plan: &Plan,
    numbers: &[u32],
    blocks: &[IdBlock],
    valids: &[Wire],
    heads: &[Wires],
    readies: &[Wire],
    likes: &[Wires],
    width: u32,
) -> Result<Acts, Memory>
    requires bytes { IsTrue (is_width bytes) }
    requires some { 0 < length heads.now }
    requires heads { AllAt (λ k row. IsOfLength builder.old 7 row) heads.now }
    requires op { AllAt (λ k row. (slice_index_or row 0 no_wire).width ≡ 3) heads.now }
    requires blocks { AllAt (λ k (block : TheBlock). block.bits < 32) blocks.now }
    requires blocks_long { length blocks.now ≡ length heads.now }
    requires valids { AreBits builder.old valids.now × (length valids.now ≡ length heads.now) }
    requires readies { AreBits builder.old readies.now × (length readies.now ≡ length numbers.now) }
    requires likes { AllAt (λ k row. IsOfLength builder.old 7 row) likes.now }
    requires likes_long { length likes.now ≡ length numbers.now }
    requires width { IsWidth width }
    ensures adds { IfOk result (λ _. Adds builder.old builder.new) }
    ensures requests { IfOk result (λ a. AreRequests builder.new round bytes plan.now numbers.now blocks.now
        valids.now heads.now readies.now likes.now a.takes a.puts) }
{
    let fitted = request_rows(alloc, builder, heads, blocks, width)?;
    let wants = output_wants(alloc, builder, plan, numbers, valids, heads)?;
    let servings = channel_gates(
        alloc,
        builder,
        Channel::A,
        round,
        bytes,
        wants.as_slice(),
        readies,
        fitted.rows.as_slice(),
        fitted.widths.as_slice(),
    )?;
    let acts = request_acts(alloc, builder, servings.as_slice(), heads.len(), likes)?;
    Ok(acts)
}
