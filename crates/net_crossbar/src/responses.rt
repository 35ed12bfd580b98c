ghost use Rattle.std.specs.Prelude.{◌≡◌, ◌<◌, IfOk, IsTrue, length, slice_index_or};
ghost use Rattle.tl_params.specs.Arguments.{is_width};
ghost use Rattle.net_build.specs.Bits.{AreBits};
ghost use Rattle.net_build.specs.Columns.{no_wire};
ghost use Rattle.net_build.specs.Values.{Adds};
ghost use Rattle.net_gate.specs.declared.types.Serving.{Serving as TheServing};
ghost use Rattle.net_crossbar.specs.Crossed.{AreResponses, ResponsesGo};
ghost use Rattle.net_crossbar.specs.Heads.{IsOfLength};
ghost use Rattle.net_crossbar.specs.Places.{AllAt};
ghost use Rattle.net_crossbar.specs.Puts.{IsServedRow};
ghost use Rattle.net_crossbar.specs.Serving.{GrantEach};

use crate::channel::Channel;
use crate::channels::{channel_gates, fit_all};
use crate::puts::put_responses;
use crate::requests::Acts;
use crate::takes::build_takes;
use crate::ways::input_wants;
use dip_lists::Memory;
use net_build::{Builder, Wire, Wires};
use net_gate::Serving;
use net_paths::IdBlock;
use std::alloc::Global;

// What gates of responses take and put.
fn response_acts(
    alloc: Global,
    builder: &mut Builder,
    servings: &[Serving],
    count: usize,
    blocks: &[IdBlock],
    likes: &[Wires],
) -> Result<Acts, Memory>
    requires grants { GrantEach builder.old count servings.now }
    requires served { AllAt (λ k (s : TheServing). IsServedRow builder.old 5 s) servings.now }
    requires likes { AllAt (λ k row. IsOfLength builder.old 5 row) likes.now }
    requires long { length likes.now ≡ length servings.now }
    requires blocks { length blocks.now ≡ length servings.now }
    ensures adds { IfOk result (λ _. Adds builder.old builder.new) }
    ensures acts { IfOk result
        (λ a. ResponsesGo builder.new servings.now count blocks.now likes.now a.takes a.puts) }
{
    let takes = build_takes(alloc, builder, servings, count)?;
    let puts = put_responses(alloc, builder, servings, blocks, likes)?;
    Ok(Acts { takes, puts })
}

/// Builds the wires of all responses: by the heads of all outputs, the ranges of ids of the inputs, the room
/// at them, and the rows of their queues.
pub fn build_responses(
    alloc: Global,
    builder: &mut Builder,
    round: bool,
    bytes: u32,
    blocks: &[IdBlock],
    valids: &[Wire],
    heads: &[Wires],
    readies: &[Wire],
    likes: &[Wires],
) -> Result<Acts, Memory>
    requires bytes { IsTrue (is_width bytes) }
    requires some { 0 < length heads.now }
    requires heads { AllAt (λ k row. IsOfLength builder.old 5 row) heads.now }
    requires op { AllAt (λ k row. (slice_index_or row 0 no_wire).width ≡ 3) heads.now }
    requires valids { AreBits builder.old valids.now × (length valids.now ≡ length heads.now) }
    requires readies { AreBits builder.old readies.now × (length readies.now ≡ length blocks.now) }
    requires likes { AllAt (λ k row. IsOfLength builder.old 5 row) likes.now }
    requires likes_long { length likes.now ≡ length blocks.now }
    ensures adds { IfOk result (λ _. Adds builder.old builder.new) }
    ensures responses { IfOk result (λ a. AreResponses builder.new round bytes blocks.now valids.now heads.now
        readies.now likes.now a.takes a.puts) }
{
    let fitted = fit_all(alloc, builder, heads, 5)?;
    let wants = input_wants(alloc, builder, blocks, valids, heads)?;
    let servings = channel_gates(
        alloc,
        builder,
        Channel::D,
        round,
        bytes,
        wants.as_slice(),
        readies,
        fitted.rows.as_slice(),
        fitted.widths.as_slice(),
    )?;
    let acts = response_acts(
        alloc,
        builder,
        servings.as_slice(),
        heads.len(),
        blocks,
        likes,
    )?;
    Ok(acts)
}
