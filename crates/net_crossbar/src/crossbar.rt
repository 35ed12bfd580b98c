ghost use Rattle.std.specs.Prelude.{◌≡◌, ◌<◌, IfOk, IsTrue, length, map, slice_index_or};
ghost use Rattle.dip_sets.specs.declared.ids.IdRange.{IdRange as TheRange};
ghost use Rattle.tl_params.specs.Arguments.{is_width};
ghost use Rattle.net_build.specs.Values.{Adds};
ghost use Rattle.net_paths.specs.declared.ids.IdBlock.{IdBlock as TheBlock};
ghost use Rattle.net_paths.specs.Paths.{IsIdBlock};
ghost use Rattle.net_queue.specs.Leaves.{AreWiresOf, IsLeaf};
ghost use Rattle.net_xbar.specs.Ways.{no_ids};
ghost use Rattle.net_crossbar.specs.declared.channel.Channel.TheVariants as channels;
ghost use Rattle.net_crossbar.specs.Crossbars.{AreEdgeRows, FitsCrossbar, IsBlockRange, bar_between, crossbar_machine};
ghost use Rattle.net_crossbar.specs.Crossed.{AreRequests, AreResponses};
ghost use Rattle.net_crossbar.specs.Heads as spec;
ghost use Rattle.net_crossbar.specs.Places.{AllAt};

use crate::channel::Channel;
use crate::ends::{heads, readies, valids};
use crate::requests::{Acts, build_requests};
use crate::responses::build_responses;
use crate::ways::block_of;
use dip_lists::{Items, Memory};
use dip_sets::IdRange;
use net_build::Builder;
use net_paths::IdBlock;
use net_queue::{EdgeWires, LeafWires};
use std::alloc::Global;
use tl_edge::Plan;

// The prefix of each of some ranges.
fn blocks_of(alloc: Global, ranges: &[IdRange]) -> Result<Items<IdBlock>, Memory>
    requires { AllAt (λ k (range : TheRange). IsBlockRange range) ranges.now }
    ensures long { IfOk result (λ blocks. length blocks ≡ length ranges.now) }
    ensures blocks { IfOk result
        (λ blocks. AllAt (λ k (block : TheBlock).
        IsIdBlock (slice_index_or ranges.now k no_ids) block) blocks) }
{
    let mut out: Items<IdBlock> = Items::new(alloc);
    for place in 0..ranges.len() {
        out.push(block_of(ranges[place]))?;
    }
    Ok(out)
}

// The wires of all requests between the queues of some edges.
fn requests_between(
    alloc: Global,
    builder: &mut Builder,
    round: bool,
    bytes: u32,
    plan: &Plan,
    numbers: &[u32],
    blocks: &[IdBlock],
    ins: &[EdgeWires],
    outs: &[EdgeWires],
) -> Result<Acts, Memory>
    requires bytes { IsTrue (is_width bytes) }
    requires some { 0 < length ins.now × 0 < length outs.now }
    requires ins { AreEdgeRows builder.old channels.A 7 ins.now }
    requires outs { AreEdgeRows builder.old channels.A 7 outs.now }
    requires numbers { length numbers.now ≡ length outs.now }
    requires blocks { AllAt (λ k (block : TheBlock). block.bits < 32) blocks.now }
    requires long { length blocks.now ≡ length ins.now }
    ensures adds { IfOk result (λ _. Adds builder.old builder.new) }
    ensures requests { IfOk result (λ a. AreRequests builder.new round bytes plan.now numbers.now blocks.now
        (map (spec.valid_at channels.A) ins.now) (map (spec.head_at channels.A) ins.now)
        (map (spec.ready_at channels.A) outs.now) (map (spec.head_at channels.A) outs.now) a.takes a.puts) }
{
    let valid = valids(alloc, ins, Channel::A)?;
    let rows = heads(alloc, ins, Channel::A)?;
    let ready = readies(alloc, outs, Channel::A)?;
    let likes = heads(alloc, outs, Channel::A)?;
    let like = likes.as_slice();
    let width = like[0].as_slice()[3].width;
    let acts = build_requests(
        alloc,
        builder,
        round,
        bytes,
        plan,
        numbers,
        blocks,
        valid.as_slice(),
        rows.as_slice(),
        ready.as_slice(),
        like,
        width,
    )?;
    Ok(acts)
}

// The wires of all responses between the queues of some edges.
fn responses_between(
    alloc: Global,
    builder: &mut Builder,
    round: bool,
    bytes: u32,
    blocks: &[IdBlock],
    ins: &[EdgeWires],
    outs: &[EdgeWires],
) -> Result<Acts, Memory>
    requires bytes { IsTrue (is_width bytes) }
    requires some { 0 < length outs.now }
    requires ins { AreEdgeRows builder.old channels.D 5 ins.now }
    requires outs { AreEdgeRows builder.old channels.D 5 outs.now }
    requires long { length blocks.now ≡ length ins.now }
    ensures adds { IfOk result (λ _. Adds builder.old builder.new) }
    ensures responses { IfOk result (λ a. AreResponses builder.new round bytes blocks.now
        (map (spec.valid_at channels.D) outs.now) (map (spec.head_at channels.D) outs.now)
        (map (spec.ready_at channels.D) ins.now) (map (spec.head_at channels.D) ins.now) a.takes a.puts) }
{
    let valid = valids(alloc, outs, Channel::D)?;
    let rows = heads(alloc, outs, Channel::D)?;
    let ready = readies(alloc, ins, Channel::D)?;
    let likes = heads(alloc, ins, Channel::D)?;
    let acts = build_responses(
        alloc,
        builder,
        round,
        bytes,
        blocks,
        valid.as_slice(),
        rows.as_slice(),
        ready.as_slice(),
        likes.as_slice(),
    )?;
    Ok(acts)
}

/// Builds a crossbar between the open queues of some in and out edges, of which the outs have these numbers
/// in a plan: the id of each request is moved to the range of its input, and that of a response back. It adds
/// no port and drives no earlier register.
pub fn build_crossbar(
    alloc: Global,
    builder: &mut Builder,
    round: bool,
    bytes: u32,
    plan: &Plan,
    numbers: &[u32],
    ranges: &[IdRange],
    ins: &[EdgeWires],
    outs: &[EdgeWires],
) -> Result<LeafWires, Memory>
    requires bytes { IsTrue (is_width bytes) }
    requires some { 0 < length ins.now × 0 < length outs.now }
    requires ins { AreEdgeRows builder.old channels.A 7 ins.now
        × AreEdgeRows builder.old channels.D 5 ins.now }
    requires outs { AreEdgeRows builder.old channels.A 7 outs.now
        × AreEdgeRows builder.old channels.D 5 outs.now }
    requires numbers { length numbers.now ≡ length outs.now }
    requires ranges { AllAt (λ k (range : TheRange). IsBlockRange range) ranges.now }
    requires long { length ranges.now ≡ length ins.now }
    ensures adds { IfOk result (λ _. Adds builder.old builder.new) }
    ensures wires { IfOk result (λ w. AreWiresOf builder.new ins.now outs.now w) }
    ensures leaf { IfOk result (λ w. IsLeaf builder.new ins.now outs.now w
        (crossbar_machine round (bar_between ranges.now plan.now numbers.now bytes))
        (FitsCrossbar round (bar_between ranges.now plan.now numbers.now bytes) ins.now outs.now)) }
{
    let prefixes = blocks_of(alloc, ranges)?;
    let blocks = prefixes.as_slice();
    let requests = requests_between(
        alloc, builder, round, bytes, plan, numbers, blocks, ins, outs,
    )?;
    let responses = responses_between(alloc, builder, round, bytes, blocks, ins, outs)?;
    let Acts {
        takes: take_a,
        puts: put_a,
    } = requests;
    let Acts {
        takes: take_d,
        puts: put_d,
    } = responses;
    Ok(LeafWires {
        take_a,
        put_a,
        take_d,
        put_d,
    })
}
