ghost use Rattle.std.specs.Prelude.{◌≡◌, ◌≤◌, ◌<◌, ◌-◌, [], IfOk, length, slice_index_or};
ghost use Rattle.dip_sets.specs.Assignments.{BeginsAtMultiple};
ghost use Rattle.std.specs.Int.{IsPowerOfTwo};
ghost use Rattle.tl_edge.specs.Plans.{edge_at};
ghost use Rattle.net_build.specs.Bits.{AreBits};
ghost use Rattle.net_build.specs.Values.{Adds};
ghost use Rattle.net_paths.specs.Paths.{IsIdBlock};
ghost use Rattle.net_crossbar.specs.Places.{AllAt};
ghost use Rattle.net_crossbar.specs.Puts.{AskOwner, AskRange};
ghost use Rattle.net_crossbar.specs.Wants.{HaveField};

use crate::wants::{owner_wants, range_wants};
use dip_lists::{Items, Memory};
use dip_sets::IdRange;
use net_build::{Builder, Wire, Wires};
use net_paths::IdBlock;
use std::alloc::Global;
use tl_edge::Plan;

/// The prefix of a range of a power of two of ids that begins at a multiple of their number.
pub fn block_of(range: IdRange) -> IdBlock
    requires order { range.start ≤ range.end }
    requires power { IsPowerOfTwo (range.end - range.start) }
    requires aligned { BeginsAtMultiple range }
    ensures { IsIdBlock range result }
{
    let count = range.end - range.start;
    IdBlock {
        prefix: range.start / count,
        bits: count.ilog2(),
    }
}

// Which heads of requests want to go to an edge.
fn edge_wants(
    alloc: Global,
    builder: &mut Builder,
    plan: &Plan,
    edge: u32,
    valids: &[Wire],
    rows: &[Wires],
) -> Result<Wires, Memory>
    requires valids { AreBits builder.old valids.now × (length valids.now ≡ length rows.now) }
    requires rows { HaveField builder.old 4 rows.now }
    ensures adds { IfOk result (λ _. Adds builder.old builder.new) }
    ensures asks { IfOk result
        (λ ws. AskOwner builder.new valids.now rows.now (edge_at plan.now edge).slaves ws) }
{
    match plan.edges.get(edge as usize) {
        None => owner_wants(alloc, builder, valids, rows, &[]),
        Some(on) => owner_wants(alloc, builder, valids, rows, on.slaves.as_slice()),
    }
}

/// For each of some out edges of a plan which heads of requests want to go there.
pub fn output_wants(
    alloc: Global,
    builder: &mut Builder,
    plan: &Plan,
    outs: &[u32],
    valids: &[Wire],
    rows: &[Wires],
) -> Result<Items<Wires>, Memory>
    requires valids { AreBits builder.old valids.now × (length valids.now ≡ length rows.now) }
    requires rows { HaveField builder.old 4 rows.now }
    ensures adds { IfOk result (λ _. Adds builder.old builder.new) }
    ensures long { IfOk result (λ all. length all ≡ length outs.now) }
    ensures asks { IfOk result (λ all. AllAt (λ k ws. AskOwner builder.new valids.now rows.now
        (edge_at plan.now (slice_index_or outs.now k 0)).slaves ws) all) }
{
    let mut out: Items<Wires> = Items::new(alloc);
    for place in 0..outs.len() {
        let wants = edge_wants(alloc, builder, plan, outs[place], valids, rows)?;
        out.push(wants)?;
    }
    Ok(out)
}

/// For each of some ranges of ids which heads of responses want to go there.
pub fn input_wants(
    alloc: Global,
    builder: &mut Builder,
    blocks: &[IdBlock],
    valids: &[Wire],
    rows: &[Wires],
) -> Result<Items<Wires>, Memory>
    requires valids { AreBits builder.old valids.now × (length valids.now ≡ length rows.now) }
    requires rows { HaveField builder.old 2 rows.now }
    ensures adds { IfOk result (λ _. Adds builder.old builder.new) }
    ensures long { IfOk result (λ all. length all ≡ length blocks.now) }
    ensures asks { IfOk result (λ all. AllAt (λ k ws. AskRange builder.new valids.now rows.now
        (slice_index_or blocks.now k (record { prefix = 0; bits = 0 })) ws) all) }
{
    let mut out: Items<Wires> = Items::new(alloc);
    for place in 0..blocks.len() {
        let wants = range_wants(alloc, builder, valids, rows, blocks[place])?;
        out.push(wants)?;
    }
    Ok(out)
}
