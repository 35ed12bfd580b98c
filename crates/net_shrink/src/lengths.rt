ghost use Rattle.std.specs.Prelude.{◌≡◌, IfOk, IsTrue};
ghost use Rattle.tl_params.specs.Arguments.{is_width};
ghost use Rattle.net_build.specs.Built.{IsBit, IsWire};
ghost use Rattle.net_build.specs.Values.{Adds};
ghost use Rattle.net_slots.specs.SlotWires.{IsSized};
ghost use Rattle.net_shrink.specs.Between.{FollowsRequest, FollowsResponse, IsAnswering};

use crate::types::Answering;
use dip_lists::Memory;
use net_build::{Builder, Wire, both};
use net_slots::{beats_after, count_left};
use std::alloc::Global;

// How many beats follow the first one of a request, by its opcode and size, on a bus of so many bytes: the
// opcodes below 4 are those of requests with data.
pub(crate) fn rest_of_request(
    alloc: Global,
    builder: &mut Builder,
    bus: u32,
    op: Wire,
    size: Wire,
) -> Result<Wire, Memory>
    requires bus { IsTrue (is_width bus) }
    requires op { IsSized builder.old 3 op }
    requires size { IsWire builder.old size }
    ensures adds { IfOk result (λ _. Adds builder.old builder.new) }
    ensures wire { IfOk result (λ w. IsSized builder.new 8 w) }
    ensures follows { IfOk result (λ w. FollowsRequest builder.new bus op size w) }
{
    let limit = builder.constant(3, 4)?;
    let carries = builder.less(op, limit)?;
    let rest = beats_after(alloc, builder, bus, carries, size)?;
    Ok(rest)
}

// How many beats follow the first one of a response: the opcode 1 is that of a response with data.
fn rest_of_response(
    alloc: Global,
    builder: &mut Builder,
    bus: u32,
    op: Wire,
    size: Wire,
) -> Result<Wire, Memory>
    requires bus { IsTrue (is_width bus) }
    requires op { IsSized builder.old 3 op }
    requires size { IsWire builder.old size }
    ensures adds { IfOk result (λ _. Adds builder.old builder.new) }
    ensures wire { IfOk result (λ w. IsSized builder.new 8 w) }
    ensures follows { IfOk result (λ w. FollowsResponse builder.new bus op size w) }
{
    let code = builder.constant(3, 1)?;
    let carries = builder.eq(op, code)?;
    let rest = beats_after(alloc, builder, bus, carries, size)?;
    Ok(rest)
}

// What becomes of a response whose head is there where `valid` is 1, with room where `ready` is.
#[tactic(auto, using(net_build::proofs::Steps::steps))]
pub(crate) fn answer(
    alloc: Global,
    builder: &mut Builder,
    bus: u32,
    valid: Wire,
    ready: Wire,
    op: Wire,
    size: Wire,
) -> Result<Answering, Memory>
    requires bus { IsTrue (is_width bus) }
    requires bits { IsBit builder.old valid × IsBit builder.old ready }
    requires op { IsSized builder.old 3 op }
    requires size { IsWire builder.old size }
    ensures adds { IfOk result (λ _. Adds builder.old builder.new) }
    ensures bits { IfOk result (λ a. IsBit builder.new a.goes × IsBit builder.new a.frees) }
    ensures answering { IfOk result (λ a. IsAnswering builder.new bus valid ready op size a) }
{
    let goes = both(builder, valid, ready)?;
    let rest = rest_of_response(alloc, builder, bus, op, size)?;
    let counter = count_left(builder, goes, rest)?;
    let frees = both(builder, goes, counter.ends)?;
    Ok(Answering {
        goes,
        frees,
        left: counter.left,
        rest,
    })
}
