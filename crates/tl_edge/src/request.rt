ghost use Rattle.std.specs.Prelude.{◌≡◌, ◌≤◌, ◌<◌, IsTrue, IfOk};
ghost use Rattle.tl_params.specs.Arguments.{is_width};
ghost use Rattle.tl_edge.specs.Beats as spec;
ghost use Rattle.tl_edge.specs.Messages as messages;

use crate::lanes::{Lanes, data_beats, on_bits, on_bytes, part};
use crate::message::{has_data, has_flags};
use crate::{ABeat, ABeats, Request};
use dip_lists::{Items, Memory};
use std::alloc::Global;
use tl_params::Op;

/// How many beats a request of a size takes on a bus of `width` bytes: one without data, and else as many as
/// its data needs.
pub fn beats(op: Op, size: u32, width: u32) -> u32
    requires size { size ≤ 8 }
    requires width { IsTrue (is_width width) }
    ensures { result ≡ spec.request_beats op size width }
{
    if has_data(op) {
        data_beats(size, width)
    } else {
        1
    }
}

// The lanes that one beat of a request marks.
fn mask_of(width: u32, request: &Request, number: u32, lanes: Lanes) -> u64
    requires width { IsTrue (is_width width) }
    requires request { messages.IsRequest request.now }
    requires number { number < spec.request_beats request.now.op request.now.size width }
    requires first { lanes.first ≡ spec.first_lane width request.now.size request.now.address }
    requires count { lanes.count ≡ spec.lane_count width request.now.size }
    ensures { result ≡ spec.on_bits lanes.first (spec.part width number (spec.flags_of request.now)) }
{
    if has_flags(request.op) {
        on_bits(lanes.first, part(request.mask.as_slice(), width, number))
    } else {
        lanes.mask()
    }
}

/// The beat of a request with a number, from 0, on a bus of `width` bytes.
pub fn a_beat(width: u32, request: &Request, number: u32) -> ABeat
    requires width { IsTrue (is_width width) }
    requires request { messages.IsRequest request.now }
    requires number { number < spec.request_beats request.now.op request.now.size width }
    ensures { result ≡ spec.a_beat width request.now number }
{
    let lanes = Lanes::of(width, request.size, request.address);
    ABeat {
        op: request.op,
        param: request.param,
        size: request.size,
        source: request.source,
        address: request.address,
        mask: mask_of(width, request, number, lanes),
        payload: on_bytes(lanes.first, part(request.payload.as_slice(), width, number)),
    }
}

/// The beats of a request on a bus of `width` bytes.
pub fn a_beats(alloc: Global, width: u32, request: &Request) -> Result<ABeats, Memory>
    requires width { IsTrue (is_width width) }
    requires request { messages.IsRequest request.now }
    ensures { IfOk result (λ list. list ≡ spec.beats_of_request width request.now) }
{
    let mut list = Items::new(alloc);
    for number in 0..beats(request.op, request.size, width) {
        list.push(a_beat(width, request, number))?;
    }
    Ok(list)
}
