ghost use Rattle.std.specs.Prelude.{◌≡◌, ◌≤◌, ◌<◌, IsTrue, IfOk};
ghost use Rattle.tl_params.specs.Arguments.{is_width};
ghost use Rattle.tl_edge.specs.Beats as spec;
ghost use Rattle.tl_edge.specs.Messages as messages;

use crate::lanes::{Lanes, data_beats, on_bytes, part};
use crate::message::brings_data;
use crate::{DBeat, DBeats, Request, Response};
use dip_lists::{Items, Memory};
use std::alloc::Global;
use tl_params::Ack;

/// How many beats a response of a size takes on a bus of `width` bytes: one without data, and else as many as
/// its data needs.
pub fn response_beats(op: Ack, size: u32, width: u32) -> u32
    requires size { size ≤ 8 }
    requires width { IsTrue (is_width width) }
    ensures { result ≡ spec.response_beats op size width }
{
    if brings_data(op) {
        data_beats(size, width)
    } else {
        1
    }
}

// The data of one beat of a response that isn't denied.
fn payload_of(width: u32, request: &Request, response: &Response, number: u32) -> u64
    requires width { IsTrue (is_width width) }
    requires request { messages.IsRequest request.now }
    requires response { messages.RespondsTo request.now response.now }
    requires number { number < spec.response_beats response.now.op response.now.size width }
    ensures { result ≡
        spec.data_on_lanes width response.now.size request.now.address number response.now.payload }
{
    let lanes = Lanes::of(width, response.size, request.address);
    on_bytes(
        lanes.first,
        part(response.payload.as_slice(), width, number),
    )
}

/// The beat of a response to a request with a number, from 0, on a bus of `width` bytes; the data of a
/// denied one stays behind.
pub fn d_beat(width: u32, request: &Request, response: &Response, number: u32) -> DBeat
    requires width { IsTrue (is_width width) }
    requires request { messages.IsRequest request.now }
    requires response { messages.RespondsTo request.now response.now }
    requires number { number < spec.response_beats response.now.op response.now.size width }
    ensures { result ≡ spec.d_beat width request.now.address response.now number }
{
    let payload = if response.denied {
        0
    } else {
        payload_of(width, request, response, number)
    };
    DBeat {
        op: response.op,
        size: response.size,
        source: response.source,
        denied: response.denied,
        payload,
    }
}

/// The beats of a response to a request on a bus of `width` bytes; the data of a denied one stays behind.
pub fn d_beats(
    alloc: Global,
    width: u32,
    request: &Request,
    response: &Response,
) -> Result<DBeats, Memory>
    requires width { IsTrue (is_width width) }
    requires request { messages.IsRequest request.now }
    requires response { messages.RespondsTo request.now response.now }
    ensures { IfOk result (λ list. list ≡ spec.beats_of_response width request.now.address response.now) }
{
    let mut list = Items::new(alloc);
    for number in 0..response_beats(response.op, response.size, width) {
        list.push(d_beat(width, request, response, number))?;
    }
    Ok(list)
}
