ghost use Rattle.std.specs.Prelude.{◌%◌, ◌≡◌, ◌≤◌, IsTrue};
ghost use Rattle.tl_edge.specs.Messages as messages;
ghost use Rattle.tl_params.specs.Arguments as arguments;

use crate::beats::fields_of;
use crate::messages::{may_be_sent, request_of, response_to};
use crate::words::{number, numbers, say, say_number};
use dip_lists::Memory;
use std::alloc::Global;
use tl_edge::{
    Bundle, Request, Response, a_beat, a_fields, a_widths, active_lanes, beats, d_beat, d_fields,
    d_widths, response_beats,
};
use tl_params::is_width;

// Adds the fields of the last beat of a request to an answer.
fn add_last(width: u32, request: &Request, text: &mut String) -> Result<(), Memory>
    requires width { IsTrue (arguments.is_width width) }
    requires request { messages.IsRequest request.now }
{
    let count = beats(request.op, request.size, width);
    if count == 0 {
        return say(text, "no beat");
    }
    for field in a_fields(a_beat(width, request, count - 1)) {
        say_number(text, field)?;
    }
    Ok(())
}

// Adds the fields of the last beat of a response to an answer.
fn add_last_back(
    width: u32,
    request: &Request,
    response: &Response,
    text: &mut String,
) -> Result<(), Memory>
    requires width { IsTrue (arguments.is_width width) }
    requires request { messages.IsRequest request.now }
    requires response { messages.RespondsTo request.now response.now }
{
    let count = response_beats(response.op, response.size, width);
    if count == 0 {
        return say(text, "no beat");
    }
    for field in d_fields(d_beat(width, request, response, count - 1)) {
        say_number(text, field)?;
    }
    Ok(())
}

/// The fields of the last beat of a request: the width of the bus and the fields of the request.
pub fn down(alloc: Global, rest: &str, text: &mut String) -> Result<(), Memory> {
    let Some((width, fields)) = fields_of(alloc, rest)? else {
        return say(text, "no fields");
    };
    let request = request_of(alloc, &fields)?;
    if !is_width(width) || !may_be_sent(&request) {
        return say(text, "no request");
    }
    add_last(width, &request, text)
}

/// The fields of the last beat of the response to a request, which is denied where the flags are 0: the
/// width of the bus and the fields of the request, and the first byte of the response.
pub fn up(alloc: Global, rest: &str, text: &mut String) -> Result<(), Memory> {
    let Some((width, fields)) = fields_of(alloc, rest)? else {
        return say(text, "no fields");
    };
    let request = request_of(alloc, &fields)?;
    if !is_width(width) || !may_be_sent(&request) {
        return say(text, "no request");
    }
    let Some(response) = response_to(alloc, &request, fields.flags == 0, fields.first)? else {
        return say(text, "no response");
    };
    add_last_back(width, &request, &response, text)
}

/// The bits of the fields of both channels: the bits of an address, the bytes of the bus, the bits of an
/// id and those of a size.
pub fn bits(alloc: Global, rest: &str, text: &mut String) -> Result<(), Memory> {
    let numbers = numbers(alloc, rest)?;
    let [address, data, source, size] = numbers.as_slice() else {
        return say(text, "not four numbers");
    };
    let bundle = Bundle {
        address_bits: (*address).min(64) as u32,
        data_bytes: (*data).min(8) as u32,
        source_bits: (*source).min(64) as u32,
        size_bits: (*size).min(64) as u32,
    };
    for bits in a_widths(bundle) {
        say_number(text, u64::from(bits))?;
    }
    for bits in d_widths(bundle) {
        say_number(text, u64::from(bits))?;
    }
    Ok(())
}

// Whether an address is a multiple of the bytes of a size.
fn is_aligned(size: u32, address: u64) -> bool
    requires { size ≤ 8 }
    ensures { IsTrue result → address % messages.bytes_of size ≡ 0 }
{
    address % (1 << size) == 0
}

// The active lanes of a message.
fn lanes(width: u32, size: u32, address: u64, text: &mut String) -> Result<(), Memory>
    requires { size ≤ 8 }
{
    if !is_width(width) || !is_aligned(size, address) {
        return say(text, "no lanes");
    }
    say_number(text, active_lanes(width, size, address))
}

/// The mask of the active lanes: the width of the bus, a size and an address.
pub fn active(rest: &str, text: &mut String) -> Result<(), Memory> {
    let (width, rest) = rest.split_once(' ').unwrap_or((rest, ""));
    let (size, address) = rest.split_once(' ').unwrap_or((rest, ""));
    let width = number(width).min(1000) as u32;
    let size = number(size).min(8) as u32;
    lanes(width, size, number(address), text)
}
