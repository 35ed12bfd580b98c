ghost use Rattle.std.specs.Prelude.{IsTrue};
ghost use Rattle.tl_edge.specs.Messages as messages;
ghost use Rattle.tl_params.specs.Arguments as arguments;

use crate::messages::{Fields, may_be_sent, request_of, response_to};
use crate::words::{number, numbers, op_of, say, say_number, say_whether};
use dip_lists::Memory;
use std::alloc::Global;
use std::fmt::Write;
use tl_edge::{ABeat, DBeat, Request, Response, a_beats, beats, d_beats};
use tl_params::is_width;

/// How many beats a request of an operation and a size takes on a bus: the width, the operation and the size.
pub fn count(rest: &str, text: &mut String) -> Result<(), Memory> {
    let (width, rest) = rest.split_once(' ').unwrap_or((rest, ""));
    let (op, size) = rest.split_once(' ').unwrap_or((rest, ""));
    let width = number(width).min(1000) as u32;
    let size = number(size).min(8) as u32;
    if !is_width(width) {
        return say(text, "no width");
    }
    say_number(text, u64::from(beats(op_of(op), size, width)))
}

/// A number, as the width of a bus, and the fields of a request: the operation, its size, source and
/// address, its flags and the first of its bytes.
pub fn fields_of(alloc: Global, rest: &str) -> Result<Option<(u32, Fields)>, Memory> {
    let (width, rest) = rest.split_once(' ').unwrap_or((rest, ""));
    let (op, rest) = rest.split_once(' ').unwrap_or((rest, ""));
    let numbers = numbers(alloc, rest)?;
    let [size, source, address, flags, first] = numbers.as_slice() else {
        return Ok(None);
    };
    let fields = Fields {
        op: op_of(op),
        size: (*size).min(8) as u32,
        source: (*source).min(1000) as u32,
        address: *address,
        flags: *flags,
        first: *first,
    };
    Ok(Some((number(width).min(1000) as u32, fields)))
}

// Whether a beat has the control fields of a request.
fn is_of(beat: &ABeat, request: &Request) -> bool {
    beat.op == request.op
        && beat.param == request.param
        && beat.size == request.size
        && beat.source == request.source
        && beat.address == request.address
}

// Adds the masks and data of a request's beats to an answer, and whether all have its control fields.
fn add_sent(text: &mut String, sent: &[ABeat], request: &Request) -> Result<(), Memory> {
    say_whether(text, sent.iter().all(|beat| is_of(beat, request)))?;
    say_number(text, sent.len() as u64)?;
    for beat in sent.iter().take(8) {
        write!(text, " {:x}/{:x}", beat.mask, beat.payload)?;
    }
    Ok(())
}

// The beats of a request on a bus.
fn sent_on(alloc: Global, width: u32, request: &Request, text: &mut String) -> Result<(), Memory>
    requires width { IsTrue (arguments.is_width width) }
    requires request { messages.IsRequest request.now }
{
    let sent = a_beats(alloc, width, request)?;
    add_sent(text, sent.as_slice(), request)
}

/// The beats of a request: the width of the bus and the fields of the request.
pub fn sent(alloc: Global, rest: &str, text: &mut String) -> Result<(), Memory> {
    let Some((width, fields)) = fields_of(alloc, rest)? else {
        return say(text, "no fields");
    };
    let request = request_of(alloc, &fields)?;
    if !is_width(width) || !may_be_sent(&request) {
        return say(text, "no request");
    }
    sent_on(alloc, width, &request, text)
}

// Whether a beat has the control fields of a response.
fn is_back(beat: &DBeat, response: &Response) -> bool {
    beat.op == response.op
        && beat.size == response.size
        && beat.source == response.source
        && beat.denied == response.denied
}

// Adds the data of a response's beats to an answer, and whether all have its control fields.
fn add_back(text: &mut String, back: &[DBeat], response: &Response) -> Result<(), Memory> {
    say_whether(text, back.iter().all(|beat| is_back(beat, response)))?;
    say_number(text, back.len() as u64)?;
    for beat in back.iter().take(8) {
        say_number(text, beat.payload)?;
    }
    Ok(())
}

// The beats of the response to a request on a bus, denied where the request has no flag.
fn back_on(
    alloc: Global,
    width: u32,
    request: &Request,
    fields: &Fields,
    text: &mut String,
) -> Result<(), Memory>
    requires width { IsTrue (arguments.is_width width) }
    requires request { messages.IsRequest request.now }
{
    let Some(response) = response_to(alloc, request, fields.flags == 0, fields.first)? else {
        return say(text, "no response");
    };
    let back = d_beats(alloc, width, request, &response)?;
    add_back(text, back.as_slice(), &response)
}

/// The beats of the response to a request: the width of the bus and the fields of the request, and the
/// first byte of the response, which is denied where the flags are 0.
pub fn back(alloc: Global, rest: &str, text: &mut String) -> Result<(), Memory> {
    let Some((width, fields)) = fields_of(alloc, rest)? else {
        return say(text, "no such case");
    };
    let request = request_of(alloc, &fields)?;
    if !is_width(width) || !may_be_sent(&request) {
        return say(text, "no request");
    }
    back_on(alloc, width, &request, &fields, text)
}
