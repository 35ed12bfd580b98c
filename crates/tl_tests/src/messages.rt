ghost use Rattle.std.specs.Prelude.{◌≡◌, ◌≤◌, cond, IsTrue, IfOk, IfSome};
ghost use Rattle.tl_edge.specs.Messages as messages;

use dip_lists::{Bytes, Items, Memory};
use std::alloc::Global;
use tl_edge::{Flags, Request, Response, ack_of, brings_data, has_data, has_flags};
use tl_params::{Ack, Op};

// The number of bytes of a size.
fn bytes_of(size: u32) -> usize
    requires { size ≤ 8 }
    ensures { result ≡ messages.bytes_of size }
{
    1 << size
}

// How many flags a request of a size has.
fn flags_due(op: Op, size: u32) -> usize
    requires { size ≤ 8 }
    ensures { result ≡ cond (messages.has_flags op) (messages.bytes_of size) 0 }
{
    if has_flags(op) { bytes_of(size) } else { 0 }
}

// How many bytes a request of a size has.
fn bytes_due(op: Op, size: u32) -> usize
    requires { size ≤ 8 }
    ensures { result ≡ cond (messages.has_data op) (messages.bytes_of size) 0 }
{
    if has_data(op) { bytes_of(size) } else { 0 }
}

// How many bytes a response of a size has.
fn bytes_back(op: Ack, size: u32) -> usize
    requires { size ≤ 8 }
    ensures { result ≡ cond (messages.brings_data op) (messages.bytes_of size) 0 }
{
    if brings_data(op) { bytes_of(size) } else { 0 }
}

// So many bytes that rise from a first one.
fn rising(alloc: Global, count: usize, first: u64) -> Result<Bytes, Memory> {
    let mut bytes = Items::new(alloc);
    for place in 0..count {
        bytes.push((first.wrapping_add(place as u64) % 256) as u8)?;
    }
    Ok(bytes)
}

// So many flags, those of the lowest bits of a number and no more than 64 set.
fn flags(alloc: Global, count: usize, bits: u64) -> Result<Flags, Memory> {
    let mut flags = Items::new(alloc);
    for place in 0..count {
        flags.push(place < 64 && bits >> (place % 64) & 1 == 1)?;
    }
    Ok(flags)
}

/// What a request is made of: its fields, the bits of its flags, and the first of its bytes, which rise.
#[derive(Clone, Copy)]
pub struct Fields {
    pub op: Op,
    pub size: u32,
    pub source: u32,
    pub address: u64,
    pub flags: u64,
    pub first: u64,
}

/// The request with these fields.
pub fn request_of(alloc: Global, fields: &Fields) -> Result<Request, Memory> {
    let size = fields.size.min(8);
    Ok(Request {
        op: fields.op,
        param: 0,
        size,
        source: fields.source,
        address: fields.address,
        mask: flags(alloc, flags_due(fields.op, size), fields.flags)?,
        payload: rising(alloc, bytes_due(fields.op, size), fields.first)?,
    })
}

/// Whether a request may be sent at all.
pub fn may_be_sent(request: &Request) -> bool
    ensures { IsTrue result → messages.IsRequest request.now }
{
    if request.size > 8 || request.address % (bytes_of(request.size) as u64) != 0 {
        return false;
    }
    request.mask.len() == flags_due(request.op, request.size)
        && request.payload.len() == bytes_due(request.op, request.size)
}

/// The response to a request, with bytes that rise from a first one; `None` where they are not as many as
/// are due.
pub fn response_to(
    alloc: Global,
    request: &Request,
    denied: bool,
    first: u64,
) -> Result<Option<Response>, Memory>
    requires { messages.IsRequest request.now }
    ensures { IfOk result (λ found. IfSome found (λ response. messages.RespondsTo request.now response)) }
{
    let op = ack_of(request.op);
    let due = bytes_back(op, request.size);
    let payload = rising(alloc, due, first)?;
    if payload.len() != due {
        return Ok(None);
    }
    Ok(Some(Response {
        op,
        size: request.size,
        source: request.source,
        denied,
        payload,
    }))
}
