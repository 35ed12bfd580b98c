ghost use Rattle.std.specs.Prelude.{IfOk};
ghost use Rattle.tl_edge.specs.Messages.{AreBytes};

use crate::ask::due;
use dip_lists::{Bytes, Items, Memory};
use std::alloc::Global;
use tl_edge::{Flags, Request, ack_of, brings_data, has_data, has_flags};
use tl_params::Op;

/// The bytes of a number, the first the lowest.
fn bytes(alloc: Global, count: usize, number: u64) -> Result<Bytes, Memory>
    ensures { IfOk result AreBytes }
{
    let mut list = Items::new(alloc);
    let mut rest = number;
    for _place in 0..count {
        list.push((rest % 256) as u8)?;
        rest /= 256;
    }
    Ok(list)
}

/// The flags of a number's bits, the first the lowest.
fn flags(alloc: Global, count: usize, number: u64) -> Result<Flags, Memory> {
    let mut list = Items::new(alloc);
    let mut rest = number;
    for _place in 0..count {
        list.push(rest % 2 == 1)?;
        rest /= 2;
    }
    Ok(list)
}

/// A request, by its fields; its flags are the bits of a number and its bytes those of another.
#[derive(Clone, Copy)]
pub struct Fields {
    pub op: Op,
    pub param: u32,
    pub size: u32,
    pub source: u32,
    pub address: u64,
    pub flags: u64,
    pub number: u64,
}

/// The request with these fields.
pub fn request_of(alloc: Global, fields: &Fields) -> Result<Request, Memory>
    ensures { IfOk result (λ request. AreBytes request.payload) }
{
    let size = fields.size.min(8);
    Ok(Request {
        op: fields.op,
        param: fields.param,
        size,
        source: fields.source,
        address: fields.address,
        mask: flags(alloc, due(has_flags(fields.op), size), fields.flags)?,
        payload: bytes(alloc, due(has_data(fields.op), size), fields.number)?,
    })
}

/// The number whose lowest bytes are the first of these.
pub fn number_of(bytes: &[u8]) -> u64 {
    let mut number = 0u64;
    let mut place = 1u64;
    for byte in bytes {
        number = number.wrapping_add(u64::from(*byte).wrapping_mul(place));
        place = place.wrapping_mul(256);
    }
    number
}

/// How many bytes the answer to a request has.
pub fn room_of(request: &Request) -> usize {
    due(brings_data(ack_of(request.op)), request.size.min(8))
}
