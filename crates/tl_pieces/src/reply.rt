ghost use Rattle.std.specs.Prelude.{◌≡◌, ◌≤◌, ◌++◌, replicate, IfOk, OnOk};
ghost use Rattle.tl_edge.specs.Messages as messages;
ghost use Rattle.tl_pieces.specs.Cutting as spec;

use dip_lists::{Bytes, Items, Memory};
use std::alloc::Global;
use tl_edge::{Request, Response, ack_of, brings_data};

// Whether one of the answers is denied.
fn any_denied(answers: &[Response]) -> bool
    ensures { result ≡ spec.any_denied answers.now }
{
    answers.iter().any(|answer| answer.denied)
}

// Adds bytes at the end of others.
fn append(list: &mut Bytes, bytes: &[u8]) -> Result<(), Memory>
    ensures { OnOk result (list.new ≡ list.old ++ bytes.now) }
{
    for byte in bytes {
        list.push(*byte)?;
    }
    Ok(())
}

// The data of the answers, joined in order.
fn joined_data(alloc: Global, answers: &[Response]) -> Result<Bytes, Memory>
    ensures { IfOk result (λ bytes. bytes ≡ spec.joined_data answers.now) }
{
    let mut bytes = Items::new(alloc);
    for answer in answers {
        append(&mut bytes, answer.payload.as_slice())?;
    }
    Ok(bytes)
}

// As many zeros as a request of a size has bytes.
fn zeros(alloc: Global, size: u32) -> Result<Bytes, Memory>
    requires { size ≤ 8 }
    ensures { IfOk result (λ bytes. bytes ≡ replicate (messages.bytes_of size) 0) }
{
    let mut bytes = Items::new(alloc);
    for _place in 0..1u32 << size {
        bytes.push(0)?;
    }
    Ok(bytes)
}

// The data of a reply that has data.
fn reply_data(alloc: Global, request: &Request, answers: &[Response]) -> Result<Bytes, Memory>
    requires { request.now.size ≤ 8 }
    ensures { IfOk result (λ bytes. bytes ≡ spec.reply_data request.now answers.now) }
{
    if any_denied(answers) {
        zeros(alloc, request.size)
    } else {
        joined_data(alloc, answers)
    }
}

/// The reply to a request whose pieces got these answers: denied where one of them is, and with their data
/// joined, or as many zeros.
pub fn reply_to(alloc: Global, request: &Request, answers: &[Response]) -> Result<Response, Memory>
    requires { request.now.size ≤ 8 }
    ensures { IfOk result (λ reply. reply ≡ spec.reply_to request.now answers.now) }
{
    let op = ack_of(request.op);
    let payload = if brings_data(op) {
        reply_data(alloc, request, answers)?
    } else {
        Items::new(alloc)
    };
    Ok(Response {
        op,
        size: request.size,
        source: request.source,
        denied: any_denied(answers),
        payload,
    })
}
