ghost use Rattle.std.specs.Prelude.{◌≡◌, ◌≤◌};
ghost use Rattle.tl_edge.specs.Messages as messages;

use crate::beats::fields_of;
use crate::messages::{may_be_sent, request_of, response_to};
use crate::words::{say, say_number, say_whether};
use dip_lists::{Items, Memory};
use std::alloc::Global;
use std::fmt::Write;
use tl_edge::{Request, Requests, Response, Responses};
use tl_params::code_of_ack;
use tl_pieces::{cut_at, reply_to};

// The number of bytes of a size.
fn bytes_of(size: u32) -> u32
    requires { size ≤ 8 }
    ensures { result ≡ messages.bytes_of size }
{
    1 << size
}

// The pieces of a request, of a size.
fn pieces_of(alloc: Global, size: u32, request: &Request) -> Result<Requests, Memory>
    requires size { size ≤ 8 }
    requires request { messages.IsRequest request.now }
{
    cut_at(alloc, bytes_of(size), request)
}

// Adds bytes to an answer.
fn add_bytes(text: &mut String, bytes: &[u8]) -> Result<(), Memory> {
    for byte in bytes {
        write!(text, ":{byte:x}")?;
    }
    Ok(())
}

// Adds a piece to an answer: its size and address, its flags, and its bytes.
fn add_piece(text: &mut String, piece: &Request) -> Result<(), Memory> {
    write!(text, " {:x}/{:x}/", piece.size, piece.address)?;
    for flag in piece.mask.as_slice() {
        write!(text, "{}", u8::from(*flag))?;
    }
    add_bytes(text, piece.payload.as_slice())
}

/// The pieces of a request: the size of a piece, and the fields of the request.
pub fn cut(alloc: Global, rest: &str, text: &mut String) -> Result<(), Memory> {
    let Some((size, fields)) = fields_of(alloc, rest)? else {
        return say(text, "no fields");
    };
    let request = request_of(alloc, &fields)?;
    if !may_be_sent(&request) {
        return say(text, "no request");
    }
    let pieces = pieces_of(alloc, size.min(8), &request)?;
    say_number(text, pieces.len() as u64)?;
    for piece in pieces.as_slice() {
        add_piece(text, piece)?;
    }
    Ok(())
}

// Responses to the pieces, whose bytes rise from a first one, 16 higher for each; a bit for each that is
// denied.
fn answers_to(
    alloc: Global,
    pieces: &[Request],
    denied: u64,
    first: u64,
) -> Result<Responses, Memory> {
    let mut answers = Items::new(alloc);
    let mut bits = denied;
    let mut start = first;
    for piece in pieces {
        if !may_be_sent(piece) {
            return Ok(answers);
        }
        if let Some(answer) = response_to(alloc, piece, bits % 2 == 1, start)? {
            answers.push(answer)?;
        }
        bits /= 2;
        start = start.wrapping_add(16);
    }
    Ok(answers)
}

// Adds a reply to an answer.
fn add_reply(text: &mut String, reply: &Response) -> Result<(), Memory> {
    say_number(text, code_of_ack(reply.op))?;
    say_number(text, u64::from(reply.size))?;
    say_number(text, u64::from(reply.source))?;
    say_whether(text, reply.denied)?;
    add_bytes(text, reply.payload.as_slice())
}

/// The reply to a request: the size of a piece, the fields of the request, whose flags tell too which
/// pieces are denied, and the first byte of the answer to the first piece.
pub fn reply(alloc: Global, rest: &str, text: &mut String) -> Result<(), Memory> {
    let Some((size, fields)) = fields_of(alloc, rest)? else {
        return say(text, "no fields");
    };
    let request = request_of(alloc, &fields)?;
    if !may_be_sent(&request) {
        return say(text, "no request");
    }
    let pieces = pieces_of(alloc, size.min(8), &request)?;
    let answers = answers_to(alloc, pieces.as_slice(), fields.flags, fields.first)?;
    add_reply(text, &reply_to(alloc, &request, answers.as_slice())?)
}
