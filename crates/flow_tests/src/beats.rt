use dip_lists::Memory;
use flow_core::Move;
use std::alloc::Global;
use std::fmt::Write;
use tl_edge::{ABeat, DBeat, Tag};
use tl_params::{Ack, Op, code_of_ack, code_of_op};

// The number that hexadecimal digits spell; 0 where they spell none.
fn number(digits: &str) -> u64 {
    u64::from_str_radix(digits, 16).unwrap_or(0)
}

// The hexadecimal numbers of an offer, behind its first word.
fn numbers(alloc: Global, words: &str) -> Result<Vec<u64>, Memory> {
    let mut list = Vec::new(alloc);
    for word in words.split(' ') {
        list.push(number(word))?;
    }
    Ok(list)
}

// The number at a place, 0 where there is none.
fn at(list: &[u64], place: usize) -> u64 {
    list.get(place).copied().unwrap_or(0)
}

// The same, below 2^16.
fn small(list: &[u64], place: usize) -> u32 {
    (at(list, place) % 65536) as u32
}

// A beat of channel A: whether it is a get, size, id, address, mask and data.
fn a_beat(list: &[u64]) -> ABeat {
    ABeat {
        op: if at(list, 1) == 0 {
            Op::PutFull
        } else {
            Op::Get
        },
        param: 0,
        size: small(list, 2),
        source: small(list, 3),
        address: at(list, 4),
        mask: at(list, 5),
        payload: at(list, 6),
    }
}

// A beat of channel D: whether it brings data, size, id and data.
fn d_beat(list: &[u64]) -> DBeat {
    DBeat {
        op: if at(list, 1) == 0 {
            Ack::Ack
        } else {
            Ack::AckData
        },
        size: small(list, 2),
        source: small(list, 3),
        denied: false,
        payload: at(list, 4),
    }
}

// The tag of a request by its id.
fn tag(source: u32) -> Tag {
    Tag {
        port: 0,
        index: source,
        piece: 0,
    }
}

/// The leaf, and the input or output, whose gate an offer asks for.
pub fn gate_of(alloc: Global, offer: &str) -> Result<(u32, u32), Memory> {
    let (_, rest) = offer.split_once(' ').unwrap_or((offer, ""));
    let list = numbers(alloc, rest)?;
    Ok((small(list.as_slice(), 0), small(list.as_slice(), 1)))
}

/// The move that an offer names, if it names one: a word, the port or the leaf, and a beat or input, output
/// and id.
pub fn step_of(alloc: Global, offer: &str) -> Result<Option<Move>, Memory> {
    let (word, rest) = offer.split_once(' ').unwrap_or((offer, ""));
    let list = numbers(alloc, rest)?;
    let list = list.as_slice();
    let port = small(list, 0);
    Ok(Some(match word {
        "enter" => Move::Enter {
            port,
            beat: a_beat(list),
            tag: tag(small(list, 3)),
        },
        "reply" => Move::Reply {
            port,
            beat: d_beat(list),
            tag: tag(small(list, 3)),
        },
        "leave" => Move::Leave { port },
        "return" => Move::Return { port },
        "down" => Move::ForwardA {
            leaf: port,
            input: small(list, 1),
            output: small(list, 2),
            id: small(list, 3),
        },
        "up" => Move::ForwardD {
            leaf: port,
            input: small(list, 1),
            output: small(list, 2),
        },
        _ => return Ok(None),
    }))
}

/// Writes an event with a beat of channel A.
pub fn show_a(text: &mut String, word: &str, port: u32, beat: ABeat) -> Result<(), Memory> {
    let ABeat {
        op,
        param,
        size,
        source,
        address,
        mask,
        payload,
    } = beat;
    let op = code_of_op(op);
    write!(text, " {word} {port} {op} {param} {size} {source}")?;
    Ok(write!(text, " {address:x} {mask:x} {payload:x}")?)
}

/// Writes an event with a beat of channel D.
pub fn show_d(text: &mut String, word: &str, port: u32, beat: DBeat) -> Result<(), Memory> {
    let DBeat {
        op,
        size,
        source,
        denied,
        payload,
    } = beat;
    let op = code_of_ack(op);
    let denied = u32::from(denied);
    Ok(write!(
        text,
        " {word} {port} {op} {size} {source} {denied} {payload:x}"
    )?)
}
