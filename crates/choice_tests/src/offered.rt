use dip_lists::{Items, Memory};
use flow_choice::Offers;
use std::alloc::Global;
use tl_edge::{ABeat, DBeat, Tag};
use tl_params::{Ack, Op};

// The word of an offer with a number, none where there is no such word.
fn word(offer: &str, place: usize) -> &str {
    offer.split(' ').nth(place).unwrap_or("")
}

// The number that a word of an offer spells in hexadecimal; 0 where it spells none.
fn spelled(offer: &str, place: usize) -> u64 {
    u64::from_str_radix(word(offer, place), 16).unwrap_or(0)
}

// The same, where it is below 2^16.
fn brief(offer: &str, place: usize) -> u32 {
    (spelled(offer, place) & 0xffff) as u32
}

// The offer of a line that begins with this word and a port's number.
fn offer_of<'a>(line: &'a str, kind: &str, port: u32) -> Option<&'a str> {
    for offer in line.split(", ") {
        if word(offer, 0) == kind && brief(offer, 1) == port {
            return Some(offer);
        }
    }
    None
}

// No request is named beside a beat.
fn unnamed() -> Tag {
    Tag {
        port: 0,
        index: 0,
        piece: 0,
    }
}

// A beat of a request: port, size, id, address, mask and data.
fn request(op: Op, offer: &str) -> (ABeat, Tag) {
    let beat = ABeat {
        op,
        param: 0,
        size: brief(offer, 2),
        source: brief(offer, 3),
        address: spelled(offer, 4),
        mask: spelled(offer, 5),
        payload: spelled(offer, 6),
    };
    (beat, unnamed())
}

// A beat of a response: port, size, id and data.
fn response(op: Ack, offer: &str) -> (DBeat, Tag) {
    let beat = DBeat {
        op,
        size: brief(offer, 2),
        source: brief(offer, 3),
        denied: false,
        payload: spelled(offer, 4),
    };
    (beat, unnamed())
}

// The beat that a source port offers.
fn entering(line: &str, port: u32) -> Option<(ABeat, Tag)> {
    if let Some(offer) = offer_of(line, "put", port) {
        return Some(request(Op::PutFull, offer));
    }
    match offer_of(line, "get", port) {
        None => None,
        Some(offer) => Some(request(Op::Get, offer)),
    }
}

// The beat that a sink port offers.
fn replying(line: &str, port: u32) -> Option<(DBeat, Tag)> {
    if let Some(offer) = offer_of(line, "ack", port) {
        return Some(response(Ack::Ack, offer));
    }
    match offer_of(line, "data", port) {
        None => None,
        Some(offer) => Some(response(Ack::AckData, offer)),
    }
}

/// What six sources and four sinks offer and take in a cycle: all take but those that hold.
pub fn offers(alloc: Global, line: &str) -> Result<Offers, Memory> {
    let mut offers = Offers {
        enter: Items::new(alloc),
        take_d: Items::new(alloc),
        take_a: Items::new(alloc),
        reply: Items::new(alloc),
    };
    for port in 0..6 {
        offers.enter.push(entering(line, port))?;
        offers
            .take_d
            .push(offer_of(line, "hold_d", port).is_none())?;
    }
    for port in 0..4 {
        offers
            .take_a
            .push(offer_of(line, "hold_a", port).is_none())?;
        offers.reply.push(replying(line, port))?;
    }
    Ok(offers)
}
