ghost use Rattle.std.specs.Prelude.{◌==◌, drop, ◌+◌, ◌≤◌, map, sum, ◌≡◌, ◌<◌, ◌++◌, [], Some, None, get_or, length, replicate, slice_set, IfOk, OnOk};
ghost use Rattle.std.specs.List.{list_any};
ghost use Rattle.std.specs.Option.{option_copied};
ghost use Rattle.dip_negotiate.specs.Demands as spec;
ghost use Rattle.dip_negotiate.specs.Passes.{beside};

use crate::negotiated::Negotiated;
use dip_lists::{Items, MOST_ITEMS, Memory};
use std::alloc::Global;

/// How many masters or slaves all edges together are given at most. Slaves of 144 bytes are then a gigabyte
/// and a fifth. An accepted design has at most 1,024 edges with 1,024 of each.
const MOST_GIVEN: usize = 8_388_608;

/// So many ports of which none is known.
pub fn nothing<P: Drop>(alloc: Global, count: usize) -> Result<Vec<Option<P>>, Memory>
    ensures { IfOk result (λ ports. ports.items ≡ replicate count None) }
{
    let mut ports = Vec::new(alloc);
    for _edge in 0..count {
        ports.push(None)?;
    }
    Ok(ports)
}

// The port at a place, where there is one.
fn at<P>(ports: &[Option<P>], place: u32) -> Option<&P>
    ensures { option_copied result ≡ get_or ports.now place None }
{
    if (place as usize) < ports.len() {
        ports[place as usize].as_ref()
    } else {
        None
    }
}

/// The port of an edge, where it is known.
#[tactic(auto, using(crate::proofs::Seen::seen_at, crate::proofs::Seen::seen_past))]
pub fn port_at<'a, P>(firsts: &[u32], ports: &'a [Option<P>], edge: u32) -> Option<&'a P>
    ensures { option_copied result ≡ get_or (spec.seen firsts.now ports.now) edge None }
{
    if (edge as usize) < firsts.len() {
        at(ports, firsts[edge as usize])
    } else {
        None
    }
}

/// Whether the port of an edge is known.
pub fn keeps<P>(firsts: &[u32], ports: &[Option<P>], edge: u32) -> bool
    ensures { result ≡ spec.keeps (spec.seen firsts.now ports.now) edge }
{
    port_at(firsts, ports, edge).is_some()
}

// What is left of the room for masters or slaves beside those of a port.
fn room_beside<P: Negotiated>(port: Option<&P>, room: usize) -> Result<usize, Memory>
    ensures { IfOk result (λ left. left + spec.port_entries P.count (option_copied port.entry) ≡ room) }
{
    match port {
        Some(port) => room.checked_sub(port.entries()).ok_or(Memory),
        None => Ok(room),
    }
}

/// Whether a port with so many masters or slaves may be kept beside others: `Memory` where that would be a
/// list of more than 1,048,576, or more than `MOST_ENTRIES` together.
pub fn make_room<P: Negotiated>(ports: &[Option<P>], entries: usize) -> Result<(), Memory>
    ensures list { OnOk result (entries ≤ 1048576) }
    ensures together { OnOk result (entries + spec.all_entries P.count ports.now ≤ P.MOST_ENTRIES) }
{
    if entries > MOST_ITEMS {
        return Err(Memory);
    }
    let mut room = P::MOST_ENTRIES.checked_sub(entries).ok_or(Memory)?;
    for port in ports {
        room = room_beside(port.as_ref(), room)?;
    }
    Ok(())
}

// Adds a copy of a port, where there is one.
#[tactic(auto, using(crate::proofs::Seen::beside_none))]
fn pick<P: Negotiated>(alloc: Global, port: Option<&P>, some: &mut Items<P>) -> Result<(), Memory>
    ensures { OnOk result (some.new ≡ some.old ++ beside (option_copied port.entry) []) }
{
    match port {
        Some(port) => some.push(port.duplicate(alloc)?),
        None => Ok(()),
    }
}

/// Copies of the ports of some edges by their numbers, of those that are known; `Memory` where they have
/// more than 1,048,576 masters or slaves together.
#[tactic(auto, using(crate::proofs::Picks::beside_more))]
pub fn picked<P: Negotiated>(
    alloc: Global,
    firsts: &[u32],
    ports: &[Option<P>],
    numbers: &[u32],
) -> Result<Items<P>, Memory>
    ensures value { IfOk result (λ some. some ≡ spec.known_of (spec.seen firsts.now ports.now)
        numbers.now) }
    ensures bounded { IfOk result (λ some. sum (map P.count some) ≤ 1048576) }
{
    let mut some = Items::new(alloc);
    let mut room = MOST_ITEMS;
    for number in numbers {
        let port = port_at(firsts, ports, *number);
        room = room_beside(port, room)?;
        pick(alloc, port, &mut some)?;
    }
    Ok(some)
}

// Whether a number is one of these.
fn is_among(number: u32, numbers: &[u32]) -> bool
    ensures { result ≡ list_any (λ other. other == number) numbers.now }
{
    numbers.iter().any(|other| *other == number)
}

// Whether a number stands again behind a place.
fn stands_behind(number: u32, numbers: &[u32], place: usize) -> bool
    requires { place < length numbers.now }
    ensures { result ≡ list_any (λ other. other == number) (drop (place + 1) numbers.now) }
{
    is_among(number, &numbers[place + 1..])
}

// Takes the port at a place, where there is one.
#[tactic(auto, using(crate::proofs::Picks::set_past, crate::proofs::Seen::beside_none))]
fn take<P: Negotiated>(
    ports: &mut Vec<Option<P>>,
    place: u32,
    some: &mut Items<P>,
) -> Result<(), Memory>
    ensures ports { ports.new.items ≡ slice_set ports.old.items place None }
    ensures some { OnOk result (some.new ≡ some.old ++ beside (get_or ports.old.items place None) []) }
{
    if (place as usize) < ports.len() {
        match ports[place as usize].take() {
            Some(port) => some.push(port),
            None => Ok(()),
        }
    } else {
        Ok(())
    }
}

/// The ports of all edges, of those that are known, each copied for all edges of its place but the last;
/// `Memory` where they have more than `MOST_GIVEN` masters or slaves together.
#[tactic(auto, using(crate::proofs::Picks::beside_more))]
pub fn kept_ports<P: Negotiated>(
    alloc: Global,
    firsts: &[u32],
    ports: Vec<Option<P>>,
) -> Result<Items<P>, Memory>
    ensures value { IfOk result (λ some. some ≡ spec.kept_ports (spec.seen firsts.now ports.items)) }
    ensures bounded { IfOk result (λ some. sum (map P.count some) ≤ 8388608) }
{
    let mut ports = ports;
    let mut some = Items::new(alloc);
    let mut room = MOST_GIVEN;
    for edge in 0..firsts.len() {
        let first = firsts[edge];
        room = room_beside(at(&ports, first), room)?;
        if stands_behind(first, firsts, edge) {
            pick(alloc, at(&ports, first), &mut some)?;
        } else {
            take(&mut ports, first, &mut some)?;
        }
    }
    Ok(some)
}

// Puts a port in a place, where there is one.
#[tactic(auto, using(crate::proofs::Picks::set_past))]
fn put<P: Drop>(ports: &mut Vec<Option<P>>, place: u32, port: P)
    ensures { ports.new.items ≡ slice_set ports.old.items place (Some port) }
{
    if (place as usize) < ports.len() {
        ports[place as usize] = Some(port);
    }
}

/// Keeps the port of an edge at the first edge of its place.
pub fn keep<P: Drop>(firsts: &[u32], ports: &mut Vec<Option<P>>, edge: u32, port: P)
    requires { edge < length firsts.now }
    ensures { ports.new.items ≡ slice_set ports.old.items (get_or firsts.now edge 0) (Some port) }
{
    put(ports, firsts[edge as usize], port);
}
