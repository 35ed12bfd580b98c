ghost use Rattle.std.specs.Prelude.{◌≡◌, ◌≤◌, ◌<◌, ◌^◌, IfOk, IsTrue, cond};
ghost use Rattle.tl_edge.specs.Messages.{IsRequest, bytes_of};
ghost use Rattle.sim_ports.specs.Kept.{meaning_of};
ghost use Rattle.bench_stimulus.specs.Ready as spec;

use dip_lists::{Items, Memory};
use sim_ports::{Cells, Device, Role};
use std::alloc::Global;
use tl_edge::{Request, ack_of, brings_data, has_data, has_flags};
use tl_params::Op;

/// The bytes of each request, and their base-2 logarithm.
const BYTES: u64 = 64;

const SIZE: u32 = 6;

// The addresses below a first one.
fn below(alloc: Global, count: u64) -> Result<Vec<u64>, Memory>
    ensures { IfOk result (λ addresses. spec.AreAllBelow count addresses.items) }
{
    let mut addresses = Vec::new(alloc);
    for address in 0..count {
        addresses.push(address)?;
    }
    Ok(addresses)
}

// A memory at all addresses below a first one.
fn prepared(alloc: Global, count: u64) -> Result<Cells, Memory>
    ensures { IfOk result (λ cells. spec.HasBelow count (meaning_of cells)) }
{
    let addresses = below(alloc, count)?;
    let mut cells = Cells::new(alloc);
    cells.prepare(Role::Ram, addresses.as_slice())?;
    Ok(cells)
}

// A get or a put of 64 bytes, each of which is 7.
fn request_of(alloc: Global, op: Op) -> Result<Request, Memory> {
    let mut payload = Items::new(alloc);
    if has_data(op) {
        for _ in 0..BYTES {
            payload.push(7)?;
        }
    }
    Ok(Request {
        op,
        param: 0,
        size: SIZE,
        source: 0,
        address: 0,
        mask: Items::new(alloc),
        payload,
    })
}

// How many items a part of a message of a size has: one for each byte, or none.
fn due(has: bool, size: u32) -> usize
    requires { size ≤ 8 }
    ensures { result ≡ cond has (bytes_of size) 0 }
{
    if has { 1 << size } else { 0 }
}

// Whether a request has the lengths that it needs, at such an address.
fn is_whole(request: &Request) -> bool
    ensures { IsTrue result → IsRequest request.now }
{
    if request.size > 8 {
        return false;
    }
    if request.address % (1 << request.size) != 0 {
        return false;
    }
    if request.mask.len() != due(has_flags(request.op), request.size) {
        return false;
    }
    request.payload.len() == due(has_data(request.op), request.size)
}

// Whether a request of 64 bytes may be asked of a memory at all addresses below a first one.
fn is_ready(count: u64, request: &Request, room: usize) -> bool
    ensures { IsTrue result → spec.IsReadyBelow count request.now room }
{
    if !is_whole(request) {
        return false;
    }
    if matches!(request.op, Op::Arithmetic | Op::Logical) || request.size != SIZE {
        return false;
    }
    if request.param != 0 || request.source >= 1024 {
        return false;
    }
    if room != due(brings_data(ack_of(request.op)), request.size) {
        return false;
    }
    request.address < 1 << 48 && request.address + BYTES <= count
}

// Asks a memory; answers whether it was asked, and didn't deny.
#[tactic(auto, using(crate::proofs::Asked::asked, crate::proofs::Asked::still_below))]
fn ask(cells: &mut Cells, count: u64, request: &Request, payload: &mut [u8]) -> bool
    requires { spec.HasBelow count (meaning_of cells.old) }
    ensures { spec.HasBelow count (meaning_of cells.new) }
{
    if !is_ready(count, request, payload.len()) {
        return false;
    }
    !cells.answer(request, payload)
}

/// Requests that are asked in turn, and room for the answers.
#[derive(Drop)]
struct Turn {
    get: Request,
    put: Request,
    given: [u8; 64],
}

impl Turn {
    // The next request: a put where the number is even, and a get where it is odd, at an address.
    fn ask(&mut self, cells: &mut Cells, count: u64, number: u64, address: u64) -> bool
        requires { spec.HasBelow count (meaning_of cells.old) }
        ensures { spec.HasBelow count (meaning_of cells.new) }
    {
        if number % 2 == 0 {
            self.put.address = address;
            return ask(cells, count, &self.put, &mut []);
        }
        self.get.address = address;
        ask(cells, count, &self.get, &mut self.given)
    }

    // The first byte of the last answer.
    fn first_given(&self) -> u64 {
        u64::from(self.given[0])
    }
}

// Asks so many times, at blocks of 64 bytes that lie far apart, and adds up the first bytes of the answers.
fn asked(cells: &mut Cells, turn: &mut Turn, count: u64, times: u64) -> u64
    requires { spec.HasBelow count (meaning_of cells.old) }
{
    let blocks = (count / BYTES).max(1);
    let mut sum = 0u64;
    for number in 0..times {
        let address = number.wrapping_mul(7919) % blocks * BYTES;
        if turn.ask(cells, count, number, address) {
            sum = sum.wrapping_add(1).wrapping_add(turn.first_given());
        }
    }
    sum
}

/// Asks a memory at so many addresses so many gets and puts; for each that it does the sum has 1 and the
/// first byte of the last answer.
pub fn sum_of(alloc: Global, count: u64, times: u64) -> Result<u64, Memory> {
    let mut cells = prepared(alloc, count)?;
    let mut turn = Turn {
        get: request_of(alloc, Op::Get)?,
        put: request_of(alloc, Op::PutFull)?,
        given: [0; 64],
    };
    Ok(asked(&mut cells, &mut turn, count, times))
}
