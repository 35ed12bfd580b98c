ghost use Rattle.std.specs.Prelude.{◌≡◌, ◌≤◌, ◌<◌, ◌+◌, ◌%◌, length, IsTrue, IfOk};
ghost use Rattle.std.specs.Int.{IsPowerOfTwo};
ghost use Rattle.tl_edge.specs.Beats as beats;
ghost use Rattle.tl_edge.specs.Messages.{IsRequest, bytes_of};
ghost use Rattle.tl_pieces.specs.Cutting as spec;

use dip_lists::{Items, Memory};
use std::alloc::Global;
use tl_edge::{Request, Requests, log_of, part};
use tl_params::Op;

/// Whether requests of an operation may be cut: gets and puts, but no atomic operations and no intents.
pub fn may_be_cut(op: Op) -> bool
    ensures { result ≡ spec.may_be_cut op }
{
    matches!(op, Op::Get | Op::PutFull | Op::PutPartial)
}

/// Whether a request is cut into pieces of `most` bytes: it may be, and has more bytes.
pub fn is_cut(most: u32, request: &Request) -> bool
    requires { request.now.size ≤ 8 }
    ensures { result ≡ spec.is_cut most request.now }
{
    may_be_cut(request.op) && most < 1 << request.size
}

/// Into how many pieces of `most` bytes a request is cut.
pub fn piece_count(most: u32, request: &Request) -> u32
    requires size { request.now.size ≤ 8 }
    requires some { 1 ≤ most }
    ensures { result ≡ spec.piece_count most request.now }
{
    (1 << request.size) / most
}

// The part of a list that a piece has, in memory of its own.
fn part_of<T: Copy + Drop>(
    alloc: Global,
    items: &[T],
    most: u32,
    number: u32,
) -> Result<Items<T>, Memory>
    requires most { most ≤ 256 }
    requires number { number ≤ 256 }
    requires few { length items.now ≤ 256 }
    ensures { IfOk result (λ copy. copy ≡ beats.part most number items.now) }
{
    let items = Vec::from_slice(alloc, part(items, most, number))?;
    Ok(Items::from_vec(items))
}

// The address at an offset within an aligned transfer.
fn offset_address(address: u64, size: u32, offset: u32) -> u64
    requires size { size ≤ 8 }
    requires aligned { address % bytes_of size ≡ 0 }
    requires within { offset < bytes_of size }
    ensures { result ≡ address + offset }
{
    address + u64::from(offset)
}

/// The piece of a request with a number, from 0, of `most` bytes.
pub fn piece_at(alloc: Global, most: u32, request: &Request, number: u32) -> Result<Request, Memory>
    requires size { IsPowerOfTwo most }
    requires request { IsRequest request.now }
    requires cut { IsTrue (spec.is_cut most request.now) }
    requires number { number < spec.piece_count most request.now }
    ensures { IfOk result (λ made. made ≡ spec.piece_at most request.now number) }
{
    Ok(Request {
        op: request.op,
        param: request.param,
        size: log_of(most),
        source: request.source,
        address: offset_address(request.address, request.size, number * most),
        mask: part_of(alloc, request.mask.as_slice(), most, number)?,
        payload: part_of(alloc, request.payload.as_slice(), most, number)?,
    })
}

// An equal request in memory of its own.
fn same_request(alloc: Global, request: &Request) -> Result<Request, Memory>
    ensures { IfOk result (λ copy. copy ≡ request.now) }
{
    Ok(Request {
        op: request.op,
        param: request.param,
        size: request.size,
        source: request.source,
        address: request.address,
        mask: request.mask.copy(alloc)?,
        payload: request.payload.copy(alloc)?,
    })
}

// The pieces of a request that is cut.
fn all_pieces(alloc: Global, most: u32, request: &Request) -> Result<Requests, Memory>
    requires size { IsPowerOfTwo most }
    requires request { IsRequest request.now }
    requires cut { IsTrue (spec.is_cut most request.now) }
    ensures { IfOk result (λ pieces. pieces ≡ spec.cut_at most request.now) }
{
    let mut pieces = Items::new(alloc);
    for number in 0..piece_count(most, request) {
        pieces.push(piece_at(alloc, most, request, number)?)?;
    }
    Ok(pieces)
}

/// The pieces of a request, of at most `most` bytes: what isn't cut is one piece, itself.
pub fn cut_at(alloc: Global, most: u32, request: &Request) -> Result<Requests, Memory>
    requires size { IsPowerOfTwo most }
    requires request { IsRequest request.now }
    ensures { IfOk result (λ pieces. pieces ≡ spec.cut_at most request.now) }
{
    if is_cut(most, request) {
        return all_pieces(alloc, most, request);
    }
    let mut pieces = Items::new(alloc);
    pieces.push(same_request(alloc, request)?)?;
    Ok(pieces)
}
