ghost use Rattle.std.specs.Prelude.{◌≡◌, ◌≤◌, ◌<◌, ◌+◌, length, replicate, true, take, IfOk, IsTrue, Some};
ghost use Rattle.tl_params.specs.Arguments.{is_width};
ghost use Rattle.tl_params.specs.Codes.{code_of_op as code_is};
ghost use Rattle.tl_edge.specs.declared.message.Request.{Request as AnyRequest};
ghost use Rattle.tl_edge.specs.BeatLaws.{IsBeatOf, IsSent};
ghost use Rattle.tl_edge.specs.Beats.{beats_of_request};
ghost use Rattle.tl_edge.specs.Joined.{joined_request};
ghost use Rattle.tl_edge.specs.Messages.{IsRequest, RespondsTo};
ghost use Rattle.sim_ports.specs.Devices as devices;
ghost use Rattle.sim_ports.specs.Rooms as spec;
ghost use Rattle.sim_ports.specs.Sinks.{AreWhole, response_of};

use crate::device::Device;
use crate::gather::{gather_bytes, gather_flags};
use dip_lists::{Items, Memory};
use std::alloc::Global;
use tl_edge::{
    ABeat, DBeat, Request, Response, ack_of, brings_data, d_beat, has_data, has_flags,
    response_beats,
};
use tl_params::{Op, code_of_op};

/// A request and the response to it, in lists that keep their lengths: filled again, they take no memory.
#[derive(Debug, Drop)]
pub(crate) struct Room {
    pub request: Request,
    pub response: Response,
}

/// Rooms for nine sizes of each operation.
pub(crate) type Rooms = Items<Room>;

/// A list of equal items.
pub(crate) fn filled<T: Copy>(alloc: Global, item: T, count: usize) -> Result<Items<T>, Memory>
    ensures { IfOk result (λ list. list ≡ replicate count item) }
{
    let mut list = Items::new(alloc);
    for _place in 0..count {
        list.push(item)?;
    }
    Ok(list)
}

/// Where the room for an operation and a size stands.
pub(crate) fn place_of(op: Op, size: u32) -> usize
    requires { size ≤ 8 }
    ensures { result ≡ spec.room_place op size }
{
    code_of_op(op) as usize * 9 + size as usize
}

// How many items a part of a message of a size has: one for each byte, or none.
fn count_if(has: bool, size: u32) -> usize
    requires { size ≤ 8 }
    ensures { result ≡ spec.count_if has size }
{
    if has { 1 << size } else { 0 }
}

// A request with room for what an operation and a size need.
fn blank_request(alloc: Global, op: Op, size: u32) -> Result<Request, Memory>
    requires { size ≤ 8 }
    ensures { IfOk result (spec.SuitsRequest op size) }
{
    Ok(Request {
        op,
        param: 0,
        size,
        source: 0,
        address: 0,
        mask: filled(alloc, false, count_if(has_flags(op), size))?,
        payload: filled(alloc, 0, count_if(has_data(op), size))?,
    })
}

// A response with room for what an operation and a size need.
fn blank_response(alloc: Global, op: Op, size: u32) -> Result<Response, Memory>
    requires { size ≤ 8 }
    ensures { IfOk result (spec.SuitsResponse op size) }
{
    let ack = ack_of(op);
    Ok(Response {
        op: ack,
        size,
        source: 0,
        denied: false,
        payload: filled(alloc, 0, count_if(brings_data(ack), size))?,
    })
}

// The operation with a code.
fn op_with(code: usize) -> Op
    requires { code < 6 }
    ensures { code_is result ≡ code }
{
    match code {
        0 => Op::PutFull,
        1 => Op::PutPartial,
        2 => Op::Arithmetic,
        3 => Op::Logical,
        4 => Op::Get,
        _ => Op::Intent,
    }
}

// The room with a place.
fn room_at(alloc: Global, place: usize) -> Result<Room, Memory>
    requires { place < 54 }
    ensures { IfOk result (spec.SuitsAt place) }
{
    let op = op_with(place / 9);
    let size = (place % 9) as u32;
    Ok(Room {
        request: blank_request(alloc, op, size)?,
        response: blank_response(alloc, op, size)?,
    })
}

/// Room for all operations and sizes.
pub(crate) fn rooms(alloc: Global) -> Result<Rooms, Memory>
    ensures { IfOk result spec.AllSuit }
{
    let mut rooms = Items::new(alloc);
    for place in 0..54 {
        rooms.push(room_at(alloc, place)?)?;
    }
    Ok(rooms)
}

// Gives a request the control fields of a beat.
fn set_fields(request: &mut Request, head: &ABeat)
    ensures heads { IsBeatOf request.new head.now }
    ensures flags { request.new.mask ≡ request.old.mask }
    ensures bytes { request.new.payload ≡ request.old.payload }
{
    request.op = head.op;
    request.param = head.param;
    request.size = head.size;
    request.source = head.source;
    request.address = head.address;
}

// Lets a boxed device answer.
fn answer(device: &mut Box<dyn Device>, request: &Request, payload: &mut [u8]) -> bool
    requires prepared { (meaning device.old).prepared ≡ true }
    requires asked { devices.MayBeAsked (meaning device.old).held request.now }
    requires room { length payload.old ≡ devices.answer_bytes request.now }
    ensures denied { result ≡ (devices.device_answer (meaning device.old) request.now).denied }
    ensures payload { payload.new ≡ (devices.device_answer (meaning device.old) request.now).payload }
    ensures device { meaning device.new ≡ devices.after_answer (meaning device.old) request.now }
    ensures addresses { devices.HaveSame (meaning device.new).held (meaning device.old).held }
{
    device.answer(request, payload)
}

impl Room {
    // Puts the request together whose beats on a bus of `width` bytes these are, all of them; one of them is
    // the head.
    fn gather(&mut self, width: u32, beats: &[ABeat], head: &ABeat)
        requires width { IsTrue (is_width width) }
        ensures large { spec.IsAsLarge self.new self.old }
        ensures request { (whole : AnyRequest) → IsSent width whole
            → spec.Suits whole.op whole.size self.old
            → beats.now ≡ beats_of_request width whole → IsBeatOf whole head.now
            → self.new.request ≡ whole }
    {
        set_fields(&mut self.request, head);
        gather_flags(width, beats, self.request.mask.as_mut_slice());
        gather_bytes(width, beats, self.request.payload.as_mut_slice());
    }

    // Gives the response the fields of one to the request; it keeps its data.
    fn respond(&mut self, denied: bool)
        ensures request { self.new.request ≡ self.old.request }
        ensures response { self.new.response
            ≡ spec.with_answer self.old.request denied self.old.response.payload }
    {
        self.response.op = ack_of(self.request.op);
        self.response.size = self.request.size;
        self.response.source = self.request.source;
        self.response.denied = denied;
    }

    // Lets a device answer the request.
    fn ask(&mut self, device: &mut Box<dyn Device>)
        requires prepared { (meaning device.old).prepared ≡ true }
        requires asked { devices.MayBeAsked (meaning device.old).held self.old.request }
        requires room { length self.old.response.payload ≡ devices.answer_bytes self.old.request }
        ensures request { self.new.request ≡ self.old.request }
        ensures response { self.new.response ≡ response_of (meaning device.old) self.old.request }
        ensures large { spec.IsAsLarge self.new self.old }
        ensures device { meaning device.new ≡ devices.after_answer (meaning device.old) self.old.request }
        ensures addresses { devices.HaveSame (meaning device.new).held (meaning device.old).held }
    {
        let denied = answer(device, &self.request, self.response.payload.as_mut_slice());
        self.respond(denied);
    }

    /// Puts a request together from its beats on a bus of `width` bytes, of which one is the head, and lets a
    /// device answer it.
    pub fn serve(&mut self, width: u32, beats: &[ABeat], head: &ABeat, device: &mut Box<dyn Device>)
        requires width { IsTrue (is_width width) }
        requires prepared { (meaning device.old).prepared ≡ true }
        requires whole { AreWhole (meaning device.old).held width beats.now head.now }
        requires room { spec.Suits head.now.op head.now.size self.old }
        ensures request { joined_request width beats.now ≡ Some self.new.request }
        ensures shape { IsRequest self.new.request }
        ensures response { self.new.response ≡ response_of (meaning device.old) self.new.request }
        ensures answers { RespondsTo self.new.request self.new.response }
        ensures device { meaning device.new ≡ devices.after_answer (meaning device.old) self.new.request }
        ensures addresses { devices.HaveSame (meaning device.new).held (meaning device.old).held }
        ensures large { spec.IsAsLarge self.new self.old }
    {
        self.gather(width, beats, head);
        self.ask(device);
    }

    /// Writes the beats of the response on a bus of `width` bytes, and answers how many there are.
    pub fn write_beats(&self, width: u32, into: &mut [DBeat]) -> usize
        requires width { IsTrue (is_width width) }
        requires request { IsRequest self.now.request }
        requires response { RespondsTo self.now.request self.now.response }
        requires room { 256 ≤ length into.old }
        ensures count { result ≡ length (spec.room_beats width self.now) }
        ensures beats { take result into.new ≡ spec.room_beats width self.now }
        ensures length { length into.new ≡ length into.old }
        ensures bound { result ≤ 256 }
    {
        let count = response_beats(self.response.op, self.response.size, width);
        for number in 0..count {
            into[number as usize] = d_beat(width, &self.request, &self.response, number);
        }
        count as usize
    }
}
