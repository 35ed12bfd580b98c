ghost use Rattle.std.specs.Prelude.{All, IfOk};
ghost use Rattle.sim_ports.specs.Sources.{MayBeSent};

use crate::ask::is_shaped;
use crate::made::{Fields, request_of};
use crate::words::name_of;
use dip_lists::{Items, Memory};
use sim_ports::SourceDriver;
use std::alloc::Global;
use std::fmt::Write;
use tl_edge::{ABeat, DBeat, Request, Requests};
use tl_params::{Ack, Numbers, Op};

// Adds a request at the end, if a port with two ids may send it.
fn add(requests: &mut Requests, request: Request) -> Result<(), Memory>
    requires { All (MayBeSent 2) requests.old }
    ensures { All (MayBeSent 2) requests.new }
{
    if !is_shaped(&request) {
        return Ok(());
    }
    if request.source >= 2 {
        return Ok(());
    }
    requests.push(request)?;
    Ok(())
}

// The fields of a request without flags.
fn fields(op: Op, size: u32, source: u32, address: u64, number: u64) -> Fields {
    Fields {
        op,
        param: 0,
        size,
        source,
        address,
        flags: 0,
        number,
    }
}

// A put of two beats, two gets and an intent.
fn requests(alloc: Global) -> Result<Requests, Memory>
    ensures { IfOk result (All (MayBeSent 2)) }
{
    let put = fields(Op::PutFull, 3, 0, 0x100, 0x0807_0605_0403_0201);
    let mut requests = Items::new(alloc);
    add(&mut requests, request_of(alloc, &put)?)?;
    add(
        &mut requests,
        request_of(alloc, &fields(Op::Get, 3, 1, 0x108, 0))?,
    )?;
    add(
        &mut requests,
        request_of(alloc, &fields(Op::Get, 2, 0, 0x10c, 0))?,
    )?;
    add(
        &mut requests,
        request_of(alloc, &fields(Op::Intent, 2, 1, 0x110, 0))?,
    )?;
    Ok(requests)
}

// From which cycle on each is offered.
fn starts(alloc: Global) -> Result<Numbers, Memory> {
    let mut starts = Items::new(alloc);
    starts.push(0)?;
    starts.push(5)?;
    starts.push(5)?;
    starts.push(12)?;
    Ok(starts)
}

/// A driver of the four requests, with two ids and on a bus of four bytes.
pub fn driver_opened(alloc: Global) -> Result<Option<SourceDriver>, Memory> {
    let requests = requests(alloc)?;
    let starts = starts(alloc)?;
    if requests.len() != starts.len() || requests.len() > 10000 {
        return Ok(None);
    }
    Ok(Some(SourceDriver::open(alloc, 4, 2, requests, starts)?))
}

// The offered beat enters, if there is one.
fn take(driver: &mut SourceDriver, cycle: u32) {
    if driver.offer(cycle, false).is_some() {
        driver.entered(cycle);
    }
}

// A beat with an id comes back, if one is to come.
fn come_back(driver: &mut SourceDriver, id: u32) -> bool {
    driver.try_return(&DBeat {
        op: Ack::Ack,
        size: 0,
        source: id,
        denied: false,
        payload: 0,
    })
}

// Writes what is offered.
fn show(text: &mut String, offer: Option<ABeat>) -> Result<(), Memory> {
    match offer {
        None => write!(text, " nothing")?,
        Some(beat) => write!(
            text,
            " {} of id {} at {:x} with {:x} and {:x}",
            name_of(beat.op),
            beat.source,
            beat.address,
            beat.mask,
            beat.payload
        )?,
    }
    Ok(())
}

/// Passes a cycle: what is offered enters where the way is free, and then a beat with an id may come back.
pub fn pass(
    driver: &mut SourceDriver,
    cycle: u32,
    way: &str,
    back: Option<u32>,
    text: &mut String,
) -> Result<(), Memory> {
    show(text, driver.offer(cycle, way == "stall"))?;
    if way == "take" {
        take(driver, cycle);
    }
    if let Some(id) = back {
        if !come_back(driver, id) {
            write!(text, ", none is to come")?;
        }
    }
    for id in 0..2 {
        if driver.is_busy(id) {
            write!(text, ", {id} is busy")?;
        }
    }
    Ok(write!(
        text,
        ", {} begun, {} finished",
        driver.begun(),
        driver.finished()
    )?)
}
