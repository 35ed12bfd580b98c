ghost use Rattle.std.specs.Prelude.{IfOk, IsTrue};
ghost use Rattle.tl_params.specs.Arguments.{is_width};
ghost use Rattle.tl_edge.specs.Messages.{AreBytes};
ghost use Rattle.sim_ports.specs.Sinks.{sinking};
ghost use Rattle.port_tests.specs.SinkTest as spec;

use crate::ask::may_be_asked;
use crate::made::{Fields, request_of, room_of};
use crate::words::{PortStep, ack_name, port_step_of};
use dip_lists::Memory;
use sim_ports::{Device, Role, SinkDriver, SinkPort};
use std::alloc::Global;
use std::fmt::Write;
use tl_edge::{DBeat, Request, a_beat, beats};
use tl_params::Op;

/// A sink port of a test: the bytes of its bus, its driver, the addresses of its device, and the request
/// whose beats leave there.
#[derive(Drop)]
pub struct Served {
    pub width: u32,
    pub driver: SinkDriver,
    pub addresses: Vec<u64>,
    pub request: Request,
    /// Whether beats of the request are still to leave.
    pub is_asking: bool,
}

/// How a sink port is opened.
#[derive(Clone, Copy)]
pub struct Opening {
    pub width: u32,
    pub delay: u32,
    pub role: Role,
}

// The addresses of the device: 64 from 0x100 on.
fn sixty_four(alloc: Global) -> Result<Vec<u64>, Memory> {
    let mut addresses = Vec::new(alloc);
    for more in 0..64 {
        addresses.push(0x100 + more)?;
    }
    Ok(addresses)
}

// A request that stands where none was asked yet.
fn blank(alloc: Global) -> Result<Request, Memory>
    ensures { IfOk result (λ request. AreBytes request.payload) }
{
    let fields = Fields {
        op: Op::Get,
        param: 0,
        size: 0,
        source: 0,
        address: 0x100,
        flags: 0,
        number: 0,
    };
    request_of(alloc, &fields)
}

/// A sink port at which nothing has happened, with a device.
pub fn opened(
    alloc: Global,
    opening: Opening,
    mut device: Box<dyn Device>,
) -> Result<Served, Memory>
    requires { IsTrue (is_width opening.width) }
    ensures { IfOk result (λ s. spec.IsServed s.width s.addresses.items s.request
        (sinking ((⟦<dyn Device as Device>⟧ s.driver.device.vtable).meaning s.driver.device.value)
        s.driver.port)) }
{
    let addresses = sixty_four(alloc)?;
    let request = blank(alloc)?;
    let port = SinkPort::open(alloc, opening.width, opening.delay)?;
    device.prepare(opening.role, addresses.as_slice())?;
    Ok(Served {
        width: opening.width,
        driver: SinkDriver { device, port },
        addresses,
        request,
        is_asking: false,
    })
}

// The next beat of the request leaves, if one is to leave, the port takes, and the device may be asked.
fn leave(served: &mut Served, cycle: u32) -> bool
    requires { spec.IsServed served.old.width served.old.addresses.items served.old.request
        (sinking ((⟦<dyn Device as Device>⟧ served.old.driver.device.vtable).meaning
        served.old.driver.device.value) served.old.driver.port) }
    ensures { spec.IsServed served.new.width served.new.addresses.items served.new.request
        (sinking ((⟦<dyn Device as Device>⟧ served.new.driver.device.vtable).meaning
        served.new.driver.device.value) served.new.driver.port) }
{
    if !served.is_asking || !served.driver.takes(false) {
        return false;
    }
    let room = room_of(&served.request);
    if !may_be_asked(served.addresses.as_slice(), &served.request, room) {
        return false;
    }
    let number = served.driver.port.taken().len();
    let count = beats(served.request.op, served.request.size, served.width);
    if number >= count as usize {
        return false;
    }
    let beat = a_beat(served.width, &served.request, number as u32);
    served.driver.left(cycle, &beat);
    served.is_asking = number + 1 < count as usize;
    true
}

// The beat that is offered passes, if there is one.
fn reply(served: &mut Served, cycle: u32)
    requires { spec.IsServed served.old.width served.old.addresses.items served.old.request
        (sinking ((⟦<dyn Device as Device>⟧ served.old.driver.device.vtable).meaning
        served.old.driver.device.value) served.old.driver.port) }
    ensures { spec.IsServed served.new.width served.new.addresses.items served.new.request
        (sinking ((⟦<dyn Device as Device>⟧ served.new.driver.device.vtable).meaning
        served.new.driver.device.value) served.new.driver.port) }
{
    if served.driver.offer(cycle, false).is_some() {
        served.driver.replied(cycle);
    }
}

// What happened at the port in a cycle.
#[derive(Clone, Copy)]
struct Passed {
    takes: bool,
    offer: Option<DBeat>,
    left: bool,
}

// Passes a cycle: what is offered passes where the port isn't stalled on channel D, and where it takes the
// next beat leaves.
fn pass(served: &mut Served, cycle: u32, way: &str) -> Passed
    requires { spec.IsServed served.old.width served.old.addresses.items served.old.request
        (sinking ((⟦<dyn Device as Device>⟧ served.old.driver.device.vtable).meaning
        served.old.driver.device.value) served.old.driver.port) }
    ensures { spec.IsServed served.new.width served.new.addresses.items served.new.request
        (sinking ((⟦<dyn Device as Device>⟧ served.new.driver.device.vtable).meaning
        served.new.driver.device.value) served.new.driver.port) }
{
    let takes = served.driver.takes(way == "a" || way == "ad");
    let offer = served.driver.offer(cycle, way == "d" || way == "ad");
    if offer.is_some() {
        reply(served, cycle);
    }
    let left = takes && leave(served, cycle);
    Passed { takes, offer, left }
}

// The next request, if all beats of the last one have left.
fn ask_next(alloc: Global, served: &mut Served, fields: &Fields) -> Result<(), Memory>
    requires { spec.IsServed served.old.width served.old.addresses.items served.old.request
        (sinking ((⟦<dyn Device as Device>⟧ served.old.driver.device.vtable).meaning
        served.old.driver.device.value) served.old.driver.port) }
    ensures { spec.IsServed served.new.width served.new.addresses.items served.new.request
        (sinking ((⟦<dyn Device as Device>⟧ served.new.driver.device.vtable).meaning
        served.new.driver.device.value) served.new.driver.port) }
{
    let request = request_of(alloc, fields)?;
    if served.driver.port.taken().is_empty() {
        served.request = request;
        served.is_asking = true;
    }
    Ok(())
}

// Writes what happened at the port in a cycle.
fn show_passed(text: &mut String, passed: Passed) -> Result<(), Memory> {
    text.push_str(if passed.takes { " takes" } else { " waits" })?;
    if passed.left {
        text.push_str(", a beat leaves")?;
    }
    if let Some(beat) = passed.offer {
        let denied = if beat.denied { " denied" } else { "" };
        write!(
            text,
            ", offers {} {} of id {}",
            ack_name(beat.op),
            beat.size,
            beat.source
        )?;
        write!(text, "{denied} with {:x}", beat.payload)?;
    }
    Ok(())
}

// Does what a part of a line says: `ask` and the fields of the next request, or the number of a cycle and on
// which channels the port is stalled in it.
fn do_part(alloc: Global, served: &mut Served, part: &str, text: &mut String) -> Result<(), Memory>
    requires { spec.IsServed served.old.width served.old.addresses.items served.old.request
        (sinking ((⟦<dyn Device as Device>⟧ served.old.driver.device.vtable).meaning
        served.old.driver.device.value) served.old.driver.port) }
    ensures { spec.IsServed served.new.width served.new.addresses.items served.new.request
        (sinking ((⟦<dyn Device as Device>⟧ served.new.driver.device.vtable).meaning
        served.new.driver.device.value) served.new.driver.port) }
{
    match port_step_of(part) {
        PortStep::Ask(fields) => ask_next(alloc, served, &fields),
        PortStep::Cycle(cycle) => {
            let passed = pass(served, cycle.cycle, cycle.way);
            show_passed(text, passed)
        }
    }
}

/// Does the parts of a line at a sink port, with a line of text for each.
pub fn do_parts(
    alloc: Global,
    served: &mut Served,
    parts: &str,
    text: &mut String,
) -> Result<(), Memory>
    requires { spec.IsServed served.old.width served.old.addresses.items served.old.request
        (sinking ((⟦<dyn Device as Device>⟧ served.old.driver.device.vtable).meaning
        served.old.driver.device.value) served.old.driver.port) }
{
    for part in parts.split(';') {
        let part = part.trim();
        write!(text, "\n  {part} ->")?;
        do_part(alloc, served, part, text)?;
    }
    Ok(())
}
