ghost use Rattle.std.specs.Prelude.{IfOk, IsTrue};
ghost use Rattle.tl_params.specs.Arguments.{is_width};
ghost use Rattle.sim_ports.specs.Prepared.{AreRising, IsPreparedAt};
ghost use Rattle.sim_ports.specs.Sinks.{sinking};

use crate::made::Fields;
use crate::served::Opening;
use crate::words::{ack_name, fields_of};
use dip_lists::{Items, Memory};
use sim_ports::{Device, Prepared, SinkDriver, SinkPort};
use std::alloc::Global;
use std::fmt::Write;
use tl_edge::ABeat;

/// A sink port of a test to which any beat may come: its driver, and the addresses of its device.
#[derive(Drop)]
pub struct Tried {
    pub driver: SinkDriver,
    pub prepared: Prepared,
}

// The addresses of the device: 64 from 0x100 on.
fn in_a_row(alloc: Global) -> Result<Prepared, Memory>
    ensures { IfOk result (λ prepared. AreRising prepared.addresses) }
{
    let mut addresses = Items::new(alloc);
    for more in 0..64 {
        addresses.push(0x100 + more)?;
    }
    Ok(Prepared { addresses })
}

/// A sink port at which nothing has happened, with a device.
pub fn tried_open(
    alloc: Global,
    opening: Opening,
    mut device: Box<dyn Device>,
) -> Result<Tried, Memory>
    requires { IsTrue (is_width opening.width) }
    ensures { IfOk result (λ t. IsPreparedAt t.prepared.addresses
        (sinking ((⟦<dyn Device as Device>⟧ t.driver.device.vtable).meaning t.driver.device.value)
        t.driver.port)) }
{
    let prepared = in_a_row(alloc)?;
    let port = SinkPort::open(alloc, opening.width, opening.delay)?;
    device.prepare(opening.role, prepared.addresses.as_slice())?;
    Ok(Tried {
        driver: SinkDriver { device, port },
        prepared,
    })
}

// The beat with these fields, whose mask and data are the flags and the bytes.
fn beat_of(fields: &Fields) -> ABeat {
    ABeat {
        op: fields.op,
        param: fields.param,
        size: fields.size,
        source: fields.source,
        address: fields.address,
        mask: fields.flags,
        payload: fields.number,
    }
}

// A beat comes: whether it is taken.
fn comes(tried: &mut Tried, beat: &ABeat) -> bool
    requires { IsPreparedAt tried.old.prepared.addresses
        (sinking ((⟦<dyn Device as Device>⟧ tried.old.driver.device.vtable).meaning
        tried.old.driver.device.value) tried.old.driver.port) }
    ensures { IsPreparedAt tried.new.prepared.addresses
        (sinking ((⟦<dyn Device as Device>⟧ tried.new.driver.device.vtable).meaning
        tried.new.driver.device.value) tried.new.driver.port) }
{
    tried.driver.try_leave(0, beat, &tried.prepared)
}

// The beat that is offered passes, if there is one.
fn passes(tried: &mut Tried)
    requires { IsPreparedAt tried.old.prepared.addresses
        (sinking ((⟦<dyn Device as Device>⟧ tried.old.driver.device.vtable).meaning
        tried.old.driver.device.value) tried.old.driver.port) }
    ensures { IsPreparedAt tried.new.prepared.addresses
        (sinking ((⟦<dyn Device as Device>⟧ tried.new.driver.device.vtable).meaning
        tried.new.driver.device.value) tried.new.driver.port) }
{
    if tried.driver.offer(1, false).is_some() {
        tried.driver.replied(1);
    }
}

// Writes how the port stands: how many beats of a request have left, and what is offered.
fn show_standing(text: &mut String, tried: &Tried) -> Result<(), Memory> {
    write!(text, ", {} there", tried.driver.port.taken().len())?;
    if let Some(beat) = tried.driver.offer(1, false) {
        let denied = if beat.denied { " denied" } else { "" };
        write!(text, ", offers {} {}", ack_name(beat.op), beat.size)?;
        write!(
            text,
            " of id {}{denied} with {:x}",
            beat.source, beat.payload
        )?;
    }
    Ok(())
}

// Does what a part of a line says: `pass`, or the fields of a beat that comes.
fn act(tried: &mut Tried, part: &str) -> &'static str
    requires { IsPreparedAt tried.old.prepared.addresses
        (sinking ((⟦<dyn Device as Device>⟧ tried.old.driver.device.vtable).meaning
        tried.old.driver.device.value) tried.old.driver.port) }
    ensures { IsPreparedAt tried.new.prepared.addresses
        (sinking ((⟦<dyn Device as Device>⟧ tried.new.driver.device.vtable).meaning
        tried.new.driver.device.value) tried.new.driver.port) }
{
    if part == "pass" {
        passes(tried);
        " passes"
    } else if comes(tried, &beat_of(&fields_of(part))) {
        " leaves"
    } else {
        " is refused"
    }
}

// Does a part of a line, and writes what came of it.
fn try_part(tried: &mut Tried, part: &str, text: &mut String) -> Result<(), Memory>
    requires { IsPreparedAt tried.old.prepared.addresses
        (sinking ((⟦<dyn Device as Device>⟧ tried.old.driver.device.vtable).meaning
        tried.old.driver.device.value) tried.old.driver.port) }
    ensures { IsPreparedAt tried.new.prepared.addresses
        (sinking ((⟦<dyn Device as Device>⟧ tried.new.driver.device.vtable).meaning
        tried.new.driver.device.value) tried.new.driver.port) }
{
    let did = act(tried, part);
    text.push_str(did)?;
    show_standing(text, tried)
}

/// Does the parts of a line at a sink port, with a line of text for each.
pub fn try_parts(tried: &mut Tried, parts: &str, text: &mut String) -> Result<(), Memory>
    requires { IsPreparedAt tried.old.prepared.addresses
        (sinking ((⟦<dyn Device as Device>⟧ tried.old.driver.device.vtable).meaning
        tried.old.driver.device.value) tried.old.driver.port) }
{
    for part in parts.split(';') {
        let part = part.trim();
        write!(text, "\n  {part} ->")?;
        try_part(tried, part, text)?;
    }
    Ok(())
}
