ghost use Rattle.std.specs.Prelude.{◌≡◌, ◌≤◌, ◌<◌, length, map, IfOk, IsTrue};
ghost use Rattle.tl_params.specs.Arguments.{is_width};
ghost use Rattle.tl_edge.specs.Plans.{bus_width, edge_at};
ghost use Rattle.tl_edge.specs.SoundPlans.{IsSound};
ghost use Rattle.sim_ports.specs.Devices.{HasJust, started};
ghost use Rattle.sim_ports.specs.Sinks.{sinking, unasked};
ghost use Rattle.sim_drive.specs.Opening as spec;

use dip_lists::Memory;
use sim_ports::{Device, Prepared, Setting, SinkDriver, SinkPort};
use std::alloc::Global;
use tl_edge::{Plan, PlanPort};

// The driver of a sink port, whose device is prepared at these addresses.
fn prepared_sink(
    alloc: Global,
    mut device: Box<dyn Device>,
    width: u32,
    setting: Setting,
    addresses: &[u64],
) -> Result<SinkDriver, Memory>
    requires { IsTrue (is_width width) }
    ensures is { IfOk result (λ driver.
        sinking ((⟦<dyn Device as Device>⟧ driver.device.vtable).meaning driver.device.value) driver.port
        ≡ sinking
        (started ((⟦<dyn Device as Device>⟧ device.vtable).meaning device.value) setting.role addresses.now)
        (unasked width setting.delay)) }
    ensures has { IfOk result (λ driver. HasJust addresses.now
        ((⟦<dyn Device as Device>⟧ driver.device.vtable).meaning driver.device.value).held) }
{
    device.prepare(setting.role, addresses)?;
    let port = SinkPort::open(alloc, width, setting.delay)?;
    Ok(SinkDriver { device, port })
}

// The width of the bus at a port of a plan, in bytes.
fn width_at(plan: &Plan, at: &PlanPort) -> u32
    requires sound { IsSound plan.now }
    requires edge { at.now.edge < length plan.now.edges }
    ensures is { result ≡ bus_width (edge_at plan.now at.now.edge) }
    ensures width { IsTrue (is_width result) }
{
    let edge = &plan.edges.as_slice()[at.edge as usize];
    edge.bundle.data_bytes
}

/// The drivers of a plan's sink ports. The device of each is prepared once, in its role and at its addresses;
/// the devices behind these are dropped.
pub fn sink_drivers(
    alloc: Global,
    plan: &Plan,
    settings: &[Setting],
    prepared: &[Prepared],
    devices: Vec<Box<dyn Device>>,
) -> Result<Vec<SinkDriver>, Memory>
    requires sound { IsSound plan.now }
    requires settings { length settings.now ≡ length plan.now.sinks }
    requires prepared { length prepared.now ≡ length plan.now.sinks }
    requires devices { length plan.now.sinks ≤ length devices.items }
    ensures { IfOk result (λ drivers. spec.AreFresh (spec.answering plan.now settings.now
        (map (λ device. ((⟦<dyn Device as Device>⟧ device.vtable).meaning device.value).says) devices.items)
        (spec.addresses_of prepared.now))
        (map (λ driver. sinking
        ((⟦<dyn Device as Device>⟧ driver.device.vtable).meaning driver.device.value) driver.port)
        drivers.items)) }
{
    let sinks = plan.sinks.as_slice();
    let mut unused = devices.into_iter();
    let mut drivers = Vec::with_capacity(alloc, sinks.len())?;
    for port in 0..sinks.len() {
        let Some(device) = unused.next() else {
            unreachable!();
        };
        let width = width_at(plan, &sinks[port]);
        let addresses = prepared[port].addresses.as_slice();
        drivers.push(prepared_sink(alloc, device, width, settings[port], addresses)?)?;
    }
    Ok(drivers)
}
