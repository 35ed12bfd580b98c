ghost use Rattle.std.specs.Prelude.{◌≡◌, ◌≤◌, ◌<◌, ◌+◌, ◌^◌, [], length, IfOk, IfErr, None, Some};
ghost use Rattle.toml.specs.View.{table_view, view, items_view};
ghost use Rattle.dip_lists.specs.First.{first};
ghost use Rattle.dip_graph.specs.Faults.{IsFaultAt};
ghost use Rattle.soc_stimulus.specs.Settings as spec;

use crate::limits::device_in;
use crate::ports::named_port;
use dip_graph::Fault;
use dip_lists::{Items, Memory};
use dip_names::Names;
use sim_ports::{Role, Setting, Settings};
use std::alloc::Global;
use tl_edge::PlanPort;
use toml::{Table, Value};

/// A device at a sink port.
#[derive(Clone, Copy, Debug, PartialEq, Eq)]
pub struct PlacedDevice {
    /// The sink port, by its number in the plan.
    pub port: u32,
    pub setting: Setting,
}

/// Devices at sink ports, in the order of the stimulus.
pub type PlacedDevices = Items<PlacedDevice>;

// The device at the sink port that its table names, if its numbers are within the limits and it names one.
fn device_at(names: &Names, sinks: &[PlanPort], table: &Table) -> Option<PlacedDevice>
    requires { length sinks.now ≤ 1024 }
    ensures { result ≡ spec.device_in_table names.now sinks.now (table_view table.now) }
{
    let numbers = device_in(table)?;
    let port = named_port(names, sinks, numbers.port, table)?;
    Some(PlacedDevice {
        port,
        setting: numbers.setting,
    })
}

// Whether one of some devices is at a port.
fn has_device_at(devices: &[PlacedDevice], port: u32) -> bool
    ensures { result ≡ spec.has_device_at devices.now port }
{
    for device in devices {
        if device.port == port {
            return true;
        }
    }
    false
}

// The device of a table at a sink port where none of these is.
fn device_after(
    names: &Names,
    sinks: &[PlanPort],
    earlier: &[PlacedDevice],
    value: &Value,
) -> Option<PlacedDevice>
    requires { length sinks.now ≤ 1024 }
    ensures { result ≡ spec.device_after names.now sinks.now earlier.now (view value.now) }
{
    let Value::Table(table) = value else {
        return None;
    };
    let device = device_at(names, sinks, table)?;
    if has_device_at(earlier, device.port) {
        return None;
    }
    Some(device)
}

/// The devices of some tables, the first of which is the entry `entry`. `Fault::Check` names rule 4 and the
/// first table that names no port of a sink, or one that an earlier table names.
pub fn placed_devices(
    alloc: Global,
    names: &Names,
    sinks: &[PlanPort],
    tables: &[Value],
    entry: u64,
) -> Result<PlacedDevices, Fault>
    requires sinks { length sinks.now ≤ 1024 }
    requires entries { entry + length tables.now < 2 ^ 64 }
    ensures ok { IfOk result (λ devices. spec.devices_from names.now sinks.now [] (items_view tables.now)
        ≡ Some devices) }
    ensures passes { IfOk result (λ _. first (spec.unnamed_devices names.now sinks.now [] entry
        (items_view tables.now)) ≡ None) }
    ensures err { IfErr result (IsFaultAt 4 (spec.unnamed_devices names.now sinks.now [] entry
        (items_view tables.now))) }
{
    let mut placed = Items::new(alloc);
    for (place, value) in tables.iter().enumerate() {
        let Some(device) = device_after(names, sinks, placed.as_slice(), value) else {
            return Err(Fault::Check {
                number: 4,
                subject: entry + place as u64,
            });
        };
        placed.push(device)?;
    }
    Ok(placed)
}

// The setting of the device at a port: a memory that does all requests where there is none.
fn setting_for(devices: &[PlacedDevice], port: u32) -> Setting
    ensures { result ≡ spec.setting_for devices.now port }
{
    for device in devices {
        if device.port == port {
            return device.setting;
        }
    }
    Setting {
        role: Role::Ram,
        delay: 0,
    }
}

/// A setting for each of so many sink ports.
pub fn settings_of(alloc: Global, devices: &[PlacedDevice], ports: u32) -> Result<Settings, Memory>
    ensures { IfOk result (λ settings. settings ≡ spec.settings_of devices.now ports) }
{
    let mut settings = Items::new(alloc);
    for port in 0..ports {
        settings.push(setting_for(devices, port))?;
    }
    Ok(settings)
}
