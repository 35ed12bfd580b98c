ghost use Rattle.std.specs.Prelude.{◌≡◌, ◌≤◌, ◌+◌, ◌*◌, ◌++◌, drop, length, map, vec_len, vec_capacity};
ghost use Rattle.sim_ports.specs.Prepared.{ArePrepared};
ghost use Rattle.sim_ports.specs.Sinks.{sinking};
ghost use Rattle.sim_events.specs.Reading.{events_read, past_sources};
ghost use Rattle.sim_run.specs.Telling as spec;

use crate::buffers::Buffers;
use crate::telling::{tell_sinks, tell_sources};
use sim_ports::{Device, Prepared, SinkDriver, SourceDriver};
use tl_edge::Event;

/// Tells all drivers what happens in a cycle and may be told, by what the ports offer and take and by the
/// outputs of the netlist. Afterwards `shown` has the events that were told, in the order of a trace. It
/// takes no memory.
pub fn tell_all(
    sources: &mut [SourceDriver],
    sinks: &mut [SinkDriver],
    prepared: &[Prepared],
    shown: &mut Vec<Event>,
    cycle: u32,
    buffers: &Buffers,
)
    requires few_sources { length sources.old ≤ 1024 }
    requires few_sinks { length sinks.old ≤ 1024 }
    requires sources { length buffers.now.sources.items ≡ length sources.old }
    requires sinks { length buffers.now.sinks.items ≡ length sinks.old }
    requires outputs { length buffers.now.outputs.items ≡ 7 * length sources.old + 9 * length sinks.old }
    requires room { 2 * length sources.old + 2 * length sinks.old ≤ vec_capacity shown.old }
    requires offering { spec.AreOffering cycle buffers.now.sources.items sources.old }
    requires serving { spec.AllServing cycle buffers.now.sinks.items
        (map (λ driver. driver.port) sinks.old) }
    requires prepared { ArePrepared prepared.now (map (λ driver. sinking
        ((⟦<dyn Device as Device>⟧ driver.device.vtable).meaning driver.device.value) driver.port)
        sinks.old) }
    ensures events { spec.AllHear cycle buffers.now.sources.items buffers.now.outputs.items
        (length sources.old) sources.old
        → spec.AllMayServe cycle buffers.now.sinks.items
        (past_sources (length buffers.now.sources.items) buffers.now.outputs.items) (map (λ driver. sinking
        ((⟦<dyn Device as Device>⟧ driver.device.vtable).meaning driver.device.value) driver.port)
        sinks.old) → shown.new.items
        ≡ events_read cycle buffers.now.sources.items buffers.now.sinks.items buffers.now.outputs.items }
    ensures heard { spec.AllHeard cycle buffers.now.sources.items buffers.now.outputs.items
        (length sources.old) sources.old sources.new }
    ensures served { spec.AllMayServe cycle buffers.now.sinks.items
        (past_sources (length buffers.now.sources.items) buffers.now.outputs.items) (map (λ driver. sinking
        ((⟦<dyn Device as Device>⟧ driver.device.vtable).meaning driver.device.value) driver.port)
        sinks.old) → spec.AllServed cycle buffers.now.sinks.items
        (past_sources (length buffers.now.sources.items) buffers.now.outputs.items) (length sinks.old)
        (map (λ driver. sinking
        ((⟦<dyn Device as Device>⟧ driver.device.vtable).meaning driver.device.value) driver.port)
        sinks.old) (map (λ driver. sinking
        ((⟦<dyn Device as Device>⟧ driver.device.vtable).meaning driver.device.value) driver.port)
        sinks.new) }
    ensures prepared { ArePrepared prepared.now (map (λ driver. sinking
        ((⟦<dyn Device as Device>⟧ driver.device.vtable).meaning driver.device.value) driver.port)
        sinks.new) }
    ensures same_sources { length sources.new ≡ length sources.old }
    ensures same_sinks { length sinks.new ≡ length sinks.old }
    ensures room { vec_capacity shown.new ≡ vec_capacity shown.old }
{
    let behind = 7 * sources.len();
    let outputs = buffers.outputs.as_slice();
    shown.clear();
    tell_sources(sources, shown, cycle, buffers.sources.as_slice(), outputs);
    tell_sinks(
        sinks,
        prepared,
        shown,
        cycle,
        buffers.sinks.as_slice(),
        &outputs[behind..],
    );
}
