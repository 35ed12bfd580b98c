ghost use Rattle.std.specs.Prelude.{◌≡◌, ◌≤◌, ◌+◌, ◌*◌, length, map, vec_capacity};
ghost use Rattle.net_cells.specs.declared.netlist.Netlist.{Netlist};
ghost use Rattle.net_cells.specs.Rules.{IsWellFormed};
ghost use Rattle.sim_ports.specs.Prepared.{ArePrepared};
ghost use Rattle.sim_ports.specs.Sinks.{sinking};
ghost use Rattle.sim_events.specs.Setups.{Setup, run_events};
ghost use Rattle.sim_run.specs.Buffering.{FitsPorts};
ghost use Rattle.sim_run.specs.Cycles.{IsGood, StandsAfter};

use crate::buffers::Buffers;
use crate::telling_all::tell_all;
use sim_engine::Engine;
use sim_ports::{Device, Prepared, SinkDriver, SourceDriver, Stall};
use tl_edge::Event;

/// Runs one cycle: the drivers offer and take, the engine runs, and the drivers are told what happens.
/// Afterwards `shown` has the events of the cycle, in the order of a trace.
///
/// A beat that doesn't belong where it comes, since its id isn't busy or since it isn't the next one of a
/// request that the device may be asked, is neither told nor shown. It takes no memory.
pub fn run_cycle(
    engine: &mut Engine,
    buffers: &mut Buffers,
    sources: &mut [SourceDriver],
    sinks: &mut [SinkDriver],
    prepared: &[Prepared],
    stalls: &[Stall],
    shown: &mut Vec<Event>,
    cycle: u32,
)
    requires few_sources { length sources.old ≤ 1024 }
    requires few_sinks { length sinks.old ≤ 1024 }
    requires fits { FitsPorts buffers.old engine.old.netlist (length sources.old) (length sinks.old) }
    requires room { 2 * length sources.old + 2 * length sinks.old ≤ vec_capacity shown.old }
    requires well { IsWellFormed engine.old.netlist }
    requires prepared { ArePrepared prepared.now
        (map (λ driver. sinking
        ((⟦<dyn Device as Device>⟧ driver.device.vtable).meaning driver.device.value) driver.port)
        sinks.old) }
    ensures stands { (setup : Setup) (netlist : Netlist)
        → StandsAfter setup netlist cycle engine.old stalls.now sources.old
        (map (λ driver. sinking
        ((⟦<dyn Device as Device>⟧ driver.device.vtable).meaning driver.device.value) driver.port)
        sinks.old) → IsGood setup netlist cycle
        → StandsAfter setup netlist (cycle + 1) engine.new stalls.now sources.new
        (map (λ driver. sinking
        ((⟦<dyn Device as Device>⟧ driver.device.vtable).meaning driver.device.value) driver.port)
        sinks.new) }
    ensures events { (setup : Setup) (netlist : Netlist)
        → StandsAfter setup netlist cycle engine.old stalls.now sources.old
        (map (λ driver. sinking
        ((⟦<dyn Device as Device>⟧ driver.device.vtable).meaning driver.device.value) driver.port)
        sinks.old) → IsGood setup netlist cycle → shown.new.items ≡ run_events setup cycle }
    ensures netlist { engine.new.netlist ≡ engine.old.netlist }
    ensures prepared { ArePrepared prepared.now
        (map (λ driver. sinking
        ((⟦<dyn Device as Device>⟧ driver.device.vtable).meaning driver.device.value) driver.port)
        sinks.new) }
    ensures fits { FitsPorts buffers.new engine.new.netlist (length sources.new) (length sinks.new) }
    ensures same_sources { length sources.new ≡ length sources.old }
    ensures same_sinks { length sinks.new ≡ length sinks.old }
    ensures room { vec_capacity shown.new ≡ vec_capacity shown.old }
{
    buffers.turn(engine, sources, sinks, stalls, cycle);
    tell_all(sources, sinks, prepared, shown, cycle, buffers);
}
