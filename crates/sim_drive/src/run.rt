ghost use Rattle.std.specs.Prelude.{◌≡◌, ◌≤◌, ◌+◌, ◌-◌, ◌<◌, ℕ, All, IfErr, IfOk, IsErr, length, map, vec_len};
ghost use Rattle.tl_edge.specs.SoundPlans.{IsSound};
ghost use Rattle.net_cells.specs.declared.netlist.Netlist.{Netlist};
ghost use Rattle.net_cells.specs.Loops.{HasNoLoop};
ghost use Rattle.net_cells.specs.Rules.{IsWellFormed};
ghost use Rattle.net_ports.specs.Implementing.{Implements};
ghost use Rattle.sim_engine.specs.Running.{opened};
ghost use Rattle.sim_ports.specs.Sinks.{sinking};
ghost use Rattle.sim_events.specs.Setups.{Setup, run_events};
ghost use Rattle.soc_stimulus.specs.Stimuli.{IsLegalAsked};
ghost use Rattle.sim_run.specs.Cycles.{IsGood};
ghost use Rattle.sim_drive.specs.Runs.{IsRunFaultOf, IsRunnable, IsRunOf};
ghost use Rattle.sim_drive.specs.Setting.{setup_of};
ghost use Rattle.sim_drive.specs.Totals.{AreTotals};

use crate::fault::RunFault;
use crate::preparing::prepared_for;
use crate::room::{buffers_for, room_for_events};
use crate::scripts::source_drivers;
use crate::sinks::sink_drivers;
use crate::totals::{requests_begun, requests_returned, with_data};
use dip_lists::Memory;
use net_cells::Netlist;
use sim_engine::{Engine, EngineFault};
use sim_ports::{Device, Prepared, SinkDriver, SourceDriver, Stalls};
use sim_run::{Buffers, run_cycle};
use soc_report::Totals;
use soc_stimulus::Stimulus;
use std::alloc::Global;
use tl_edge::{Event, Plan};

/// A run of a netlist with the drivers and devices of a stimulus.
#[derive(Drop)]
pub struct Run {
    /// The netlist, with what its registers hold.
    pub engine: Engine,
    /// Room for what passes between the drivers and the engine.
    pub buffers: Buffers,
    /// The drivers of the source ports.
    pub sources: Vec<SourceDriver>,
    /// The drivers of the sink ports.
    pub sinks: Vec<SinkDriver>,
    /// The addresses at which the device of each sink port was prepared.
    pub prepared: Vec<Prepared>,
    pub stalls: Stalls,
    /// The events of the last cycle.
    pub shown: Vec<Event>,
    /// How many cycles have run.
    pub ran: u32,
    /// How many cycles the run has.
    pub cycles: u32,
    /// The sum of the bytes that have been returned, modulo 2^64.
    pub sum: u64,
}

// The engine of a netlist in which no net depends on itself.
fn engine_of(alloc: Global, netlist: Netlist) -> Result<Engine, Memory>
    requires well { IsWellFormed netlist }
    requires no_loop { HasNoLoop netlist }
    ensures { IfOk result (λ engine. engine ≡ opened netlist) }
{
    match Engine::open(alloc, netlist) {
        Ok(engine) => Ok(engine),
        Err(EngineFault::Loop { .. }) => unreachable!(),
        Err(EngineFault::Memory) => Err(Memory),
    }
}

// A run that is to begin, where there are enough devices.
fn run_of(
    alloc: Global,
    plan: &Plan,
    netlist: Netlist,
    stimulus: Stimulus,
    devices: Vec<Box<dyn Device>>,
) -> Result<Run, Memory>
    requires sound { IsSound plan.now }
    requires well { IsWellFormed netlist }
    requires no_loop { HasNoLoop netlist }
    requires implements { Implements plan.now netlist }
    requires few { length stimulus.requests ≤ 10000 }
    requires legal { All (IsLegalAsked plan.now) stimulus.requests }
    requires settings { length stimulus.devices ≡ length plan.now.sinks }
    requires devices { length plan.now.sinks ≤ vec_len devices }
    ensures ready { IfOk result (λ run. IsRunnable run
        (map (λ driver. sinking
        ((⟦<dyn Device as Device>⟧ driver.device.vtable).meaning driver.device.value) driver.port)
        run.sinks.items)) }
    ensures is { IfOk result (λ run. IsRunOf (setup_of plan.now stimulus
        (map (λ device. ((⟦<dyn Device as Device>⟧ device.vtable).meaning device.value).says) devices.items))
        netlist 0 run
        (map (λ driver. sinking
        ((⟦<dyn Device as Device>⟧ driver.device.vtable).meaning driver.device.value) driver.port)
        run.sinks.items)) }
    ensures cycles { IfOk result (λ run. run.cycles ≡ stimulus.cycles) }
{
    let prepared = prepared_for(alloc, plan, stimulus.requests.as_slice())?;
    let sinks = sink_drivers(
        alloc,
        plan,
        stimulus.devices.as_slice(),
        prepared.as_slice(),
        devices,
    )?;
    Ok(Run {
        buffers: buffers_for(alloc, plan, &netlist)?,
        sources: source_drivers(alloc, plan, stimulus.requests)?,
        sinks,
        prepared,
        stalls: stimulus.stalls,
        shown: room_for_events(alloc, plan.sources.len(), plan.sinks.len())?,
        ran: 0,
        cycles: stimulus.cycles,
        sum: 0,
        engine: engine_of(alloc, netlist)?,
    })
}

impl Run {
    /// A run that is to begin. It takes all memory of the run. The device of each sink port of the plan is
    /// prepared once, with the role of its setting, at the addresses of all bytes of the requests that go
    /// there; the devices behind these are dropped.
    ///
    /// It answers `NoDevice` exactly where there are fewer devices than sink ports.
    pub fn open(
        alloc: Global,
        plan: &Plan,
        netlist: Netlist,
        stimulus: Stimulus,
        devices: Vec<Box<dyn Device>>,
    ) -> Result<Run, RunFault>
        requires sound { IsSound plan.now }
        requires well { IsWellFormed netlist }
        requires no_loop { HasNoLoop netlist }
        requires implements { Implements plan.now netlist }
        requires few { length stimulus.requests ≤ 10000 }
        requires legal { All (IsLegalAsked plan.now) stimulus.requests }
        requires settings { length stimulus.devices ≡ length plan.now.sinks }
        ensures fault { IfErr result (IsRunFaultOf (length plan.now.sinks) (vec_len devices)) }
        ensures too_few { vec_len devices < length plan.now.sinks → IsErr result }
        ensures ready { IfOk result (λ run. IsRunnable run
            (map (λ driver. sinking
            ((⟦<dyn Device as Device>⟧ driver.device.vtable).meaning driver.device.value) driver.port)
            run.sinks.items)) }
        ensures is { IfOk result (λ run. IsRunOf (setup_of plan.now stimulus
            (map (λ device. ((⟦<dyn Device as Device>⟧ device.vtable).meaning device.value).says)
            devices.items)) netlist 0 run
            (map (λ driver. sinking
            ((⟦<dyn Device as Device>⟧ driver.device.vtable).meaning driver.device.value) driver.port)
            run.sinks.items)) }
        ensures cycles { IfOk result (λ run. run.cycles ≡ stimulus.cycles) }
    {
        let needed = plan.sinks.len() as u64;
        let given = devices.len() as u64;
        if given < needed {
            return Err(RunFault::NoDevice { needed, given });
        }
        Ok(run_of(alloc, plan, netlist, stimulus, devices)?)
    }

    /// How many cycles are still to run.
    pub fn cycles_left(&self) -> u32
        ensures { result ≡ self.now.cycles - self.now.ran }
    {
        self.cycles.saturating_sub(self.ran)
    }

    /// Runs one cycle. It takes no memory.
    pub fn cycle(&mut self)
        requires left { self.old.ran < self.old.cycles }
        requires ready { IsRunnable self.old
            (map (λ driver. sinking
            ((⟦<dyn Device as Device>⟧ driver.device.vtable).meaning driver.device.value) driver.port)
            self.old.sinks.items) }
        ensures ready { IsRunnable self.new
            (map (λ driver. sinking
            ((⟦<dyn Device as Device>⟧ driver.device.vtable).meaning driver.device.value) driver.port)
            self.new.sinks.items) }
        ensures is { (setup : Setup) (netlist : Netlist) (cycle : ℕ)
            → IsRunOf setup netlist cycle self.old
            (map (λ driver. sinking
            ((⟦<dyn Device as Device>⟧ driver.device.vtable).meaning driver.device.value) driver.port)
            self.old.sinks.items) → IsGood setup netlist cycle
            → IsRunOf setup netlist (cycle + 1) self.new
            (map (λ driver. sinking
            ((⟦<dyn Device as Device>⟧ driver.device.vtable).meaning driver.device.value) driver.port)
            self.new.sinks.items) }
        ensures events { (setup : Setup) (netlist : Netlist) (cycle : ℕ)
            → IsRunOf setup netlist cycle self.old
            (map (λ driver. sinking
            ((⟦<dyn Device as Device>⟧ driver.device.vtable).meaning driver.device.value) driver.port)
            self.old.sinks.items) → IsGood setup netlist cycle
            → self.new.shown.items ≡ run_events setup cycle }
        ensures ran { self.new.ran ≡ self.old.ran + 1 }
        ensures cycles { self.new.cycles ≡ self.old.cycles }
    {
        run_cycle(
            &mut self.engine,
            &mut self.buffers,
            self.sources.as_mut_slice(),
            self.sinks.as_mut_slice(),
            self.prepared.as_slice(),
            self.stalls.as_slice(),
            &mut self.shown,
            self.ran,
        );
        self.sum = with_data(self.sum, self.shown.as_slice());
        self.ran += 1;
    }

    /// The events of the last cycle, in the order of a trace.
    pub fn events(&self) -> &[Event]
        ensures { result.now ≡ self.now.shown.items }
    {
        self.shown.as_slice()
    }

    /// What the run has come to. Its devices are dropped.
    pub fn finish(self) -> Totals
        requires { IsRunnable self
            (map (λ driver. sinking
            ((⟦<dyn Device as Device>⟧ driver.device.vtable).meaning driver.device.value) driver.port)
            self.sinks.items) }
        ensures cycles { result.cycles ≡ self.ran }
        ensures totals { (setup : Setup) (netlist : Netlist) (cycle : ℕ)
            → IsRunOf setup netlist cycle self
            (map (λ driver. sinking
            ((⟦<dyn Device as Device>⟧ driver.device.vtable).meaning driver.device.value) driver.port)
            self.sinks.items) → AreTotals setup netlist cycle result }
    {
        Totals {
            cycles: self.ran,
            begun: requests_begun(self.sources.as_slice()),
            returned: requests_returned(self.sources.as_slice()),
            sum: self.sum,
            state: self.engine.state(),
        }
    }
}
