ghost use Rattle.std.specs.Prelude.{◌≡◌, ◌≤◌, length, map};
ghost use Rattle.net_cells.specs.Rules.{IsWellFormed};
ghost use Rattle.sim_engine.specs.Running.{RunsCycle};
ghost use Rattle.sim_events.specs.Passing.{cycle_inputs};
ghost use Rattle.sim_run.specs.Buffering.{FitsPorts};
ghost use Rattle.sim_run.specs.Offering.{driver_offers, server_offers};
ghost use Rattle.sim_run.specs.Turning.{fitted, input_widths};

use crate::offering::{fill_sinks, fill_sources};
use crate::turning::turn;
use sim_engine::Engine;
use sim_events::{SinkOffer, SourceOffer};
use sim_ports::{SinkDriver, SourceDriver, Stall};

/// Room for what passes between the drivers and the engine of a run in a cycle.
#[derive(Drop)]
pub struct Buffers {
    /// The widths of the netlist's inputs.
    pub widths: Vec<u32>,
    /// The values of its inputs.
    pub inputs: Vec<u64>,
    /// The values of its outputs.
    pub outputs: Vec<u64>,
    /// What the source ports offer and take.
    pub sources: Vec<SourceOffer>,
    /// What the sink ports take and offer.
    pub sinks: Vec<SinkOffer>,
}

impl Buffers {
    /// Asks the drivers what they offer and take in a cycle, and runs the engine for a cycle with it. It
    /// takes no memory.
    pub fn turn(
        &mut self,
        engine: &mut Engine,
        sources: &[SourceDriver],
        sinks: &[SinkDriver],
        stalls: &[Stall],
        cycle: u32,
    )
        requires well { IsWellFormed engine.old.netlist }
        requires fits { FitsPorts self.old engine.old.netlist (length sources.now) (length sinks.now) }
        requires few_sources { length sources.now ≤ 1024 }
        requires few_sinks { length sinks.now ≤ 1024 }
        ensures sources { self.new.sources.items ≡ driver_offers stalls.now cycle 0 sources.now }
        ensures sinks { self.new.sinks.items
            ≡ server_offers stalls.now cycle 0 (map (λ driver. driver.port) sinks.now) }
        ensures cycle { RunsCycle engine.old (fitted (input_widths engine.old.netlist)
            (cycle_inputs self.new.sources.items self.new.sinks.items)) self.new.outputs.items engine.new }
        ensures netlist { engine.new.netlist ≡ engine.old.netlist }
        ensures as_many_sources { length self.new.sources.items ≡ length sources.now }
        ensures as_many_sinks { length self.new.sinks.items ≡ length sinks.now }
        ensures fits { FitsPorts self.new engine.new.netlist (length sources.now) (length sinks.now) }
    {
        fill_sources(&mut self.sources, stalls, cycle, sources);
        fill_sinks(&mut self.sinks, stalls, cycle, sinks);
        turn(
            engine,
            self.widths.as_slice(),
            &mut self.inputs,
            self.outputs.as_mut_slice(),
            self.sources.as_slice(),
            self.sinks.as_slice(),
        );
    }
}
