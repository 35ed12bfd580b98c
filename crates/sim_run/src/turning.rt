ghost use Rattle.std.specs.Prelude.{◌≡◌, ◌≤◌, ◌<◌, ◌+◌, ◌*◌, ◌^◌, length, nat_lt, vec_capacity};
ghost use Rattle.net_cells.specs.Rules.{IsWellFormed};
ghost use Rattle.sim_engine.specs.Running.{RunsCycle};
ghost use Rattle.sim_events.specs.Passing.{cycle_inputs};
ghost use Rattle.sim_run.specs.Turning as spec;

use sim_engine::Engine;
use sim_events::{SinkOffer, SourceOffer, write_inputs};

// Whether a value fits so many bits.
fn fits(width: u32, value: u64) -> bool
    ensures { result ≡ nat_lt value (2 ^ width) }
{
    if width >= 64 {
        true
    } else {
        value < 1 << width
    }
}

// A value that fits so many bits, and else 0.
fn fitted_value(width: u32, value: u64) -> u64
    ensures { result ≡ spec.fitted_value width value }
{
    if fits(width, value) { value } else { 0 }
}

// Fits each of some values to its width.
fn fit(widths: &[u32], values: &mut [u64])
    requires { length widths.now ≡ length values.old }
    ensures { values.new ≡ spec.fitted widths.now values.old }
{
    for place in 0..widths.len() {
        values[place] = fitted_value(widths[place], values[place]);
    }
}

// The values of a netlist's inputs in a cycle in which its ports offer and take this, each fitted to its
// input's width.
fn fill_inputs(inputs: &mut Vec<u64>, widths: &[u32], sources: &[SourceOffer], sinks: &[SinkOffer])
    requires many { length widths.now ≡ 1 + 9 * length sources.now + 7 * length sinks.now }
    requires room { length widths.now ≤ vec_capacity inputs.old }
    ensures inputs { inputs.new.items ≡ spec.fitted widths.now (cycle_inputs sources.now sinks.now) }
    ensures long { length inputs.new.items ≡ length widths.now }
    ensures many { length widths.now ≡ length (cycle_inputs sources.now sinks.now) }
    ensures room { vec_capacity inputs.new ≡ vec_capacity inputs.old }
{
    write_inputs(inputs, sources, sinks);
    fit(widths, inputs.as_mut_slice());
}

/// Runs an engine for one cycle in which its ports offer and take this: the inputs get its values, those that
/// don't fit their inputs' widths apart, for which 0 stands; the outputs are filled. It takes no memory.
pub fn turn(
    engine: &mut Engine,
    widths: &[u32],
    inputs: &mut Vec<u64>,
    outputs: &mut [u64],
    sources: &[SourceOffer],
    sinks: &[SinkOffer],
)
    requires well { IsWellFormed engine.old.netlist }
    requires widths { widths.now ≡ spec.input_widths engine.old.netlist }
    requires inputs { length widths.now ≡ 1 + 9 * length sources.now + 7 * length sinks.now }
    requires room { length widths.now ≤ vec_capacity inputs.old }
    requires outputs { length outputs.old ≡ length engine.old.netlist.outputs }
    ensures cycle { RunsCycle engine.old (spec.fitted widths.now (cycle_inputs sources.now sinks.now))
        outputs.new engine.new }
    ensures room { vec_capacity inputs.new ≡ vec_capacity inputs.old }
    ensures outputs { length outputs.new ≡ length outputs.old }
    ensures netlist { engine.new.netlist ≡ engine.old.netlist }
{
    fill_inputs(inputs, widths, sources, sinks);
    engine.cycle(inputs.as_slice(), outputs);
}
