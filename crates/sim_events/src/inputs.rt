ghost use Rattle.std.specs.Prelude.{◌≡◌, ◌≤◌, ◌+◌, ◌*◌, ◌++◌, length, vec_len, vec_capacity};
ghost use Rattle.sim_events.specs.Passing as spec;

use crate::types::{SinkOffer, SourceOffer};
use tl_edge::{ABeat, DBeat, a_fields, d_fields};

// Puts values at the end, for which there is room.
fn add_values(inputs: &mut Vec<u64>, values: &[u64])
    requires { vec_len inputs.old + length values.now ≤ vec_capacity inputs.old }
    ensures values { inputs.new.items ≡ inputs.old.items ++ values.now }
    ensures room { vec_capacity inputs.new ≡ vec_capacity inputs.old }
{
    for value in values {
        inputs.push_reserved(*value);
    }
}

// Puts the values of the wires of a request at the end: of the beat that is offered, or zeros.
fn add_request(inputs: &mut Vec<u64>, beat: Option<ABeat>)
    requires { vec_len inputs.old + 8 ≤ vec_capacity inputs.old }
    ensures values { inputs.new.items ≡ inputs.old.items ++ spec.offered_request beat }
    ensures room { vec_capacity inputs.new ≡ vec_capacity inputs.old }
    ensures long { vec_len inputs.new ≡ vec_len inputs.old + 8 }
{
    match beat {
        Some(beat) => {
            inputs.push_reserved(1);
            add_values(inputs, &a_fields(beat));
        }
        None => add_values(inputs, &[0, 0, 0, 0, 0, 0, 0, 0]),
    }
}

// Puts the values of the wires of a response at the end.
fn add_response(inputs: &mut Vec<u64>, beat: Option<DBeat>)
    requires { vec_len inputs.old + 6 ≤ vec_capacity inputs.old }
    ensures values { inputs.new.items ≡ inputs.old.items ++ spec.offered_response beat }
    ensures room { vec_capacity inputs.new ≡ vec_capacity inputs.old }
    ensures long { vec_len inputs.new ≡ vec_len inputs.old + 6 }
{
    match beat {
        Some(beat) => {
            inputs.push_reserved(1);
            add_values(inputs, &d_fields(beat));
        }
        None => add_values(inputs, &[0, 0, 0, 0, 0, 0]),
    }
}

// Puts the values of the inputs of a source port at the end.
fn add_source(inputs: &mut Vec<u64>, offer: &SourceOffer)
    requires { vec_len inputs.old + 9 ≤ vec_capacity inputs.old }
    ensures values { inputs.new.items ≡ inputs.old.items ++ spec.source_input offer.now }
    ensures room { vec_capacity inputs.new ≡ vec_capacity inputs.old }
    ensures long { vec_len inputs.new ≡ vec_len inputs.old + 9 }
{
    add_request(inputs, offer.beat);
    inputs.push_reserved(u64::from(offer.takes));
}

// Puts the values of the inputs of a sink port at the end.
fn add_sink(inputs: &mut Vec<u64>, offer: &SinkOffer)
    requires { vec_len inputs.old + 7 ≤ vec_capacity inputs.old }
    ensures values { inputs.new.items ≡ inputs.old.items ++ spec.sink_input offer.now }
    ensures room { vec_capacity inputs.new ≡ vec_capacity inputs.old }
    ensures long { vec_len inputs.new ≡ vec_len inputs.old + 7 }
{
    inputs.push_reserved(u64::from(offer.takes));
    add_response(inputs, offer.beat);
}

// Puts the values of the inputs of all source ports at the end.
fn add_sources(inputs: &mut Vec<u64>, sources: &[SourceOffer])
    requires { vec_len inputs.old + 9 * length sources.now ≤ vec_capacity inputs.old }
    ensures values { inputs.new.items ≡ inputs.old.items ++ spec.all_source_input sources.now }
    ensures room { vec_capacity inputs.new ≡ vec_capacity inputs.old }
    ensures long { vec_len inputs.new ≡ vec_len inputs.old + 9 * length sources.now }
{
    for offer in sources {
        add_source(inputs, offer);
    }
}

// Puts the values of the inputs of all sink ports at the end.
fn add_sinks(inputs: &mut Vec<u64>, sinks: &[SinkOffer])
    requires { vec_len inputs.old + 7 * length sinks.now ≤ vec_capacity inputs.old }
    ensures values { inputs.new.items ≡ inputs.old.items ++ spec.all_sink_input sinks.now }
    ensures room { vec_capacity inputs.new ≡ vec_capacity inputs.old }
    ensures long { vec_len inputs.new ≡ vec_len inputs.old + 7 * length sinks.now }
{
    for offer in sinks {
        add_sink(inputs, offer);
    }
}

/// Writes the values of all inputs of a netlist in a cycle, by what its ports offer and take: `reset` is 0;
/// then come the source ports in order, then the sink ports. It takes no memory.
pub fn write_inputs(inputs: &mut Vec<u64>, sources: &[SourceOffer], sinks: &[SinkOffer])
    requires { 1 + 9 * length sources.now + 7 * length sinks.now ≤ vec_capacity inputs.old }
    ensures values { inputs.new.items ≡ spec.cycle_inputs sources.now sinks.now }
    ensures room { vec_capacity inputs.new ≡ vec_capacity inputs.old }
    ensures long { length inputs.new.items ≡ 1 + 9 * length sources.now + 7 * length sinks.now }
{
    inputs.clear();
    inputs.push_reserved(0);
    add_sources(inputs, sources);
    add_sinks(inputs, sinks);
}
