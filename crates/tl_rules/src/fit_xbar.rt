ghost use Rattle.std.specs.Prelude.{◌≡◌, ◌<◌, ◌≤◌, length, map, slice_get, take, None, Some, All, IsTrue};
ghost use Rattle.std.specs.List.{flat_map, list_all};
ghost use Rattle.dip_sets.specs.Assignments.{rounded, sum_before};
ghost use Rattle.tl_rules.specs.Crossbars.{id_count, is_id_count, input_ranges, joined_masters};
ghost use Rattle.tl_rules.specs.Crossbars.{shifted_master};
ghost use Rattle.tl_params.specs.Carried as carried;
ghost use Rattle.tl_rules.specs.Fits as spec;

use crate::fit::{begin_with, port_down, port_up, same_ids};
use crate::ports::behind;
use crate::xbar::is_id_count;
use dip_sets::{goes_first, rounded_up};
use tl_params::{DownPort, Master, Slave, UpPort, largest_end};

// Whether slaves are those of all outputs in order.
fn shows_outputs(slaves: &[Slave], outs: &[u32], up: &[UpPort]) -> bool
    requires { All (λ edge. edge < length up.now) outs.now }
    ensures { result ≡ carried.slaves_fit None slaves.now (flat_map (λ output. output.slaves)
        (map (spec.port_up up.now) outs.now)) }
{
    let mut rest = slaves;
    for output in outs {
        let real = port_up(up, *output).slaves.as_slice();
        if !begin_with(rest, real) {
            return false;
        }
        rest = behind(rest, real.len());
    }
    rest.is_empty()
}

/// Whether each input of a crossbar shows the slaves of all outputs.
pub fn inputs_fit(ins: &[u32], outs: &[u32], up: &[UpPort]) -> bool
    requires ins { All (λ edge. edge < length up.now) ins.now }
    requires outs { All (λ edge. edge < length up.now) outs.now }
    ensures { result ≡ spec.inputs_fit (map (spec.port_up up.now) ins.now)
        (map (spec.port_up up.now) outs.now) }
{
    for input in ins {
        if !shows_outputs(port_up(up, *input).slaves.as_slice(), outs, up) {
            return false;
        }
    }
    true
}

// Whether each input needs 1 to 1,024 ids.
fn have_id_counts(ins: &[u32], down: &[DownPort]) -> bool
    requires { All (λ edge. edge < length down.now) ins.now }
    ensures value { result ≡ list_all (λ input. is_id_count (id_count input)) (map (spec.port_down down.now)
        ins.now) }
    ensures each { IsTrue result → All (λ input. IsTrue (is_id_count (id_count (spec.port_down down.now
        input)))) ins.now }
{
    for input in ins {
        if !is_id_count(largest_end(port_down(down, *input))) {
            return false;
        }
    }
    true
}

// The rounded number of ids of a port.
fn rounded_count(port: &DownPort) -> u32
    requires { IsTrue (is_id_count (id_count port.now)) }
    ensures value { result ≡ rounded (id_count port.now) }
    ensures small { result ≤ 1024 }
{
    rounded_up(largest_end(port))
}

// Where the range of an input starts: behind all that go before it.
fn range_start(own: u32, place: usize, ins: &[u32], down: &[DownPort]) -> u32
    requires edges { All (λ edge. edge < length down.now) ins.now }
    requires few { length ins.now ≤ 1024 }
    requires counts { All (λ input. IsTrue (is_id_count (id_count (spec.port_down down.now input)))) ins.now }
    ensures { result ≡ sum_before own place 0 (map rounded (map id_count (map (spec.port_down down.now)
        ins.now))) }
{
    let mut start = 0;
    for (at, input) in ins.iter().enumerate() {
        let other = rounded_count(port_down(down, *input));
        if goes_first(own, place, other, at) {
            start += other;
        }
    }
    start
}

// Whether a master has the ids of another one, moved up.
fn has_shifted_ids(master: &Master, by: u32, moved: &Master) -> bool
    ensures { result ≡ spec.has_same_ids (shifted_master by master.now) moved.now }
{
    let by = u64::from(by);
    u64::from(master.ids.start) + by == u64::from(moved.ids.start)
        && u64::from(master.ids.end) + by == u64::from(moved.ids.end)
}

// Whether the first of some masters have the ids of others, moved up.
fn begin_shifted(masters: &[Master], by: u32, moved: &[Master]) -> bool
    ensures value { result ≡ spec.same_ids (map (shifted_master by) masters.now)
        (take (length masters.now) moved.now) }
    ensures long { IsTrue result → length masters.now ≤ length moved.now }
{
    if moved.len() < masters.len() {
        return false;
    }
    for place in 0..masters.len() {
        if !has_shifted_ids(&masters[place], by, &moved[place]) {
            return false;
        }
    }
    true
}

// Whether masters have the ids of all inputs in order, moved as a crossbar moves them.
fn has_inputs(masters: &[Master], ins: &[u32], down: &[DownPort]) -> bool
    requires edges { All (λ edge. edge < length down.now) ins.now }
    requires few { length ins.now ≤ 1024 }
    requires counts { All (λ input. IsTrue (is_id_count (id_count (spec.port_down down.now input)))) ins.now }
    ensures { result ≡ spec.same_ids (joined_masters (map (spec.port_down down.now) ins.now)
        (input_ranges (map (spec.port_down down.now) ins.now))) masters.now }
{
    let mut rest = masters;
    for (place, input) in ins.iter().enumerate() {
        let port = port_down(down, *input);
        let start = range_start(rounded_count(port), place, ins, down);
        let own = port.masters.as_slice();
        if !begin_shifted(own, start, rest) {
            return false;
        }
        rest = behind(rest, own.len());
    }
    rest.is_empty()
}

// Whether the masters of each output have the same ids as others.
fn all_have_ids(masters: &[Master], outs: &[u32], down: &[DownPort]) -> bool
    requires { All (λ edge. edge < length down.now) outs.now }
    ensures { result ≡ list_all (λ output. spec.same_ids masters.now output.masters)
        (map (spec.port_down down.now) outs.now) }
{
    for output in outs {
        if !same_ids(masters, port_down(down, *output).masters.as_slice()) {
            return false;
        }
    }
    true
}

// Whether each output has the ids of all inputs: the first does, and all have the first one's.
fn first_stands_for_all(first: u32, ins: &[u32], outs: &[u32], down: &[DownPort]) -> bool
    requires ins { All (λ edge. edge < length down.now) ins.now }
    requires outs { All (λ edge. edge < length down.now) outs.now }
    requires first { slice_get outs.now 0 ≡ Some first }
    requires few { length ins.now ≤ 1024 }
    requires counts { All (λ input. IsTrue (is_id_count (id_count (spec.port_down down.now input)))) ins.now }
    ensures { result ≡ list_all (λ output. spec.same_ids
        (joined_masters (map (spec.port_down down.now) ins.now)
        (input_ranges (map (spec.port_down down.now) ins.now))) output.masters)
        (map (spec.port_down down.now) outs.now) }
{
    let masters = port_down(down, first).masters.as_slice();
    has_inputs(masters, ins, down) && all_have_ids(masters, outs, down)
}

/// Whether each output of a crossbar has the ids of all inputs.
pub fn outputs_fit(ins: &[u32], outs: &[u32], down: &[DownPort]) -> bool
    requires ins { All (λ edge. edge < length down.now) ins.now }
    requires outs { All (λ edge. edge < length down.now) outs.now }
    ensures { result ≡ spec.outputs_fit (map (spec.port_down down.now) ins.now) (map (spec.port_down down.now)
        outs.now) }
{
    if ins.len() > 1024 || !have_id_counts(ins, down) {
        return false;
    }
    match outs.first() {
        None => true,
        Some(first) => first_stands_for_all(*first, ins, outs, down),
    }
}
