ghost use Rattle.std.specs.Prelude.{◌≡◌, ◌≢◌, ◌≤◌, ◌^◌, IfOk, IsTrue, nat_lt};
ghost use Rattle.tl_params.specs.Arguments.{is_width};
ghost use Rattle.net_build.specs.Values.{Adds};
ghost use Rattle.net_lanes.specs.Lanes.{AreTwo};
ghost use Rattle.net_sides.specs.Sides.{widths_down};
ghost use Rattle.net_width.specs.Between.{AreWidgetEnds, AreWidgetQueues, IsWidgetOf};

use crate::between::widen_between;
use crate::types::{Ends, Widened};
use dip_lists::Memory;
use net_build::Builder;
use net_lanes::Buses;
use net_queue::EdgeWires;
use std::alloc::Global;

// The base-2 logarithm of the bytes of a bus.
fn log_of(bytes: u32) -> u32
    requires { IsTrue (is_width bytes) }
    ensures value { 2 ^ result ≡ bytes }
    ensures small { result ≤ 3 }
{
    match bytes {
        1 => 0,
        2 => 1,
        4 => 2,
        _ => 3,
    }
}

// Two buses of different widths, by their bytes.
fn buses_of(from: u32, to: u32) -> Buses
    requires from { IsTrue (is_width from) }
    requires to { IsTrue (is_width to) }
    requires differ { from ≢ to }
    ensures two { AreTwo result }
    ensures widths { widths_down result (nat_lt from to) ≡ record { above = from; below = to } }
{
    let one = log_of(from);
    let other = log_of(to);
    if from < to {
        Buses {
            narrow: one,
            wide: other,
        }
    } else {
        Buses {
            narrow: other,
            wide: one,
        }
    }
}

// Between buses of two widths, for so many ids.
pub(crate) fn ends_turning(
    alloc: Global,
    builder: &mut Builder,
    count: usize,
    from: u32,
    to: u32,
    above: &EdgeWires,
    below: &EdgeWires,
) -> Result<Ends, Memory>
    requires queues { AreWidgetQueues builder.old count from to above.now below.now }
    requires differ { from ≢ to }
    ensures adds { IfOk result (λ _. Adds builder.old builder.new) }
    ensures ends { IfOk result (λ e. AreWidgetEnds builder.new above.now below.now e) }
    ensures widget { IfOk result (λ e. IsWidgetOf builder.new count from to above.now below.now e) }
{
    let buses = buses_of(from, to);
    let widens = from < to;
    let widened = widen_between(alloc, builder, count, buses, widens, above, below)?;
    let Widened {
        requests,
        responses,
        ..
    } = widened;
    Ok(Ends {
        take_a: requests.take,
        put_a: requests.put,
        take_d: responses.take,
        put_d: responses.put,
    })
}
