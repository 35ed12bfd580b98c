ghost use Rattle.std.specs.Prelude.{◌≡◌, ◌+◌, ◌%◌, IfOk, length};
ghost use Rattle.tl_edge.specs.Beats.{most_lanes};
ghost use Rattle.net_build.specs.Built.{IsWire};
ghost use Rattle.net_build.specs.Values.{Adds, Means};
ghost use Rattle.net_table.specs.Tables.{AreEntries};
ghost use Rattle.net_sides.specs.Sides.{widths_down};
ghost use Rattle.net_width.specs.Widened.{AreCycleWires, CanWiden, IsWidgetCycle, IsWidened};

use crate::types::{Cycle, Widened};
use dip_lists::Memory;
use net_build::{Builder, Wire};
use net_lanes::{Buses, entry_of, kept_at, low_bits};
use net_queue::EdgeWires;
use net_sides::{turn_requests, turn_responses};
use net_table::{drive_registers, open_table, write_entry};
use std::alloc::Global;

// The entry that keeps an address.
#[tactic(auto, using(net_build::proofs::Steps::steps))]
fn keep(builder: &mut Builder, address: Wire) -> Result<Wire, Memory>
    requires { IsWire builder.old address }
    ensures adds { IfOk result (λ _. Adds builder.old builder.new) }
    ensures wire { IfOk result (λ w. IsWire builder.new w × (w.width ≡ 4)) }
    ensures value { IfOk result (λ w. Means builder.new w (λ v. 8 + v address.number % most_lanes)) }
{
    let low = low_bits(builder, address, 3)?;
    let entry = entry_of(builder, low)?;
    Ok(entry)
}

// Both channels in a cycle, by a table of entries.
fn around(
    alloc: Global,
    builder: &mut Builder,
    buses: Buses,
    widens: bool,
    entries: &[Wire],
    above: &EdgeWires,
    below: &EdgeWires,
) -> Result<Cycle, Memory>
    requires can { CanWiden builder.old (length entries.now) buses widens above.now below.now }
    requires entries { AreEntries builder.old 4 entries.now }
    ensures adds { IfOk result (λ _. Adds builder.old builder.new) }
    ensures wires { IfOk result (λ c. AreCycleWires builder.new above.now below.now c) }
    ensures long { IfOk result (λ c. length c.nexts ≡ length entries.now) }
    ensures nexts { IfOk result (λ c. AreEntries builder.new 4 c.nexts) }
    ensures cycle { IfOk result
        (λ c. IsWidgetCycle builder.new (widths_down buses widens) entries.now above.now below.now c) }
{
    let head = above.a.head.as_slice();
    let back = below.d.head.as_slice();
    let kept = kept_at(builder, entries, back[2])?;
    let requests = turn_requests(alloc, builder, buses, widens, &above.a, &below.a)?;
    let responses = turn_responses(alloc, builder, buses, !widens, kept, &below.d, &above.d)?;
    let entry = keep(builder, head[4])?;
    let nexts = write_entry(alloc, builder, entries, requests.begins, head[3], entry)?;
    Ok(Cycle {
        requests,
        responses,
        kept,
        nexts,
    })
}

/// An adapter for so many ids between the open queues of two edges: requests go to a wider bus where
/// `widens`, and else to a narrower one, and responses the other way. It adds no port and drives no
/// earlier register.
pub fn widen_between(
    alloc: Global,
    builder: &mut Builder,
    count: usize,
    buses: Buses,
    widens: bool,
    above: &EdgeWires,
    below: &EdgeWires,
) -> Result<Widened, Memory>
    requires can { CanWiden builder.old count buses widens above.now below.now }
    ensures adds { IfOk result (λ _. Adds builder.old builder.new) }
    ensures widened { IfOk result
        (λ w. IsWidened builder.new (widths_down buses widens) count above.now below.now w) }
{
    let entries = open_table(alloc, builder, count, 4)?;
    let cycle = around(
        alloc,
        builder,
        buses,
        widens,
        entries.as_slice(),
        above,
        below,
    )?;
    let Cycle {
        requests,
        responses,
        kept,
        nexts,
    } = cycle;
    drive_registers(builder, entries.as_slice(), nexts.as_slice())?;
    Ok(Widened {
        requests,
        responses,
        kept,
        entries,
    })
}
