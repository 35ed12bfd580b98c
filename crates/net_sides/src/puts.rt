ghost use Rattle.std.specs.Prelude.{◌≡◌, ◌<◌, ◌≤◌, IfOk, IsTrue, length, slice_set, if◌then◌else◌};
ghost use Rattle.tl_params.specs.Arguments.{is_width};
ghost use Rattle.net_build.specs.Built.{IsBit, IsWire};
ghost use Rattle.net_build.specs.Registers.{AreWires};
ghost use Rattle.net_build.specs.Values.{Adds, Means, high};
ghost use Rattle.net_queue.specs.Leaves.{IsPutInto};
ghost use Rattle.net_queue.specs.Queues.{IsOpen};
ghost use Rattle.net_queue.specs.Rows.{KeepsRow, row_widths};
ghost use Rattle.net_turns.specs.Turns.{AreHeadWires};
ghost use Rattle.net_sides.specs.Puts.{AreRequestLanes, with_request_lanes};

use crate::types::RequestLanes;
use dip_lists::Memory;
use net_build::{Builder, Wire, Wires};
use net_lanes::active_lanes_of;
use net_queue::{Put, Queue, fit_row};
use net_turns::Head;
use std::alloc::Global;

// A wire where there is data, else 0.
#[tactic(auto, using(net_build::proofs::Steps::steps))]
pub(crate) fn data_of(builder: &mut Builder, loaded: Wire, wire: Wire) -> Result<Wire, Memory>
    requires loaded { IsBit builder.old loaded }
    requires wire { IsWire builder.old wire }
    ensures adds { IfOk result (λ _. Adds builder.old builder.new) }
    ensures wire { IfOk result (λ w. IsWire builder.new w) }
    ensures value { IfOk result
        (λ w. Means builder.new w (λ v. if high v loaded then v wire.number else 0)) }
{
    let none = builder.constant(wire.width, 0)?;
    let data = builder.mux(loaded, wire, none)?;
    Ok(data)
}

// The lanes of what is put, on a bus of so many bytes.
pub(crate) fn request_lanes(
    alloc: Global,
    builder: &mut Builder,
    width: u32,
    head: &Head,
    mask: Wire,
    payload: Wire,
) -> Result<RequestLanes, Memory>
    requires width { IsTrue (is_width width) }
    requires head { AreHeadWires builder.old head.now }
    requires mask { IsWire builder.old mask × (mask.width ≡ width) }
    requires payload { IsWire builder.old payload }
    ensures adds { IfOk result (λ _. Adds builder.old builder.new) }
    ensures wires { IfOk result (λ l. IsWire builder.new l.mask × IsWire builder.new l.payload) }
    ensures lanes { IfOk result (λ l. AreRequestLanes builder.new width head.now mask payload l) }
{
    let active = active_lanes_of(alloc, builder, width, head.size, head.address)?;
    let out = builder.mux(head.loaded, mask, active)?;
    let data = data_of(builder, head.loaded, payload)?;
    Ok(RequestLanes {
        mask: out,
        payload: data,
    })
}

// A head with other lanes, put into a queue.
pub(crate) fn put_request(
    alloc: Global,
    builder: &mut Builder,
    valid: Wire,
    head: &Wires,
    lanes: &RequestLanes,
    to: &Queue,
) -> Result<Put, Memory>
    requires valid { IsBit builder.old valid }
    requires head { AreWires builder.old (row_widths head.now) head.now }
    requires seven { length head.now ≡ 7 }
    requires lanes { IsWire builder.old lanes.now.mask × IsWire builder.old lanes.now.payload }
    requires open { IsOpen builder.old to.now }
    requires long { length to.now.head ≡ 7 }
    ensures adds { IfOk result (λ _. Adds builder.old builder.new) }
    ensures valid { IfOk result (λ p. p.valid ≡ valid) }
    ensures into { IfOk result (λ p. IsPutInto builder.new to.now p) }
    ensures keeps { IfOk result (λ p. KeepsRow builder.new (with_request_lanes head.now lanes.now)
        (row_widths to.now.head) p.items) }
{
    let mut row = head.copy(alloc)?;
    row.set(5, lanes.mask);
    row.set(6, lanes.payload);
    let items = fit_row(alloc, builder, row.as_slice(), to.head.as_slice())?;
    Ok(Put { valid, items })
}

// A head with other data, put into a queue.
pub(crate) fn put_response(
    alloc: Global,
    builder: &mut Builder,
    valid: Wire,
    head: &Wires,
    lanes: Wire,
    to: &Queue,
) -> Result<Put, Memory>
    requires valid { IsBit builder.old valid }
    requires head { AreWires builder.old (row_widths head.now) head.now }
    requires five { length head.now ≡ 5 }
    requires lanes { IsWire builder.old lanes }
    requires open { IsOpen builder.old to.now }
    requires long { length to.now.head ≡ 5 }
    ensures adds { IfOk result (λ _. Adds builder.old builder.new) }
    ensures valid { IfOk result (λ p. p.valid ≡ valid) }
    ensures into { IfOk result (λ p. IsPutInto builder.new to.now p) }
    ensures keeps { IfOk result (λ p. KeepsRow builder.new (slice_set head.now 4 lanes)
        (row_widths to.now.head) p.items) }
{
    let mut row = head.copy(alloc)?;
    row.set(4, lanes);
    let items = fit_row(alloc, builder, row.as_slice(), to.head.as_slice())?;
    Ok(Put { valid, items })
}
