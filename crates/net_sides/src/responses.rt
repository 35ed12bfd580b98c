ghost use Rattle.std.specs.Prelude.{◌≡◌, IfOk};
ghost use Rattle.net_build.specs.Built.{IsBit, IsWire};
ghost use Rattle.net_build.specs.Values.{Adds};
ghost use Rattle.net_queue.specs.Leaves.{IsPutInto};
ghost use Rattle.net_turns.specs.Turns.{AreHeadWires};
ghost use Rattle.net_sides.specs.Puts.{AreResponseWires, CanTurnUp, IsResponseCycle, IsResponseHead};
ghost use Rattle.net_sides.specs.Sides.{AreResponsesTurned, widths_up};

use crate::puts::{data_of, put_response};
use crate::types::{ResponseCycle, Responses, SideWires};
use dip_lists::Memory;
use net_build::{Builder, Wire, both};
use net_lanes::{Buses, Kept, bytes_of_bus};
use net_queue::Queue;
use net_turns::{Head, turn, turn_lanes};
use net_widget::{answers_with_data, uses_up};
use std::alloc::Global;

// The wires of the head of responses, which waits where it has data and no address is kept for its id.
fn response_head(
    builder: &mut Builder,
    buses: Buses,
    widens: bool,
    kept: Kept,
    below: &Queue,
    above: &Queue,
) -> Result<Head, Memory>
    requires can { CanTurnUp builder.old buses widens below.now above.now }
    requires kept { IsBit builder.old kept.known × IsWire builder.old kept.address }
    ensures adds { IfOk result (λ _. Adds builder.old builder.new) }
    ensures wires { IfOk result (λ h. AreHeadWires builder.new h) }
    ensures head { IfOk result (λ h. IsResponseHead builder.new kept below.now above.now h) }
{
    let row = below.head.as_slice();
    let loaded = answers_with_data(builder, row[0])?;
    let may = uses_up(builder, loaded, kept.known)?;
    let valid = both(builder, below.valid, may)?;
    Ok(Head {
        valid,
        room: above.ready,
        loaded,
        size: row[1],
        address: kept.address,
    })
}

// Channel D in a cycle, where so many narrow beats are done.
fn response_cycle(
    alloc: Global,
    builder: &mut Builder,
    buses: Buses,
    widens: bool,
    kept: Kept,
    below: &Queue,
    above: &Queue,
    done: Wire,
) -> Result<ResponseCycle, Memory>
    requires can { CanTurnUp builder.old buses widens below.now above.now }
    requires kept { IsBit builder.old kept.known × IsWire builder.old kept.address }
    requires done { IsWire builder.old done × (done.width ≡ 8) }
    ensures adds { IfOk result (λ _. Adds builder.old builder.new) }
    ensures wires { IfOk result (λ c. AreResponseWires builder.new above.now c) }
    ensures cycle { IfOk result
        (λ c. IsResponseCycle builder.new buses widens kept below.now above.now done c) }
{
    let narrow = bytes_of_bus(buses.narrow);
    let row = below.head.as_slice();
    let head = response_head(builder, buses, widens, kept, below, above)?;
    let turned = turn(alloc, builder, buses, widens, &head, done)?;
    let payload = turn_lanes(alloc, builder, buses, widens, 8 * narrow, &turned, row[4])?;
    let lanes = data_of(builder, head.loaded, payload.lanes)?;
    let put = put_response(alloc, builder, turned.flow.put, &below.head, lanes, above)?;
    Ok(ResponseCycle {
        head,
        turn: turned,
        payload,
        lanes,
        put,
    })
}

/// Channel D of an adapter between two queues, on the way to a wider bus or to a narrower one, by the address
/// that is kept for the id of the head. Its registers are its own.
pub fn turn_responses(
    alloc: Global,
    builder: &mut Builder,
    buses: Buses,
    widens: bool,
    kept: Kept,
    below: &Queue,
    above: &Queue,
) -> Result<Responses, Memory>
    requires can { CanTurnUp builder.old buses widens below.now above.now }
    requires kept { IsBit builder.old kept.known × IsWire builder.old kept.address }
    ensures adds { IfOk result (λ _. Adds builder.old builder.new) }
    ensures bit { IfOk result (λ r. IsBit builder.new r.take) }
    ensures into { IfOk result (λ r. IsPutInto builder.new above.now r.put) }
    ensures responses { IfOk result
        (λ r. AreResponsesTurned builder.new (widths_up buses widens) kept below.now above.now r) }
{
    let done = builder.register(8)?;
    let cycle = response_cycle(alloc, builder, buses, widens, kept, below, above, done)?;
    builder.drive(done, cycle.turn.next)?;
    let ResponseCycle {
        turn,
        payload,
        put,
        ..
    } = cycle;
    Ok(Responses {
        take: turn.flow.take,
        put,
        side: SideWires {
            done,
            mask: None,
            payload: payload.held,
        },
    })
}
