ghost use Rattle.std.specs.Prelude.{◌≡◌, ◌<◌, IfOk, length, slice_set};
ghost use Rattle.net_build.specs.Built.{IsBit, IsWire};
ghost use Rattle.net_build.specs.Registers.{AreWires};
ghost use Rattle.net_build.specs.Values.{Adds};
ghost use Rattle.net_queue.specs.Leaves.{IsPutInto};
ghost use Rattle.net_queue.specs.Queues.{IsOpen};
ghost use Rattle.net_queue.specs.Rows.{KeepsRow, row_widths};

use dip_lists::Memory;
use net_build::{Builder, Wire, Wires};
use net_queue::{Put, Queue, fit_row};
use std::alloc::Global;

// A head with another wire at one place, put into a queue.
pub(crate) fn put_with(
    alloc: Global,
    builder: &mut Builder,
    valid: Wire,
    head: &Wires,
    place: usize,
    wire: Wire,
    to: &Queue,
) -> Result<Put, Memory>
    requires valid { IsBit builder.old valid }
    requires head { AreWires builder.old (row_widths head.now) head.now }
    requires place { place < length head.now }
    requires wire { IsWire builder.old wire }
    requires open { IsOpen builder.old to.now }
    requires long { length head.now ≡ length to.now.head }
    ensures adds { IfOk result (λ _. Adds builder.old builder.new) }
    ensures valid { IfOk result (λ p. p.valid ≡ valid) }
    ensures into { IfOk result (λ p. IsPutInto builder.new to.now p) }
    ensures keeps { IfOk result
        (λ p. KeepsRow builder.new (slice_set head.now place wire) (row_widths to.now.head) p.items) }
{
    let mut row = head.copy(alloc)?;
    row.set(place, wire);
    let items = fit_row(alloc, builder, row.as_slice(), to.head.as_slice())?;
    Ok(Put { valid, items })
}
