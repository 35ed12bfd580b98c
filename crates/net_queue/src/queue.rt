ghost use Rattle.std.specs.Prelude.{◌≡◌, All, IfOk, length};
ghost use Rattle.net_cells.specs.Rules.{IsWidth};
ghost use Rattle.net_build.specs.Built.{IsBit};
ghost use Rattle.net_build.specs.Registers.{AreDistinct, AreUndriven, AreWires, DrivesAll, numbers};
ghost use Rattle.net_build.specs.Values.{Opens};
ghost use Rattle.net_queue.specs.Opened.{list_of};
ghost use Rattle.net_queue.specs.Queues.{DependsOnRegisters, IsListOfTwo, IsOpen, queue_registers};
ghost use Rattle.net_queue.specs.Rows.{AreAlike};

use crate::flags::{kept, next_filling};
use crate::rows::{joined, mux_row};
use crate::types::Queue;
use dip_lists::Memory;
use net_build::{Builder, Wire, Wires, inverse};
use std::alloc::Global;

// The registers of a queue.
#[derive(Drop)]
struct Registers {
    valid: Wire,
    full: Wire,
    head: Wires,
    last: Wires,
}

// Opens the registers of a queue.
fn open_registers(builder: &mut Builder, widths: &[u32]) -> Result<Registers, Memory>
    requires { All IsWidth widths.now }
    ensures opens { IfOk result (λ r. Opens builder.old builder.new (numbers (list_of r))) }
    ensures undriven { IfOk result (λ r. AreUndriven builder.new (list_of r)) }
    ensures distinct { IfOk result (λ r. AreDistinct (list_of r)) }
    ensures bits { IfOk result (λ r. IsBit builder.new r.valid × IsBit builder.new r.full) }
    ensures long { IfOk result
        (λ r. (length r.head ≡ length widths.now) × (length r.last ≡ length widths.now)) }
    ensures wires { IfOk result
        (λ r. AreWires builder.new widths.now r.head × AreWires builder.new widths.now r.last) }
{
    let valid = builder.register(1)?;
    let full = builder.register(1)?;
    let head = builder.registers(widths)?;
    let last = builder.registers(widths)?;
    Ok(Registers {
        valid,
        full,
        head,
        last,
    })
}

/// Opens a queue of items whose fields have these widths, in bits. What is put and taken is said later, when
/// it is closed.
pub fn open_queue(builder: &mut Builder, widths: &[u32]) -> Result<Queue, Memory>
    requires { All IsWidth widths.now }
    ensures opens { IfOk result (λ q. Opens builder.old builder.new (numbers (queue_registers q))) }
    ensures open { IfOk result (λ q. IsOpen builder.new q) }
    ensures long { IfOk result (λ q. length q.head ≡ length widths.now) }
    ensures widths { IfOk result (λ q. AreWires builder.new widths.now q.head) }
    ensures registers { IfOk result (λ q. DependsOnRegisters builder.new q) }
{
    let opened = open_registers(builder, widths)?;
    let ready = inverse(builder, opened.full)?;
    let Registers {
        valid,
        full,
        head,
        last,
    } = opened;
    Ok(Queue {
        ready,
        valid,
        head,
        full,
        last,
    })
}

/// Closes an open queue: an item is put at its end where `push` is 1, and its head is taken where `pop` is,
/// as long as `push` comes only where there is room and `pop` only where there is a head. It adds no port,
/// and drives the registers of the queue alone.
pub fn close_queue(
    alloc: Global,
    builder: &mut Builder,
    queue: Queue,
    push: Wire,
    items: &[Wire],
    pop: Wire,
) -> Result<(), Memory>
    requires open { IsOpen builder.old queue }
    requires bits { IsBit builder.old push × IsBit builder.old pop }
    requires items { AreAlike builder.old queue.head items.now }
    ensures drives { IfOk result (λ _. DrivesAll builder.old builder.new (numbers (queue_registers queue))) }
    ensures list { IfOk result (λ _. IsListOfTwo builder.new queue push items.now pop) }
{
    let head = queue.head.as_slice();
    let last = queue.last.as_slice();
    let kept = kept(builder, queue.valid, pop)?;
    let next = next_filling(builder, kept, queue.full, push)?;
    let next_last = mux_row(alloc, builder, queue.full, last, items)?;
    let behind = next_last.as_slice();
    let next_head = mux_row(alloc, builder, kept, head, behind)?;
    let registers = joined(alloc, queue.valid, queue.full, head, last)?;
    let nexts = joined(alloc, next.valid, next.full, next_head.as_slice(), behind)?;
    builder.drive_all(registers.as_slice(), nexts.as_slice())?;
    Ok(())
}
