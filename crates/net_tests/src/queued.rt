ghost use Rattle.std.specs.Prelude.{◌≡◌, IfOk};
ghost use Rattle.net_build.specs.Built.{IsBit, IsWire};
ghost use Rattle.net_build.specs.Values.{Adds};

use crate::described::name;
use dip_lists::Memory;
use net_build::{Builder, Wire};
use net_cells::Netlist;
use net_queue::{close_queue, open_queue};
use std::alloc::Global;

// What a queue of items with one field shows.
#[derive(Clone, Copy)]
struct Shown {
    ready: Wire,
    valid: Wire,
    head: Wire,
}

// A queue of items of four bits.
fn queue(
    alloc: Global,
    builder: &mut Builder,
    push: Wire,
    item: Wire,
    pop: Wire,
) -> Result<Shown, Memory>
    requires bits { IsBit builder.old push × IsBit builder.old pop }
    requires item { IsWire builder.old item × (item.width ≡ 4) }
    ensures adds { IfOk result (λ _. Adds builder.old builder.new) }
    ensures wires { IfOk result (λ s. IsWire builder.new s.ready
        × IsWire builder.new s.valid × IsWire builder.new s.head) }
{
    let queue = open_queue(builder, &[4])?;
    let head = queue.head.as_slice()[0];
    let shown = Shown {
        ready: queue.ready,
        valid: queue.valid,
        head,
    };
    close_queue(alloc, builder, queue, push, &[item], pop)?;
    Ok(shown)
}

/// A netlist with a queue of items of four bits. Its inputs say whether an item is put, which, and whether
/// the head is taken; its outputs show whether there is room, whether there is a head, and the head.
pub fn queued(alloc: Global) -> Result<Netlist, Memory> {
    let mut builder = Builder::new(alloc, name(alloc, "m_t")?)?;
    let push = builder.input(name(alloc, "p_push")?, 1)?;
    let item = builder.input(name(alloc, "p_item")?, 4)?;
    let pop = builder.input(name(alloc, "p_pop")?, 1)?;
    let shown = queue(alloc, &mut builder, push, item, pop)?;
    builder.output(name(alloc, "p_ready")?, shown.ready)?;
    builder.output(name(alloc, "p_valid")?, shown.valid)?;
    builder.output(name(alloc, "p_head")?, shown.head)?;
    builder.finish()
}
