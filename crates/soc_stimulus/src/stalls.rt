ghost use Rattle.std.specs.Prelude.{◌≡◌, ◌≤◌, ◌<◌, ◌+◌, ◌^◌, length, IfOk, IfErr, None, Some};
ghost use Rattle.toml.specs.View.{table_view, view, items_view};
ghost use Rattle.dip_lists.specs.First.{first};
ghost use Rattle.dip_graph.specs.Faults.{IsFaultAt};
ghost use Rattle.toml_shape.specs.Entries.{all_of, failing};
ghost use Rattle.soc_stimulus.specs.Stalls as spec;

use crate::limits::{LimitedStall, stall_in};
use crate::ports::named_port;
use dip_graph::Fault;
use dip_lists::Items;
use dip_names::Names;
use sim_ports::{Stall, Stalls};
use std::alloc::Global;
use tl_edge::PlanPort;
use toml::{Table, Value};

// The stall of a source port or a sink port, by its number.
fn stall_with(source: bool, numbers: LimitedStall, port: u32) -> Stall
    ensures { result ≡ spec.stall_with source numbers port }
{
    Stall {
        source,
        port,
        on_a: numbers.on_a,
        start: numbers.start,
        end: numbers.end,
    }
}

// The stall of the port that its table names, a source port or a sink port.
fn stall_at(
    names: &Names,
    sources: &[PlanPort],
    sinks: &[PlanPort],
    numbers: LimitedStall,
    table: &Table,
) -> Option<Stall>
    requires sources { length sources.now ≤ 1024 }
    requires sinks { length sinks.now ≤ 1024 }
    ensures { result ≡ spec.stall_at names.now sources.now sinks.now (table_view table.now) numbers }
{
    if let Some(port) = named_port(names, sources, numbers.port, table) {
        return Some(stall_with(true, numbers, port));
    }
    let port = named_port(names, sinks, numbers.port, table)?;
    Some(stall_with(false, numbers, port))
}

// The stall of a table, if its numbers are within the limits and it names such a port.
fn stall_of(names: &Names, sources: &[PlanPort], sinks: &[PlanPort], value: &Value) -> Option<Stall>
    requires sources { length sources.now ≤ 1024 }
    requires sinks { length sinks.now ≤ 1024 }
    ensures { result ≡ spec.stall_of names.now sources.now sinks.now (view value.now) }
{
    let Value::Table(table) = value else {
        return None;
    };
    stall_at(names, sources, sinks, stall_in(table)?, table)
}

/// The stalls of some tables, the first of which is the entry `entry`. `Fault::Check` names rule 4 and the
/// first table that names no port of a source or a sink.
pub fn named_stalls(
    alloc: Global,
    names: &Names,
    sources: &[PlanPort],
    sinks: &[PlanPort],
    tables: &[Value],
    entry: u64,
) -> Result<Stalls, Fault>
    requires sources { length sources.now ≤ 1024 }
    requires sinks { length sinks.now ≤ 1024 }
    requires entries { entry + length tables.now < 2 ^ 64 }
    ensures ok { IfOk result (λ stalls. all_of (spec.stall_of names.now sources.now sinks.now)
        (items_view tables.now) ≡ Some stalls) }
    ensures passes { IfOk result (λ _. first (failing (spec.stall_is_unnamed names.now sources.now
        sinks.now) 0 entry (items_view tables.now)) ≡ None) }
    ensures err { IfErr result (IsFaultAt 4 (failing (spec.stall_is_unnamed names.now sources.now sinks.now)
        0 entry (items_view tables.now))) }
{
    let mut stated = Items::new(alloc);
    for (place, value) in tables.iter().enumerate() {
        let Some(stall) = stall_of(names, sources, sinks, value) else {
            return Err(Fault::Check {
                number: 4,
                subject: entry + place as u64,
            });
        };
        stated.push(stall)?;
    }
    Ok(stated)
}
