ghost use Rattle.std.specs.Prelude.{◌≡◌, ◌≤◌, ◌^◌, length, IsTrue, IfOk, IfSome};
ghost use Rattle.toml.specs.Data.{get_member};
ghost use Rattle.toml.specs.View.{table_view, view, items_view};
ghost use Rattle.dip_sets.specs.Names as names;
ghost use Rattle.toml_shape.specs.Entries.{all_of};
ghost use Rattle.soc_design.specs.Stated as spec;

use crate::tables::named;
use dip_graph::{MOST_ARGS, MOST_ATOMIC, MOST_PORTS, MOST_SETS, MOST_SOURCE_IDS, NodeKind};
use dip_lists::{Few, Items, Memory};
use dip_sets::{AddressSet, Name, Sizes};
use std::alloc::Global;
use tl_params::{AddressLists, Addresses, Args, Ops, is_width};
use toml::{Table, Value};
use toml_shape::{name_under, number_under, number_within, pair, table_under, under};

/// The greatest transfer in bytes.
const MOST_TRANSFER: u64 = 256;
/// The greatest address, base and mask.
const MOST_ADDRESS: u64 = (1 << 48) - 1;
/// The greatest argument.
const MOST_ARG: u64 = (1 << 32) - 1;

// The sizes of a pair of numbers up to `most`; `None` where it isn't two powers of two in order.
fn sizes_of_pair(pair: (i64, i64), most: u64) -> Option<Sizes>
    requires { most ≤ 256 }
    ensures { result ≡ spec.sizes_of_pair most pair }
{
    let least = number_within(pair.0, 1, most)?;
    let greatest = number_within(pair.1, 1, most)?;
    Sizes::new(least as u32, greatest as u32)
}

// The sizes that stand under a key, none where it is missing.
fn sizes_under(table: &Table, key: &str, most: u64) -> Option<Sizes>
    requires { most ≤ 256 }
    ensures { result ≡ spec.stated_sizes most (get_member key.now (table_view table.now)) }
{
    match under(table, key) {
        None => Some(Sizes::none()),
        Some(value) => sizes_of_pair(pair(value)?, most),
    }
}

// The sizes of all operations.
fn operations_in(table: &Table) -> Option<Ops>
    ensures { result ≡ spec.operations_in (table_view table.now) }
{
    Some(Ops {
        get: sizes_under(table, "get", MOST_TRANSFER)?,
        put_full: sizes_under(table, "put_full", MOST_TRANSFER)?,
        put_partial: sizes_under(table, "put_partial", MOST_TRANSFER)?,
        arithmetic: sizes_under(table, "arithmetic", u64::from(MOST_ATOMIC))?,
        logical: sizes_under(table, "logical", u64::from(MOST_ATOMIC))?,
        intent: sizes_under(table, "intent", MOST_TRANSFER)?,
    })
}

// The operations in the table under a key.
fn operations_under(table: &Table, key: &str) -> Option<Ops>
    ensures { result ≡ spec.operations_under key.now (table_view table.now) }
{
    operations_in(table_under(table, key)?)
}

// The address set of a base and a mask, each below 2^48 and without a common bit.
fn set_of_pair(pair: (i64, i64)) -> Option<AddressSet>
    ensures { result ≡ spec.set_of_pair pair }
{
    let base = number_within(pair.0, 0, MOST_ADDRESS)?;
    let mask = number_within(pair.1, 0, MOST_ADDRESS)?;
    AddressSet::new(base, mask).ok()
}

// The address set of an array of two integers.
fn set_of(value: &Value) -> Option<AddressSet>
    ensures { result ≡ spec.set_of (view value.now) }
{
    set_of_pair(pair(value)?)
}

// The address sets of some items, where each states one.
fn sets_in(alloc: Global, items: &[Value]) -> Result<Option<Addresses>, Memory>
    ensures { IfOk result (λ sets. sets ≡ all_of spec.set_of (items_view items.now)) }
{
    let mut sets = Few::new(alloc);
    for item in items {
        let Some(set) = set_of(item) else {
            return Ok(None);
        };
        sets.push(set)?;
    }
    Ok(Some(sets))
}

// The 1 to 16 address sets of a port.
fn stated_sets(alloc: Global, value: &Value) -> Result<Option<Addresses>, Memory>
    ensures { IfOk result (λ sets. sets ≡ spec.stated_sets (view value.now)) }
{
    let Value::Array(items) = value else {
        return Ok(None);
    };
    let Some(sets) = sets_in(alloc, items.as_slice())? else {
        return Ok(None);
    };
    if 1 <= sets.len() && sets.len() <= MOST_SETS {
        Ok(Some(sets))
    } else {
        Ok(None)
    }
}

// The address sets of some ports, where each states some.
fn ports_in(alloc: Global, items: &[Value]) -> Result<Option<AddressLists>, Memory>
    ensures { IfOk result (λ ports. ports ≡ all_of spec.stated_sets (items_view items.now)) }
{
    let mut ports = Items::new(alloc);
    for item in items {
        let Some(sets) = stated_sets(alloc, item)? else {
            return Ok(None);
        };
        ports.push(sets)?;
    }
    Ok(Some(ports))
}

// The 1 to 64 ports that stand under a key.
fn ports_under(alloc: Global, table: &Table, key: &str) -> Result<Option<AddressLists>, Memory>
    ensures { IfOk result (λ ports. ports ≡ spec.stated_ports (get_member key.now
        (table_view table.now))) }
{
    let Some(Value::Array(items)) = under(table, key) else {
        return Ok(None);
    };
    let Some(ports) = ports_in(alloc, items.as_slice())? else {
        return Ok(None);
    };
    if 1 <= ports.len() && ports.len() <= MOST_PORTS {
        Ok(Some(ports))
    } else {
        Ok(None)
    }
}

// How many ports a source has: 1 to 64, and 1 where they are missing.
fn port_count(table: &Table) -> Option<u64>
    ensures { result ≡ spec.port_count_in (table_view table.now) }
{
    match under(table, "ports") {
        None => Some(1),
        Some(_) => number_under(table, "ports", 1, MOST_PORTS as u64),
    }
}

// A source.
fn source_of(table: &Table) -> Option<NodeKind>
    ensures { result ≡ spec.source_of (table_view table.now) }
{
    let ports = port_count(table)?;
    let ids = number_under(table, "ids", 1, u64::from(MOST_SOURCE_IDS))?;
    let emits = operations_under(table, "emits")?;
    Some(NodeKind::Source {
        ports: ports as u32,
        ids: ids as u32,
        emits,
    })
}

// The bytes of a bus that stand under a key.
fn beat_under(table: &Table, key: &str) -> Option<u64>
    ensures value { result ≡ spec.beat_under key.now (table_view table.now) }
    ensures fits { IfSome result (λ beat. beat ≤ 8) }
{
    let beat = number_under(table, key, 1, 8)?;
    if is_width(beat as u32) {
        Some(beat)
    } else {
        None
    }
}

// A sink.
fn sink_of(alloc: Global, table: &Table) -> Result<Option<NodeKind>, Memory>
    ensures { IfOk result (λ kind. kind ≡ spec.sink_of (table_view table.now)) }
{
    let Some(beat) = beat_under(table, "beat") else {
        return Ok(None);
    };
    let Some(ports) = ports_under(alloc, table, "addresses")? else {
        return Ok(None);
    };
    let Some(supports) = operations_under(table, "supports") else {
        return Ok(None);
    };
    Ok(Some(NodeKind::Sink {
        beat: beat as u32,
        ports,
        supports,
    }))
}

// An argument: an integer below 2^32.
fn arg_of(value: &Value) -> Option<u32>
    ensures { result ≡ spec.arg_of (view value.now) }
{
    match value {
        Value::Integer(integer) => Some(number_within(*integer, 0, MOST_ARG)? as u32),
        _ => None,
    }
}

// The arguments of some items, where each states one.
fn args_in(alloc: Global, items: &[Value]) -> Result<Option<Args>, Memory>
    ensures { IfOk result (λ args. args ≡ all_of spec.arg_of (items_view items.now)) }
{
    let mut args = Items::new(alloc);
    for item in items {
        let Some(arg) = arg_of(item) else {
            return Ok(None);
        };
        args.push(arg)?;
    }
    Ok(Some(args))
}

// The at most 8 arguments that stand under a key, none where it is missing.
fn args_under(alloc: Global, table: &Table, key: &str) -> Result<Option<Args>, Memory>
    ensures { IfOk result (λ args. args ≡ spec.args_of (get_member key.now (table_view table.now))) }
{
    let items = match under(table, key) {
        None => return Ok(Some(Items::new(alloc))),
        Some(Value::Array(items)) => items.as_slice(),
        Some(_) => return Ok(None),
    };
    let Some(args) = args_in(alloc, items)? else {
        return Ok(None);
    };
    if args.len() <= MOST_ARGS {
        Ok(Some(args))
    } else {
        Ok(None)
    }
}

// A node of a kind that a rule is for.
fn ruled_of(alloc: Global, kind: &str, table: &Table) -> Result<Option<NodeKind>, Memory>
    requires { IsTrue (names.is_name kind.now) }
    ensures { IfOk result (λ node. node ≡ spec.ruled_of kind.now (table_view table.now)) }
{
    let Some(args) = args_under(alloc, table, "args")? else {
        return Ok(None);
    };
    let kind = named(alloc, kind)?;
    Ok(Some(NodeKind::Ruled { kind, args }))
}

// What a node is.
fn kind_of(alloc: Global, table: &Table) -> Result<Option<NodeKind>, Memory>
    ensures { IfOk result (λ kind. kind ≡ spec.kind_of (table_view table.now)) }
{
    match name_under(table, "kind") {
        Some("source") => Ok(source_of(table)),
        Some("sink") => sink_of(alloc, table),
        Some(kind) => ruled_of(alloc, kind, table),
        None => Ok(None),
    }
}

/// A node whose numbers are within the limits, before its module is looked up.
#[derive(Drop)]
pub struct LimitedNode {
    pub name: Name,
    pub kind: NodeKind,
}

/// Such nodes by their numbers, in file order.
pub type LimitedNodes = Items<LimitedNode>;

/// The node that a table states; `None` where a number of it is beyond its limits.
pub fn node_of(alloc: Global, value: &Value) -> Result<Option<LimitedNode>, Memory>
    ensures { IfOk result (λ node. node ≡ spec.node_of (view value.now)) }
{
    let Value::Table(table) = value else {
        return Ok(None);
    };
    let Some(text) = name_under(table, "name") else {
        return Ok(None);
    };
    let Some(kind) = kind_of(alloc, table)? else {
        return Ok(None);
    };
    let name = named(alloc, text)?;
    Ok(Some(LimitedNode { name, kind }))
}
