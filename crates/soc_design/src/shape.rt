ghost use Rattle.std.specs.Prelude.{◌≡◌, ◌+◌, ◌<◌, ◌^◌, length, not};
ghost use Rattle.toml.specs.Data.{get_member};
ghost use Rattle.toml.specs.View.{table_view, view, items_view};
ghost use Rattle.toml_shape.specs.Shapes.{has, may_have};
ghost use Rattle.std.specs.Option.{option_map};
ghost use Rattle.dip_lists.specs.First.{first, first_failing, failure_of};
ghost use Rattle.soc_design.specs.Shape as spec;
ghost use Rattle.toml_shape.specs.Entries.{failing};
ghost use Rattle.soc_design.specs.Reading.{shape_checks};

use crate::tables::{first_bind, first_node};
use toml::{Table, Value};
use toml_shape::{
    integer_under, keys_among, may_have_integer, may_have_name, may_have_text, name_under, pair,
    tables_in, tables_under, under,
};

/// What the tables of an array of the top table are.
#[derive(Clone, Copy)]
enum Part {
    Module,
    Node,
    Bind,
}

// The keys of the top table, of a module, of nodes by their kinds, of a bind, and of the sizes of operations.
const TOP_KEYS: [&str; 6] = ["version", "name", "policy", "module", "node", "bind"];

const MODULE_KEYS: [&str; 2] = ["name", "parent"];

const SOURCE_KEYS: [&str; 6] = ["name", "module", "kind", "ids", "emits", "ports"];

const SINK_KEYS: [&str; 6] = ["name", "module", "kind", "beat", "addresses", "supports"];

const RULED_KEYS: [&str; 4] = ["name", "module", "kind", "args"];

const BIND_KEYS: [&str; 3] = ["to", "from", "kind"];

const OPERATION_KEYS: [&str; 6] = [
    "get",
    "put_full",
    "put_partial",
    "arithmetic",
    "logical",
    "intent",
];

// Whether each item is an integer.
fn are_integers(items: &[Value]) -> bool
    ensures { result ≡ spec.are_integers (items_view items.now) }
{
    for item in items {
        if !matches!(item, Value::Integer(_)) {
            return false;
        }
    }
    true
}

// Whether an array of integers or nothing stands under a key.
fn may_have_integers(table: &Table, key: &str) -> bool
    ensures { result ≡ may_have spec.is_integer_list (get_member key.now (table_view table.now)) }
{
    match under(table, key) {
        None => true,
        Some(Value::Array(items)) => are_integers(items.as_slice()),
        Some(_) => false,
    }
}

// Whether each item is an array of two integers.
fn are_pairs(items: &[Value]) -> bool
    ensures { result ≡ spec.are_pairs (items_view items.now) }
{
    for item in items {
        if pair(item).is_none() {
            return false;
        }
    }
    true
}

// Whether a value is an array of such pairs.
fn is_set_list(value: &Value) -> bool
    ensures { result ≡ spec.is_set_list (view value.now) }
{
    match value {
        Value::Array(sets) => are_pairs(sets.as_slice()),
        _ => false,
    }
}

// Whether each item is an array of such pairs.
fn are_set_lists(items: &[Value]) -> bool
    ensures { result ≡ spec.are_set_lists (items_view items.now) }
{
    for item in items {
        if !is_set_list(item) {
            return false;
        }
    }
    true
}

// Whether an array with an array of such pairs for each port stands under a key.
fn has_port_list(table: &Table, key: &str) -> bool
    ensures { result ≡ has spec.is_port_list (get_member key.now (table_view table.now)) }
{
    match under(table, key) {
        Some(Value::Array(ports)) => are_set_lists(ports.as_slice()),
        _ => false,
    }
}

// Whether an array of two integers stands under each key.
fn have_pairs(table: &Table) -> bool
    ensures { result ≡ spec.have_pairs (table_view table.now) }
{
    for (_, value) in table {
        if pair(value).is_none() {
            return false;
        }
    }
    true
}

// Whether a table of pairs by the names of operations stands under a key.
fn has_operations(table: &Table, key: &str) -> bool
    ensures { result ≡ has spec.is_operations (get_member key.now (table_view table.now)) }
{
    match under(table, key) {
        Some(Value::Table(operations)) => keys_among(&OPERATION_KEYS, operations)
            && have_pairs(operations),
        _ => false,
    }
}

// Whether modules, nodes and binds, as far as they are there, are arrays of tables.
fn has_arrays(table: &Table) -> bool
    ensures { result ≡ spec.has_arrays (table_view table.now) }
{
    tables_under(table, "module").is_some()
        && tables_under(table, "node").is_some()
        && tables_under(table, "bind").is_some()
}

// Whether the top table has its shape.
fn top_has_shape(table: &Table) -> bool
    ensures { result ≡ spec.top_has_shape (table_view table.now) }
{
    keys_among(&TOP_KEYS, table)
        && integer_under(table, "version").is_some()
        && name_under(table, "name").is_some()
        && may_have_text(table, "policy", &["lowest", "round"])
        && has_arrays(table)
}

// Whether the table of a source has its shape.
fn source_has_shape(table: &Table) -> bool
    ensures { result ≡ spec.source_has_shape (table_view table.now) }
{
    keys_among(&SOURCE_KEYS, table)
        && integer_under(table, "ids").is_some()
        && has_operations(table, "emits")
        && may_have_integer(table, "ports")
}

// Whether the table of a sink has its shape.
fn sink_has_shape(table: &Table) -> bool
    ensures { result ≡ spec.sink_has_shape (table_view table.now) }
{
    keys_among(&SINK_KEYS, table)
        && integer_under(table, "beat").is_some()
        && has_port_list(table, "addresses")
        && has_operations(table, "supports")
}

// Whether the table of a node of any other kind has its shape.
fn ruled_has_shape(table: &Table) -> bool
    ensures { result ≡ spec.ruled_has_shape (table_view table.now) }
{
    keys_among(&RULED_KEYS, table) && may_have_integers(table, "args")
}

// Whether the table of a node has the shape that its kind asks for.
fn kind_has_shape(table: &Table) -> bool
    ensures { result ≡ spec.kind_has_shape (table_view table.now) }
{
    match name_under(table, "kind") {
        Some("source") => source_has_shape(table),
        Some("sink") => sink_has_shape(table),
        Some(_) => ruled_has_shape(table),
        None => false,
    }
}

// Whether a value has the shape of a module.
fn module_has_shape(value: &Value) -> bool
    ensures { result ≡ spec.module_has_shape (view value.now) }
{
    let Value::Table(table) = value else {
        return false;
    };
    keys_among(&MODULE_KEYS, table)
        && name_under(table, "name").is_some()
        && may_have_name(table, "parent")
}

// Whether a value has the shape of a node.
fn node_has_shape(value: &Value) -> bool
    ensures { result ≡ spec.node_has_shape (view value.now) }
{
    let Value::Table(table) = value else {
        return false;
    };
    name_under(table, "name").is_some() && may_have_name(table, "module") && kind_has_shape(table)
}

// Whether a value has the shape of a bind.
fn bind_has_shape(value: &Value) -> bool
    ensures { result ≡ spec.bind_has_shape (view value.now) }
{
    let Value::Table(table) = value else {
        return false;
    };
    keys_among(&BIND_KEYS, table)
        && name_under(table, "to").is_some()
        && name_under(table, "from").is_some()
        && may_have_text(table, "kind", &[":=", ":=*", ":*="])
}

// Whether a value has the shape of a module, a node or a bind.
fn part_has_shape(part: Part, value: &Value) -> bool
    ensures { result ≡ spec.part_has_shape part (view value.now) }
{
    match part {
        Part::Module => module_has_shape(value),
        Part::Node => node_has_shape(value),
        Part::Bind => bind_has_shape(value),
    }
}

// The first of some modules, nodes or binds that hasn't its shape, where the first one is the entry `entry`.
fn first_misshapen(part: Part, tables: &[Value], entry: u64) -> Option<u64>
    requires { entry + length tables.now < 2 ^ 64 }
    ensures { result ≡ first (failing (λ place d. not (spec.part_has_shape part d)) 0 entry
        (items_view tables.now)) }
{
    for (place, value) in tables.iter().enumerate() {
        if !part_has_shape(part, value) {
            return Some(entry + place as u64);
        }
    }
    None
}

/// The first entry that hasn't the shape of its table.
pub fn misshapen_entry(table: &Table) -> Option<u64>
    ensures { option_map (failure_of 2) result ≡ first_failing (shape_checks (table_view table.now)) }
{
    if !top_has_shape(table) {
        return Some(0);
    }
    let node_entry = first_node(table);
    let bind_entry = first_bind(table);
    if let Some(entry) = first_misshapen(Part::Module, tables_in(table, "module"), 1) {
        return Some(entry);
    }
    if let Some(entry) = first_misshapen(Part::Node, tables_in(table, "node"), node_entry) {
        return Some(entry);
    }
    first_misshapen(Part::Bind, tables_in(table, "bind"), bind_entry)
}
