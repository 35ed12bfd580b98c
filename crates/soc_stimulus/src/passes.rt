ghost use Rattle.std.specs.Prelude.{◌≡◌, ◌+◌, ◌<◌, ◌^◌, length, ℕ};
ghost use Rattle.std.specs.Option.{option_map};
ghost use Rattle.toml.specs.View.{table_view, view, items_view};
ghost use Rattle.dip_lists.specs.First.{first, first_failing, failure_of};
ghost use Rattle.toml_shape.specs.Entries.{failing};
ghost use Rattle.soc_stimulus.specs.Entries as spec;

use crate::limits::{MOST_CYCLES, is_beyond};
use crate::shape::{stimulus_has_shape, table_has_shape};
use crate::tables::{Part, first_device, first_stall};
use toml::{Table, Value};
use toml_shape::{number_under, tables_in};

/// What is asked of each table: its shape in the first pass, and the limits in the second.
#[derive(Clone, Copy)]
pub enum Pass {
    Shape,
    Limits,
}

// Whether a table of a part, with its place among them, fails.
fn table_fails(pass: Pass, part: Part, place: usize, value: &Value) -> bool
    ensures { result ≡ spec.table_fails pass part place (view value.now) }
{
    match pass {
        Pass::Shape => !table_has_shape(part, value),
        Pass::Limits => is_beyond(part, place, value),
    }
}

// Whether the top table fails.
fn top_fails(pass: Pass, table: &Table) -> bool
    ensures { result ≡ spec.top_fails pass (table_view table.now) }
{
    match pass {
        Pass::Shape => !stimulus_has_shape(table),
        Pass::Limits => number_under(table, "cycles", 0, MOST_CYCLES).is_none(),
    }
}

// The first of the tables of a part that fails, where the first of them is the entry `entry`.
fn first_to_fail(pass: Pass, part: Part, tables: &[Value], entry: u64) -> Option<u64>
    requires { entry + length tables.now < 2 ^ 64 }
    ensures { result ≡ first (failing (spec.table_fails pass part) 0 entry (items_view tables.now)) }
{
    for (place, value) in tables.iter().enumerate() {
        if table_fails(pass, part, place, value) {
            return Some(entry + place as u64);
        }
    }
    None
}

/// The first entry that fails in a pass.
pub fn failing_entry(pass: Pass, table: &Table) -> Option<u64>
    ensures { option_map (failure_of (spec.pass_rule pass)) result ≡ first_failing (spec.checks_of_pass pass
        (table_view table.now)) }
{
    if top_fails(pass, table) {
        return Some(0);
    }
    let stall = first_stall(table);
    let device = first_device(table);
    if let Some(entry) = first_to_fail(pass, Part::Request, tables_in(table, "request"), 1) {
        return Some(entry);
    }
    if let Some(entry) = first_to_fail(pass, Part::Stall, tables_in(table, "stall"), stall) {
        return Some(entry);
    }
    first_to_fail(pass, Part::Device, tables_in(table, "device"), device)
}
