ghost use Rattle.std.specs.Prelude.{◌≡◌, ◌≤◌, ◌<◌, ◌^◌, ◌+◌, length, IfNone};
ghost use Rattle.toml.specs.View.{table_view, items_view};
ghost use Rattle.dip_lists.specs.First.{first};
ghost use Rattle.toml_shape.specs.Entries as spec;

use crate::tables_under;
use toml::{Table, Value};

/// The tables of the array under a key, none where there is no such array.
pub fn tables_in<'a>(table: &'a Table, key: &str) -> &'a [Value]
    ensures { items_view result.now ≡ spec.tables_in key.now (table_view table.now) }
{
    match tables_under(table, key) {
        Some(tables) => tables,
        None => &[],
    }
}

/// The first of some tables past the allowed number of them, where the first one is the entry `entry`.
pub fn first_past(tables: &[Value], most: usize, entry: u64) -> Option<u64>
    requires { entry + length tables.now < 2 ^ 64 }
    ensures value { result ≡ first (spec.failing (spec.is_past most) 0 entry (items_view tables.now)) }
    ensures few { IfNone result (length tables.now ≤ most) }
{
    if tables.len() > most {
        Some(entry + most as u64)
    } else {
        None
    }
}
