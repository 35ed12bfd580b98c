ghost use Rattle.std.specs.Prelude.{◌≡◌, ◌<◌, ◌^◌, IsTrue, IfOk};
ghost use Rattle.toml.specs.View.{table_view};
ghost use Rattle.dip_sets.specs.Names as names;
ghost use Rattle.soc_design.specs.Reading as spec;

use dip_lists::Memory;
use dip_sets::Name;
use std::alloc::Global;
use toml::Table;
use toml_shape::tables_in;

/// The entry of the first node: the top table is entry 0, and the modules stand before.
pub fn first_node(table: &Table) -> u64
    ensures value { result ≡ spec.first_node (table_view table.now) }
    ensures room { result < 2 ^ 61 }
{
    1 + tables_in(table, "module").len() as u64
}

/// The entry of the first bind: the nodes stand before.
pub fn first_bind(table: &Table) -> u64
    ensures value { result ≡ spec.first_bind (table_view table.now) }
    ensures room { result < 2 ^ 62 }
{
    first_node(table) + tables_in(table, "node").len() as u64
}

/// The name with a text that has the form of one.
pub fn named(alloc: Global, text: &str) -> Result<Name, Memory>
    requires { IsTrue (names.is_name text.now) }
    ensures { IfOk result (λ name. name ≡ text.now) }
{
    match Name::new(alloc, text)? {
        Some(name) => Ok(name),
        None => unreachable!(),
    }
}
