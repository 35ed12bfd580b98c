ghost use Rattle.std.specs.Prelude.{◌≡◌, ◌<◌, ◌^◌};
ghost use Rattle.toml.specs.View.{table_view};
ghost use Rattle.soc_stimulus.specs.Entries as spec;

use toml::Table;
use toml_shape::tables_in;

/// What the tables of an array of the top table are.
#[derive(Clone, Copy)]
pub enum Part {
    Request,
    Stall,
    Device,
}

/// The entry of the first stall: the top table is entry 0, and the requests stand before.
pub fn first_stall(table: &Table) -> u64
    ensures value { result ≡ spec.first_stall (table_view table.now) }
    ensures room { result < 2 ^ 61 }
{
    1 + tables_in(table, "request").len() as u64
}

/// The entry of the first device: the stalls stand before.
pub fn first_device(table: &Table) -> u64
    ensures value { result ≡ spec.first_device (table_view table.now) }
    ensures room { result < 2 ^ 62 }
{
    first_stall(table) + tables_in(table, "stall").len() as u64
}
