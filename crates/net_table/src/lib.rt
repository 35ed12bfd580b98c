//! Tables of registers: opened, read at an index, changed at an index, and driven together.
#![tactic(auto)]

mod entries;
mod table;

pub use entries::{read_entry, write_entry};
pub use table::{drive_registers, open_table};
