ghost use Rattle.std.specs.Prelude.{◌≡◌, ◌≤◌, ◌<◌, ◌^◌, ◌+◌, length, All, IfOk, IfErr, IfSome, None, Some};
ghost use Rattle.std.specs.Option.{option_map};
ghost use Rattle.toml.specs.View.{table_view, items_view};
ghost use Rattle.dip_lists.specs.First.{first, first_failing, failure_of};
ghost use Rattle.dip_graph.specs.WellStated.{IsWellStated};
ghost use Rattle.dip_graph.specs.Faults.{IsFaultOf};
ghost use Rattle.soc_design.specs.Reading as spec;

use crate::limits::limited;
use crate::names::named_design;
use crate::shape::misshapen_entry;
use dip_graph::{Design, Fault};
use dip_lists::Memory;
use std::alloc::Global;
use std::str;
use toml::Table;

/// The most bytes of a design file.
pub const MOST_BYTES: usize = 1_048_576;

// The tree of a file that isn't too long, is UTF-8, and is TOML.
fn tree_of(alloc: Global, bytes: &[u8]) -> Result<Option<Table>, Memory>
    ensures { IfOk result (λ tree. option_map table_view tree ≡ spec.tree_of bytes.now) }
{
    if bytes.len() > MOST_BYTES {
        return Ok(None);
    }
    let Ok(text) = str::from_utf8(bytes) else {
        return Ok(None);
    };
    match toml::table_from_str(alloc, text) {
        Ok(table) => Ok(Some(table)),
        Err(error) if error.is_memory() => Err(Memory),
        Err(_) => Ok(None),
    }
}

// The design that a tree states; `Fault::Check` names the first of the checks 2 to 4 that fails.
fn design_in(alloc: Global, table: &Table) -> Result<Design, Fault>
    ensures ok { IfOk result (λ design. spec.design_of (table_view table.now) ≡ Some design) }
    ensures modules { IfOk result (λ design. length design.modules ≤ 256) }
    ensures some_node { IfOk result (λ design. 1 ≤ length design.nodes) }
    ensures nodes { IfOk result (λ design. length design.nodes ≤ 256) }
    ensures binds { IfOk result (λ design. length design.binds ≤ 1024) }
    ensures passes { IfOk result (λ _. first_failing (spec.tree_checks (table_view table.now)) ≡ None) }
    ensures err { IfErr result (IsFaultOf (first_failing (spec.tree_checks (table_view table.now)))) }
{
    if let Some(subject) = misshapen_entry(table) {
        return Err(Fault::Check { number: 2, subject });
    }
    let file = limited(alloc, table)?;
    named_design(alloc, file, table)
}

/// The design that a file states.
///
/// `Fault::Check` names the first of the checks 1 to 4 that fails, and the entry at which it does: entry
/// 0 is the top table, then come the modules, the nodes and the binds, each in file order. After
/// `Fault::Memory` nothing is known of the file.
pub fn read_design(alloc: Global, bytes: &[u8]) -> Result<Design, Fault>
    ensures ok { IfOk result (λ design. spec.stated_design bytes.now ≡ Some design) }
    ensures stated { IfOk result IsWellStated }
    ensures passes { IfOk result (λ _. first_failing (spec.file_checks bytes.now) ≡ None) }
    ensures err { IfErr result (IsFaultOf (first_failing (spec.file_checks bytes.now))) }
{
    match tree_of(alloc, bytes)? {
        Some(table) => design_in(alloc, &table),
        None => Err(Fault::Check {
            number: 1,
            subject: 0,
        }),
    }
}
