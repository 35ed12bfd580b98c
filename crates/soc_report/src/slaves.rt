ghost use Rattle.std.specs.Prelude.{◌≡◌, ◌++◌, OnOk, slice_get};
ghost use Rattle.soc_report.specs.MapText.{name_of, operations_text, place_text, set_line, set_lines};
ghost use Rattle.soc_report.specs.MapText.{set_text, sizes_text, slave_lines};

use dip_graph::NodeEntry;
use dip_lists::Memory;
use dip_sets::{AddressSet, Sizes};
use dip_text::Text;
use tl_params::{Ops, Slave};

// Adds the name of a node by its number, `?` where there is none.
fn add_name(text: &mut Text, nodes: &[NodeEntry], node: u32) -> Result<(), Memory>
    ensures { OnOk result (text.new ≡ text.old ++ name_of (slice_get nodes.now node)) }
{
    match nodes.get(node as usize) {
        Some(entry) => text.add(entry.name.bytes()),
        None => text.add(b"?"),
    }
}

// Adds a port of a node, as `ram.0`.
#[tactic(auto, unfolding(crate::specs::MapText::place_text))]
fn add_place(text: &mut Text, nodes: &[NodeEntry], node: u32, port: u32) -> Result<(), Memory>
    ensures { OnOk result (text.new ≡ text.old ++ place_text nodes.now node port) }
{
    add_name(text, nodes, node)?;
    text.add(b".")?;
    text.add_number(u64::from(port))
}

// Adds the least and the greatest size of an operation, as ` get=1-8`, and nothing where it has none.
#[tactic(auto, unfolding(crate::specs::MapText::sizes_text))]
fn add_sizes(text: &mut Text, key: &[u8], sizes: &Sizes) -> Result<(), Memory>
    ensures { OnOk result (text.new ≡ text.old ++ sizes_text key.now sizes.now) }
{
    if sizes.max() == 0 {
        return Ok(());
    }
    text.add(b" ")?;
    text.add(key)?;
    text.add(b"=")?;
    text.add_number(u64::from(sizes.min()))?;
    text.add(b"-")?;
    text.add_number(u64::from(sizes.max()))
}

// Adds the sizes of each operation.
#[tactic(auto, unfolding(crate::specs::MapText::operations_text))]
fn add_operations(text: &mut Text, ops: &Ops) -> Result<(), Memory>
    ensures { OnOk result (text.new ≡ text.old ++ operations_text ops.now) }
{
    add_sizes(text, b"get", &ops.get)?;
    add_sizes(text, b"put_full", &ops.put_full)?;
    add_sizes(text, b"put_partial", &ops.put_partial)?;
    add_sizes(text, b"arithmetic", &ops.arithmetic)?;
    add_sizes(text, b"logical", &ops.logical)?;
    add_sizes(text, b"intent", &ops.intent)
}

// Adds the base and the mask of an address set.
#[tactic(auto, unfolding(crate::specs::MapText::set_text))]
fn add_set(text: &mut Text, set: &AddressSet) -> Result<(), Memory>
    ensures { OnOk result (text.new ≡ text.old ++ set_text set.now) }
{
    text.add(b"  ")?;
    text.add_hexadecimal(set.base())?;
    text.add(b" ")?;
    text.add_hexadecimal(set.mask())?;
    text.add(b" ")
}

// Adds the line of an address set of a slave.
#[tactic(auto, unfolding(crate::specs::MapText::set_line))]
fn add_set_line(
    text: &mut Text,
    nodes: &[NodeEntry],
    slave: &Slave,
    set: &AddressSet,
) -> Result<(), Memory>
    ensures { OnOk result (text.new ≡ text.old ++ set_line nodes.now slave.now set.now) }
{
    add_set(text, set)?;
    add_place(text, nodes, slave.node, slave.port)?;
    add_operations(text, &slave.supports)?;
    text.add(b"\n")
}

// Adds a line for each address set of a slave.
fn add_set_lines(text: &mut Text, nodes: &[NodeEntry], slave: &Slave) -> Result<(), Memory>
    ensures { OnOk result (text.new ≡ text.old ++ set_lines nodes.now slave.now slave.now.addresses) }
{
    let sets = slave.addresses.as_slice();
    for set in sets {
        add_set_line(text, nodes, slave, set)?;
    }
    Ok(())
}

/// Puts the lines of what a port reaches at the end of a text.
pub fn add_slave_lines(text: &mut Text, nodes: &[NodeEntry], slaves: &[Slave]) -> Result<(), Memory>
    ensures { OnOk result (text.new ≡ text.old ++ slave_lines nodes.now slaves.now) }
{
    for slave in slaves {
        add_set_lines(text, nodes, slave)?;
    }
    Ok(())
}
