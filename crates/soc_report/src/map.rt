ghost use Rattle.std.specs.Prelude.{◌≡◌, ◌++◌, decimal, IfOk, OnOk};
ghost use Rattle.soc_report.specs.MapText as spec;

use crate::ports::add_all_lines;
use dip_graph::Design;
use dip_lists::{Bytes, Memory};
use dip_plan::Accepted;
use dip_text::Text;
use std::alloc::Global;

// Puts the first line of a map at the end of a text.
fn add_design_line(text: &mut Text, name: &[u8], edges: usize) -> Result<(), Memory>
    ensures { OnOk result (text.new ≡ text.old ++ spec.design_line name.now edges) }
{
    text.add(b"design ")?;
    text.add(name)?;
    text.add(b" edges ")?;
    text.add_number(edges as u64)?;
    text.add(b"\n")
}

/// The map of an accepted design: a line with its name and how many edges it has; then for each port of a
/// source, by node and then by port, a line with its ids and the width of its bus in bytes, and below it a
/// line for each address set that it reaches, with the sizes of each operation there. The error is want of
/// memory.
#[tactic(auto, unfolding(crate::specs::MapText::map_text))]
pub fn map_text(alloc: Global, design: &Design, accepted: &Accepted) -> Result<Bytes, Memory>
    ensures { IfOk result (λ text. text ≡ spec.map_text design.now accepted.now) }
{
    let nodes = design.nodes.as_slice();
    let edges = accepted.edges.as_slice();
    let ups = accepted.solution.up.as_slice();
    let mut text = Text::new(alloc);
    add_design_line(&mut text, design.name.bytes(), edges.len())?;
    add_all_lines(&mut text, nodes, edges, ups)?;
    Ok(text.into_bytes())
}
