ghost use Rattle.std.specs.Prelude.{◌≡◌, ◌≤◌, ◌+◌, ◌++◌, length, take};
ghost use Rattle.soc_report.specs.NetlistLine as spec;

use crate::line::{add, add_number};
use net_cells::Netlist;

// Puts how many there are of something behind what stands in a line, and answers where it ends.
fn add_counted(into: &mut [u8], at: usize, word: &[u8], count: usize) -> usize
    requires { at + length word.now + 22 ≤ length into.now }
    ensures end { result ≤ at + length word.now + 22 }
    ensures text { take result into.new ≡ take at into.old ++ spec.count_of word.now count }
    ensures room { length into.new ≡ length into.old }
{
    let end = add(into, at, b" ");
    let end = add(into, end, word);
    let end = add(into, end, b" ");
    add_number(into, end, count as u64)
}

/// Writes the line of a netlist to the front of `into`, and answers how many bytes it has: the module's
/// name, and how many inputs, outputs, registers and cells it has. It takes no memory.
#[tactic(auto, unfolding(crate::specs::NetlistLine::netlist_line))]
pub fn netlist_line(netlist: &Netlist, into: &mut [u8; 256]) -> usize
    ensures within { result ≤ 256 }
    ensures text { take result into.new ≡ spec.netlist_line netlist.now }
{
    let end = add(into, 0, b"module ");
    let end = add(into, end, netlist.name.bytes());
    let end = add_counted(into, end, b"inputs", netlist.inputs.len());
    let end = add_counted(into, end, b"outputs", netlist.outputs.len());
    let end = add_counted(into, end, b"registers", netlist.regs.len());
    let end = add_counted(into, end, b"cells", netlist.cells.len());
    add(into, end, b"\n")
}
