ghost use Rattle.std.specs.Prelude.{◌≡◌, ◌+◌, ◌<◌, ◌^◌, [], length, nat_le, nat_lt, ◌&&◌, cond, Some, None, if◌then◌else◌, IfOk};
ghost use Rattle.std.specs.Str.{bytes_eq};
ghost use Rattle.dip_sets.specs.Names.{is_name};
ghost use Rattle.net_cells.specs.declared.netlist.Port.{Port};
ghost use Rattle.ver_text.specs.Numerals.{numbered};
ghost use Rattle.ver_text.specs.Due as spec;

use crate::digits::{number_below, numbered};
use crate::named::NamedPorts;
use dip_lists::{Items, Memory};
use dip_sets::Name;
use net_cells::{CellList, OutPorts, Regs, WIDTH_LIMIT};
use std::alloc::Global;

/// What the parts of a text said so far.
#[derive(Drop)]
pub struct Progress {
    /// Whether the clock was read.
    pub clocked: bool,
    /// The module's name.
    pub name: Option<Name>,
    /// The inputs.
    pub inputs: NamedPorts,
    /// The outputs, with their widths.
    pub declared: NamedPorts,
    /// The widths of all nets: of inputs, registers and cells.
    pub widths: Items<u32>,
    /// How many inputs and registers there are.
    pub sources: u64,
    /// The number of the register whose next net is due next.
    pub next_register: u64,
    /// The number of the cell whose value is due next.
    pub next_cell: u64,
    /// The registers whose next net was read.
    pub regs: Regs,
    /// The cells whose value was read.
    pub cells: CellList,
    /// The outputs whose net was read.
    pub outputs: OutPorts,
}

/// The name with these bytes; `None` exactly where they have another form.
#[tactic(auto, using(crate::proofs::Names::name_is_text))]
pub fn name_of(alloc: Global, bytes: &[u8]) -> Result<Option<Name>, Memory>
    ensures { IfOk result (λ name. name ≡ (if is_name bytes.now then Some bytes.now else None)) }
{
    let Ok(text) = str::from_utf8(bytes) else {
        return Ok(None);
    };
    Name::new(alloc, text)
}

fn if_within(first: u64, end: u64, number: u64) -> Option<u64>
    ensures { result ≡ spec.if_within first end number }
{
    (first <= number && number < end).then_some(number)
}

/// The width of a range; `None` where it isn't one of 1 to 64 bits.
#[tactic(auto, unfolding(crate::specs::Due::width_of))]
pub fn width_of(high: &[u8], low: &[u8]) -> Option<u32>
    ensures { result ≡ spec.width_of high.now low.now }
{
    let high = number_below(WIDTH_LIMIT, high)?;
    if low == b"0".as_slice() {
        Some(high + 1)
    } else {
        None
    }
}

impl Progress {
    /// Nothing was read yet.
    pub fn at_first(alloc: Global) -> Progress
        ensures { result ≡ spec.at_first }
    {
        Progress {
            clocked: false,
            name: None,
            inputs: NamedPorts::new(alloc),
            declared: NamedPorts::new(alloc),
            sources: 0,
            next_register: 0,
            next_cell: 0,
            widths: Items::new(alloc),
            regs: Items::new(alloc),
            cells: Items::new(alloc),
            outputs: Items::new(alloc),
        }
    }

    // The net of a cell by its number, or of an input by its name where it has none.
    fn cell_named(&self, name: &[u8]) -> Option<u64>
        ensures { result ≡ spec.cell_named self.now name.now (numbered 119 name.now) }
    {
        match numbered(b'w', name) {
            Some(number) => if_within(self.sources, self.widths.len() as u64, number),
            None => self.inputs.place_of(name),
        }
    }

    /// The net with a name.
    #[tactic(auto, unfolding(crate::specs::Due::net_named))]
    pub fn net_named(&self, name: &[u8]) -> Option<u64>
        ensures { result ≡ spec.net_named self.now name.now }
    {
        match numbered(b'r', name) {
            Some(number) => if_within(self.inputs.len() as u64, self.sources, number),
            None => self.cell_named(name),
        }
    }
}
