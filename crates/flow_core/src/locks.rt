ghost use Rattle.std.specs.Prelude.{◌≡◌, replicate, IfOk};
ghost use Rattle.flow_core.specs.Built as built;
ghost use Rattle.flow_core.specs.Crossing.{with_in, with_out};
ghost use Rattle.flow_core.specs.Leaves.{open_gate};

use dip_lists::{Items, Memory};
use std::alloc::Global;
use tl_edge::Leaf;

/// A message in progress that holds a way through a crossbar.
#[derive(Clone, Copy, Debug, PartialEq, Eq)]
pub struct Lock {
    /// Which input it comes from on channel A, which output on channel D.
    pub by: u32,
    /// How many of its beats are left.
    pub left: u32,
}

/// What a crossbar keeps of an output on channel A, or of an input on channel D.
#[derive(Clone, Copy, Debug, PartialEq, Eq)]
pub struct Gate {
    /// The message in progress that holds it, if one of more beats than one is.
    pub lock: Option<Lock>,
    /// The input, or on channel D the output, whose turn is next.
    pub next: usize,
}

/// The gates of a leaf's outputs on channel A, and of its inputs on channel D.
#[derive(Drop)]
pub struct Gates {
    pub outs: Items<Gate>,
    pub ins: Items<Gate>,
}

// So many open gates.
fn open_gates(alloc: Global, count: usize) -> Result<Items<Gate>, Memory>
    ensures { IfOk result (λ gates. gates ≡ replicate count open_gate) }
{
    let mut gates = Items::new(alloc);
    for _ in 0..count {
        gates.push(Gate {
            lock: None,
            next: 0,
        })?;
    }
    Ok(gates)
}

impl Gates {
    /// The gates of a leaf at the start, all open.
    pub(crate) fn open(alloc: Global, leaf: &Leaf) -> Result<Gates, Memory>
        ensures { IfOk result (λ gates. gates ≡ built.open_gates leaf.now) }
    {
        let outs = open_gates(alloc, leaf.outs.len())?;
        let ins = open_gates(alloc, leaf.ins.len())?;
        Ok(Gates { outs, ins })
    }

    /// Replaces the gate of an output, if it is there.
    pub(crate) fn set_out(&mut self, output: u32, gate: Gate)
        ensures { self.new ≡ with_out self.old output gate }
    {
        if (output as usize) < self.outs.len() {
            self.outs.set(output as usize, gate);
        }
    }

    /// Replaces the gate of an input, if it is there.
    pub(crate) fn set_in(&mut self, input: u32, gate: Gate)
        ensures { self.new ≡ with_in self.old input gate }
    {
        if (input as usize) < self.ins.len() {
            self.ins.set(input as usize, gate);
        }
    }
}
