ghost use Rattle.std.specs.Prelude.{◌≡◌, ◌+◌, ◌-◌, ◌*◌, ◌/◌, ◌%◌, ◌^◌, ◌<◌, ◌≤◌, [], ◌∷◌, length, IfOk, if◌then◌else◌, ◌==◌, nat_lt, bit_and, bit_or, bit_xor, codes};
ghost use Rattle.net_cells.specs.Loops.{HasNoLoop};
ghost use Rattle.net_cells.specs.Rules.{IsCell, IsNamed, IsWellFormed, IsWidth};
ghost use Rattle.net_build.specs.Numbering.{KeepsValues, Resets, finished};
ghost use Rattle.net_cells.specs.Values.{op_value};
ghost use Rattle.net_build.specs.Built.{Built, items, wire_widths, undriven, begun, IsInput, IsWire, IsBit, IsUndriven, IsNewName};
ghost use Rattle.net_build.specs.Sound.{Follows, HasNext, IsLowInReset, Makes};
ghost use Rattle.net_build.specs.Values.{Means, Takes, Becomes, Later, Adds, AddsInput, AddsOutput, Opens, Drives};

use crate::finish::netlist_of;
use crate::types::{Item, Kind, Made, Wire};
use dip_lists::{Items, Memory};
use dip_sets::Name;
use net_cells::{CellOp, Netlist, OutPort, OutPorts};
use std::alloc::Global;
use std::marker::Model;

/// A netlist that is being made.
#[derive(Drop)]
pub struct Builder {
    alloc: Global,
    name: Name,
    made: Vec<Made>,
    outputs: OutPorts,
}

impl Model for Builder {
    ghost use Rattle.net_build.specs.Built.{Built};
    ghost use Rattle.net_build.specs.Sound.{IsWellBuilt};

    ghost Value = { Built };

    ghost view = { λ b. record { name = b.name; made = b.made.items; outputs = b.outputs } };

    ghost invariant = { λ b. IsWellBuilt (record {
      name = b.name;
      made = b.made.items;
      outputs = b.outputs;
    }) };
}

impl Builder {
    /// A builder with one input, `reset`, of one bit. It takes its memory from `alloc` as it grows.
    pub fn new(alloc: Global, name: Name) -> Result<Builder, Memory>
        requires { IsNamed (codes "m_") name }
        ensures begun { IfOk result (λ b. b ≡ begun name) }
        ensures reset { IfOk result (λ b. IsBit b (record { number = 0; width = 1 })) }
    {
        let Some(reset) = Name::new(alloc, "reset")? else {
            unreachable!();
        };
        let mut made = Vec::new(alloc);
        made.push(Made {
            item: Item {
                width: 1,
                kind: Kind::Input(reset),
            },
            next: None,
        })?;
        Ok(Builder {
            alloc,
            name,
            made,
            outputs: Items::new(alloc),
        })
    }

    // Makes one wire.
    fn make(&mut self, width: u32, kind: Kind) -> Result<Wire, Memory>
        requires width { IsWidth width }
        requires rule { Follows self.old width kind }
        ensures later { IfOk result (λ _. Later self.old self.new) }
        ensures made { IfOk result (λ _. Makes self.old self.new (record { width = width; kind = kind })) }
        ensures wire { IfOk result (λ w. w ≡ record { number = length self.old.made; width = width }) }
    {
        let number = self.made.len() as u64;
        self.made.push(Made {
            item: Item { width, kind },
            next: None,
        })?;
        Ok(Wire { number, width })
    }

    /// A further input.
    #[tactic(auto, using(crate::proofs::Wires::further_inputs))]
    pub fn input(&mut self, name: Name, width: u32) -> Result<Wire, Memory>
        requires name { IsNewName self.old name }
        requires width { IsWidth width }
        ensures adds { IfOk result
            (λ _. AddsInput self.old self.new (record { name = name; width = width })) }
        ensures is { IfOk result (λ w. IsInput self.new w name) }
        ensures wire { IfOk result (λ w. IsWire self.new w × (w.width ≡ width)) }
    {
        let wire = self.make(width, Kind::Input(name))?;
        Ok(wire)
    }

    /// A further output, which shows a wire.
    pub fn output(&mut self, name: Name, wire: Wire) -> Result<(), Memory>
        requires name { IsNewName self.old name }
        requires wire { IsWire self.old wire }
        ensures adds { IfOk result
            (λ _. AddsOutput self.old self.new (record { name = name; net = wire.number })) }
    {
        self.outputs.push(OutPort {
            name,
            net: wire.number,
        })?;
        Ok(())
    }

    /// A register. It is 0 in the first cycle, and is to be driven before the builder is finished.
    #[tactic(auto, using(crate::proofs::Wires::made_wire))]
    pub fn register(&mut self, width: u32) -> Result<Wire, Memory>
        requires { IsWidth width }
        ensures opens { IfOk result (λ w. Opens self.old self.new (w.number ∷ [])) }
        ensures wire { IfOk result (λ w. IsWire self.new w × (w.width ≡ width)) }
        ensures undriven { IfOk result (λ w. IsUndriven self.new w) }
        ensures number { IfOk result (λ w. w.number ≡ length (items self.old)) }
    {
        let wire = self.make(width, Kind::Register)?;
        Ok(wire)
    }

    // Makes a cell.
    #[tactic(auto, using(crate::proofs::Wires::gates))]
    fn gate(&mut self, width: u32, op: CellOp) -> Result<Wire, Memory>
        requires width { IsWidth width }
        requires rule { IsCell (wire_widths self.old) width op }
        ensures adds { IfOk result (λ _. Adds self.old self.new) }
        ensures wire { IfOk result (λ w. IsWire self.new w × (w.width ≡ width)) }
        ensures value { IfOk result
            (λ w. Means self.new w (λ v. op_value (wire_widths self.new) width op v)) }
    {
        let wire = self.make(width, Kind::Gate(op))?;
        Ok(wire)
    }

    /// A wire that is always this value.
    pub fn constant(&mut self, width: u32, value: u64) -> Result<Wire, Memory>
        requires width { IsWidth width }
        requires value { value < 2 ^ width }
        ensures adds { IfOk result (λ _. Adds self.old self.new) }
        ensures wire { IfOk result (λ w. IsWire self.new w × (w.width ≡ width)) }
        ensures value { IfOk result (λ w. Means self.new w (λ v. value)) }
    {
        self.gate(width, CellOp::Const(value))
    }

    /// Each bit inverted.
    pub fn not(&mut self, a: Wire) -> Result<Wire, Memory>
        requires { IsWire self.old a }
        ensures adds { IfOk result (λ _. Adds self.old self.new) }
        ensures wire { IfOk result (λ w. IsWire self.new w × (w.width ≡ a.width)) }
        ensures value { IfOk result (λ w. Means self.new w (λ v. 2 ^ a.width - 1 - v a.number)) }
    {
        self.gate(a.width, CellOp::Not(a.number))
    }

    /// Bit by bit, 1 where both are.
    pub fn and(&mut self, a: Wire, b: Wire) -> Result<Wire, Memory>
        requires wires { IsWire self.old a × IsWire self.old b }
        requires width { b.width ≡ a.width }
        ensures adds { IfOk result (λ _. Adds self.old self.new) }
        ensures wire { IfOk result (λ w. IsWire self.new w × (w.width ≡ a.width)) }
        ensures value { IfOk result (λ w. Means self.new w (λ v. bit_and (v a.number) (v b.number))) }
    {
        self.gate(a.width, CellOp::And(a.number, b.number))
    }

    /// Bit by bit, 1 where one is.
    pub fn or(&mut self, a: Wire, b: Wire) -> Result<Wire, Memory>
        requires wires { IsWire self.old a × IsWire self.old b }
        requires width { b.width ≡ a.width }
        ensures adds { IfOk result (λ _. Adds self.old self.new) }
        ensures wire { IfOk result (λ w. IsWire self.new w × (w.width ≡ a.width)) }
        ensures value { IfOk result (λ w. Means self.new w (λ v. bit_or (v a.number) (v b.number))) }
    {
        self.gate(a.width, CellOp::Or(a.number, b.number))
    }

    /// Bit by bit, 1 where they differ.
    pub fn xor(&mut self, a: Wire, b: Wire) -> Result<Wire, Memory>
        requires wires { IsWire self.old a × IsWire self.old b }
        requires width { b.width ≡ a.width }
        ensures adds { IfOk result (λ _. Adds self.old self.new) }
        ensures wire { IfOk result (λ w. IsWire self.new w × (w.width ≡ a.width)) }
        ensures value { IfOk result (λ w. Means self.new w (λ v. bit_xor (v a.number) (v b.number))) }
    {
        self.gate(a.width, CellOp::Xor(a.number, b.number))
    }

    /// The sum, modulo 2 to the power of the width.
    pub fn add(&mut self, a: Wire, b: Wire) -> Result<Wire, Memory>
        requires wires { IsWire self.old a × IsWire self.old b }
        requires width { b.width ≡ a.width }
        ensures adds { IfOk result (λ _. Adds self.old self.new) }
        ensures wire { IfOk result (λ w. IsWire self.new w × (w.width ≡ a.width)) }
        ensures value { IfOk result (λ w. Means self.new w (λ v. (v a.number + v b.number) % 2 ^ a.width)) }
    {
        self.gate(a.width, CellOp::Add(a.number, b.number))
    }

    /// The difference, modulo 2 to the power of the width.
    pub fn sub(&mut self, a: Wire, b: Wire) -> Result<Wire, Memory>
        requires wires { IsWire self.old a × IsWire self.old b }
        requires width { b.width ≡ a.width }
        ensures adds { IfOk result (λ _. Adds self.old self.new) }
        ensures wire { IfOk result (λ w. IsWire self.new w × (w.width ≡ a.width)) }
        ensures value { IfOk result
            (λ w. Means self.new w (λ v. (v a.number + 2 ^ a.width - v b.number) % 2 ^ a.width)) }
    {
        self.gate(a.width, CellOp::Sub(a.number, b.number))
    }

    /// 1 where both are equal, else 0.
    #[tactic(auto, using(crate::proofs::Wires::one_width))]
    pub fn eq(&mut self, a: Wire, b: Wire) -> Result<Wire, Memory>
        requires wires { IsWire self.old a × IsWire self.old b }
        requires width { b.width ≡ a.width }
        ensures adds { IfOk result (λ _. Adds self.old self.new) }
        ensures wire { IfOk result (λ w. IsWire self.new w × (w.width ≡ 1)) }
        ensures value { IfOk result (λ w. Means self.new w (λ v. if v a.number == v b.number then 1 else 0)) }
    {
        self.gate(1, CellOp::Eq(a.number, b.number))
    }

    /// 1 where the first is below the second, both unsigned, else 0.
    #[tactic(auto, using(crate::proofs::Wires::one_width))]
    pub fn less(&mut self, a: Wire, b: Wire) -> Result<Wire, Memory>
        requires wires { IsWire self.old a × IsWire self.old b }
        requires width { b.width ≡ a.width }
        ensures adds { IfOk result (λ _. Adds self.old self.new) }
        ensures wire { IfOk result (λ w. IsWire self.new w × (w.width ≡ 1)) }
        ensures value { IfOk result
            (λ w. Means self.new w (λ v. if nat_lt (v a.number) (v b.number) then 1 else 0)) }
    {
        self.gate(1, CellOp::Less(a.number, b.number))
    }

    /// `yes` where `pick` is 1, else `no`.
    #[tactic(auto, using(crate::proofs::Wires::bit_width))]
    pub fn mux(&mut self, pick: Wire, yes: Wire, no: Wire) -> Result<Wire, Memory>
        requires pick { IsBit self.old pick }
        requires wires { IsWire self.old yes × IsWire self.old no }
        requires width { no.width ≡ yes.width }
        ensures adds { IfOk result (λ _. Adds self.old self.new) }
        ensures wire { IfOk result (λ w. IsWire self.new w × (w.width ≡ yes.width)) }
        ensures value { IfOk result
            (λ w. Means self.new w (λ v. if v pick.number == 1 then v yes.number else v no.number)) }
    {
        self.gate(yes.width, CellOp::Mux(pick.number, yes.number, no.number))
    }

    /// `high` in the high bits and `low` in the low ones.
    #[tactic(auto, using(crate::proofs::Wires::joined, crate::proofs::Wires::joined_means))]
    pub fn concat(&mut self, high: Wire, low: Wire) -> Result<Wire, Memory>
        requires wires { IsWire self.old high × IsWire self.old low }
        requires width { IsWidth (high.width + low.width) }
        ensures adds { IfOk result (λ _. Adds self.old self.new) }
        ensures wire { IfOk result (λ w. IsWire self.new w × (w.width ≡ high.width + low.width)) }
        ensures value { IfOk result
            (λ w. Means self.new w (λ v. v high.number * 2 ^ low.width + v low.number)) }
    {
        let wire = self.gate(
            high.width + low.width,
            CellOp::Concat(high.number, low.number),
        )?;
        Ok(wire)
    }

    /// The bits of `a` from `lo` to `hi`, both counted from 0 and both included.
    #[tactic(auto, using(crate::proofs::Wires::part))]
    pub fn select(&mut self, a: Wire, hi: u32, lo: u32) -> Result<Wire, Memory>
        requires wire { IsWire self.old a }
        requires order { lo ≤ hi }
        requires within { hi < a.width }
        ensures adds { IfOk result (λ _. Adds self.old self.new) }
        ensures wire { IfOk result (λ w. IsWire self.new w × (w.width ≡ hi - lo + 1)) }
        ensures value { IfOk result (λ w. Means self.new w (λ v. v a.number / 2 ^ lo % 2 ^ (hi - lo + 1))) }
    {
        self.gate(
            hi - lo + 1,
            CellOp::Select {
                net: a.number,
                hi,
                lo,
            },
        )
    }

    /// The allocator from which the builder takes its memory.
    pub(crate) fn alloc(&self) -> Global {
        self.alloc
    }

    // The input `reset`.
    fn reset(&self) -> Wire
        ensures wire { IsBit self.now result }
        ensures number { result.number ≡ 0 }
    {
        // read here, so that what each builder keeps is known of it
        let _made = &self.made;
        Wire {
            number: 0,
            width: 1,
        }
    }

    // 0 where `reset` is 1, else a wire.
    #[tactic(auto, using(crate::proofs::Steps::steps))]
    fn unless_reset(&mut self, wire: Wire) -> Result<Wire, Memory>
        requires { IsWire self.old wire }
        ensures adds { IfOk result (λ _. Adds self.old self.new) }
        ensures wire { IfOk result (λ w. IsWire self.new w × (w.width ≡ wire.width)) }
        ensures value { IfOk result (λ w. Means self.new w (λ v. if v 0 == 1 then 0 else v wire.number)) }
    {
        let reset = self.reset();
        let low = self.constant(wire.width, 0)?;
        let kept = self.mux(reset, low, wire)?;
        Ok(kept)
    }

    // Puts a wire that is 0 where `reset` is 1 before a register.
    fn put(&mut self, register: Wire, before: Wire)
        requires register { IsUndriven self.old register }
        requires wire { IsWire self.old before × (before.width ≡ register.width) }
        requires low { IsLowInReset self.old before.number }
        ensures drives { Drives self.old self.new register.number }
        ensures next { HasNext self.new register.number before.number }
    {
        self.made[register.number as usize].next = Some(before.number);
    }

    /// Drives a register: after a cycle it holds what `next` was in it, or 0 where `reset` was 1.
    pub fn drive(&mut self, register: Wire, next: Wire) -> Result<(), Memory>
        requires register { IsUndriven self.old register }
        requires next { IsWire self.old next }
        requires width { next.width ≡ register.width }
        ensures drives { IfOk result (λ _. Drives self.old self.new register.number) }
        ensures takes { IfOk result (λ _. Takes self.new register (λ v. v next.number)) }
        ensures becomes { IfOk result (λ _. Becomes self.new register (λ v. v next.number)) }
    {
        let before = self.unless_reset(next)?;
        self.put(register, before);
        Ok(())
    }

    /// The netlist: its inputs, registers, cells and outputs stand in the order of making, and each wire
    /// keeps its value.
    pub fn finish(self) -> Result<Netlist, Memory>
        requires { undriven self ≡ [] }
        ensures netlist { IfOk result (λ n. n ≡ finished self) }
        ensures well_formed { IfOk result IsWellFormed }
        ensures no_loop { IfOk result HasNoLoop }
        ensures carries { IfOk result (λ n. KeepsValues n self) }
        ensures resets { IfOk result Resets }
    {
        let Builder {
            alloc,
            name,
            made,
            outputs,
        } = self;
        let netlist = netlist_of(alloc, name, &made, outputs.as_slice())?;
        Ok(netlist)
    }
}
