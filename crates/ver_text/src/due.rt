ghost use Rattle.std.specs.Prelude.{◌≡◌, ◌+◌, Some, None, cond, codes, IsTrue, IfOk, List, length, slice_get};
ghost use Rattle.net_cells.specs.declared.netlist.Port.{Port};
ghost use Rattle.ver_text.specs.Numerals.{number_below};
ghost use Rattle.ver_text.specs.Due as spec;

use crate::digits::{is_numbered, literal_of, number_below};
use crate::fits::{is_cell, width_at};
use crate::kind::Kind;
use crate::part::Part;
use crate::progress::{Progress, name_of, width_of};
use crate::token::bytes_of;
use dip_lists::{Items, Memory};
use net_cells::{Cell, CellOp, OutPort, Port, Reg, WIDTH_LIMIT};
use std::alloc::Global;

fn one_more(number: u64) -> Result<u64, Memory>
    ensures { IfOk result (λ more. more ≡ number + 1) }
{
    number.checked_add(1).ok_or(Memory)
}

fn is_none<T>(items: &Items<T>) -> bool
    ensures { result ≡ spec.is_none items.now }
{
    items.is_empty()
}

// Whether a name has at least 3 bytes and begins with these.
fn has_prefix(front: &[u8], name: &[u8]) -> bool
    ensures { result ≡ spec.has_prefix front.now name.now }
{
    name.starts_with(front) && name.len() >= 3
}

// The operator of two operands that this token stands for.
fn binary(form: Kind, x: u64, y: u64) -> Option<CellOp>
    ensures { result ≡ spec.binary form x y }
{
    match form {
        Kind::And => Some(CellOp::And(x, y)),
        Kind::Or => Some(CellOp::Or(x, y)),
        Kind::Xor => Some(CellOp::Xor(x, y)),
        Kind::Plus => Some(CellOp::Add(x, y)),
        Kind::Minus => Some(CellOp::Sub(x, y)),
        Kind::Equal => Some(CellOp::Eq(x, y)),
        Kind::Less => Some(CellOp::Less(x, y)),
        Kind::OpenBrace => Some(CellOp::Concat(x, y)),
        _ => None,
    }
}

// The name that an assignment gives a value.
fn target<'a>(form: Kind, fourth: &'a [u8], third: &'a [u8], second: &'a [u8]) -> &'a [u8]
    ensures { result.now ≡ spec.target form fourth.now third.now second.now }
{
    match form {
        Kind::Literal | Kind::Tilde | Kind::Semicolon => second,
        Kind::Question | Kind::OpenBracket => fourth,
        _ => third,
    }
}

impl Progress {
    fn is_port_name(&self, name: &[u8]) -> bool
        ensures { result ≡ spec.is_port_name self.now name.now }
    {
        has_prefix(b"p_", name) && self.inputs.is_new(name) && self.declared.is_new(name)
    }

    // The module's name.
    fn take_name(&mut self, alloc: Global, name: &[u8]) -> Result<bool, Memory>
        ensures { IfOk result (λ is. cond is (Some self.new) None ≡ spec.due_name self.old name.now) }
    {
        if !has_prefix(b"m_", name) {
            return Ok(false);
        }
        let Some(name) = name_of(alloc, name)? else {
            return Ok(false);
        };
        self.name = Some(name);
        Ok(true)
    }

    // One more input of the netlist, whose net is the next one.
    fn add_input(&mut self, alloc: Global, name: &[u8], width: u32) -> Result<bool, Memory>
        requires { IsTrue (spec.is_new self.old.inputs name.now) }
        ensures { IfOk result (λ is. cond is (Some self.new) None ≡ spec.with_input self.old name.now width) }
    {
        let Some(name) = name_of(alloc, name)? else {
            return Ok(false);
        };
        self.sources = one_more(self.sources)?;
        self.next_register = one_more(self.next_register)?;
        self.next_cell = one_more(self.next_cell)?;
        self.widths.push(width)?;
        self.inputs.push(Port { name, width })?;
        Ok(true)
    }

    // The clock, which is no input of the netlist.
    fn take_clock(&mut self, name: &[u8], width: u32) -> bool
        ensures { cond result (Some self.new) None ≡ spec.due_clock self.old name.now width }
    {
        if name != b"clock".as_slice() || width != 1 {
            return false;
        }
        self.clocked = true;
        true
    }

    // The first input of the netlist.
    fn take_reset(&mut self, alloc: Global, name: &[u8], width: u32) -> Result<bool, Memory>
        requires { IsTrue (spec.is_none self.old.inputs) }
        ensures { IfOk result (λ is. cond is (Some self.new) None ≡ spec.due_reset self.old name.now width) }
    {
        if name != b"reset".as_slice() || width != 1 {
            return Ok(false);
        }
        self.add_input(alloc, name, width)
    }

    // An input behind `reset` and before the outputs.
    fn take_other(&mut self, alloc: Global, name: &[u8], width: u32) -> Result<bool, Memory>
        ensures { IfOk result (λ is. cond is (Some self.new) None ≡ spec.due_other self.old name.now width) }
    {
        if !self.declared.is_empty() || !self.is_port_name(name) {
            return Ok(false);
        }
        self.add_input(alloc, name, width)
    }

    // The clock, then `reset`, then the other inputs.
    fn take_input(&mut self, alloc: Global, name: &[u8], width: Option<u32>) -> Result<bool, Memory>
        ensures { IfOk result (λ is. cond is (Some self.new) None ≡ spec.due_input self.old name.now width) }
    {
        let Some(width) = width else {
            return Ok(false);
        };
        if !self.clocked {
            return Ok(self.take_clock(name, width));
        }
        if self.inputs.is_empty() {
            return self.take_reset(alloc, name, width);
        }
        self.take_other(alloc, name, width)
    }

    // One more output, whose net is assigned later.
    fn add_output(&mut self, alloc: Global, name: &[u8], width: u32) -> Result<bool, Memory>
        requires { IsTrue (spec.is_new self.old.declared name.now) }
        ensures { IfOk result (λ is. cond is (Some self.new) None
            ≡ spec.with_output self.old name.now width) }
    {
        let Some(name) = name_of(alloc, name)? else {
            return Ok(false);
        };
        self.declared.push(Port { name, width })?;
        Ok(true)
    }

    // An output, behind the inputs.
    fn take_output(
        &mut self,
        alloc: Global,
        name: &[u8],
        width: Option<u32>,
    ) -> Result<bool, Memory>
        ensures { IfOk result (λ is. cond is (Some self.new) None ≡ spec.due_output self.old name.now width) }
    {
        let Some(width) = width else {
            return Ok(false);
        };
        if self.inputs.is_empty() || !self.is_port_name(name) {
            return Ok(false);
        }
        self.add_output(alloc, name, width)
    }

    // Whether a register may come: behind the ports, before the first net of a cell and the first value.
    fn takes_registers(&self) -> bool
        ensures { result ≡ spec.takes_registers self.now }
    {
        !self.inputs.is_empty()
            && self.widths.len() as u64 == self.sources
            && is_none(&self.outputs)
            && is_none(&self.regs)
    }

    // The next register.
    fn take_register(&mut self, name: &[u8], width: Option<u32>) -> Result<bool, Memory>
        ensures { IfOk result (λ is. cond is (Some self.new) None
            ≡ spec.due_register self.old name.now width) }
    {
        let Some(width) = width else {
            return Ok(false);
        };
        if !self.takes_registers() || !is_numbered(b'r', self.widths.len() as u64, name) {
            return Ok(false);
        }
        self.sources = one_more(self.sources)?;
        self.next_cell = one_more(self.next_cell)?;
        self.widths.push(width)?;
        Ok(true)
    }

    // Whether the net of a cell may come: behind the ports, before the first value.
    fn takes_wires(&self) -> bool
        ensures { result ≡ spec.takes_wires self.now }
    {
        !self.inputs.is_empty()
            && is_none(&self.cells)
            && is_none(&self.outputs)
            && is_none(&self.regs)
    }

    // The net of the next cell.
    fn take_wire(&mut self, name: &[u8], width: Option<u32>) -> Result<bool, Memory>
        ensures { IfOk result (λ is. cond is (Some self.new) None ≡ spec.due_wire self.old name.now width) }
    {
        let Some(width) = width else {
            return Ok(false);
        };
        if !self.takes_wires() || !is_numbered(b'w', self.widths.len() as u64, name) {
            return Ok(false);
        }
        self.widths.push(width)?;
        Ok(true)
    }

    // An operator of two nets, by their names.
    fn binary_of(&self, form: Kind, x: &[u8], y: &[u8]) -> Option<CellOp>
        ensures { result
            ≡ spec.binary_of form (spec.net_named self.now x.now) (spec.net_named self.now y.now) }
    {
        let x = self.net_named(x)?;
        let y = self.net_named(y)?;
        binary(form, x, y)
    }

    // A choice by one net between two others, by their names.
    fn mux_of(&self, pick: &[u8], x: &[u8], y: &[u8]) -> Option<CellOp>
        ensures { result ≡ spec.mux_of (spec.net_named self.now pick.now) (spec.net_named self.now x.now)
            (spec.net_named self.now y.now) }
    {
        let pick = self.net_named(pick)?;
        let x = self.net_named(x)?;
        let y = self.net_named(y)?;
        Some(CellOp::Mux(pick, x, y))
    }

    // Bits of a net, by its name and the two bounds.
    fn select_of(&self, net: &[u8], hi: &[u8], lo: &[u8]) -> Option<CellOp>
        ensures { result ≡ spec.select_of (spec.net_named self.now net.now) (number_below 64 hi.now)
            (number_below 64 lo.now) }
    {
        let net = self.net_named(net)?;
        let hi = number_below(WIDTH_LIMIT, hi)?;
        let lo = number_below(WIDTH_LIMIT, lo)?;
        Some(CellOp::Select { net, hi, lo })
    }

    fn not_of(&self, x: &[u8]) -> Option<CellOp>
        ensures { result ≡ spec.not_of (spec.net_named self.now x.now) }
    {
        Some(CellOp::Not(self.net_named(x)?))
    }

    // What an expression of so many bits says, by its form and its last names, numbers and literals.
    #[tactic(auto, unfolding(crate::specs::Due::cell_op))]
    fn cell_op(
        &self,
        alloc: Global,
        width: u32,
        form: Kind,
        third: &[u8],
        second: &[u8],
        last: &[u8],
    ) -> Result<Option<CellOp>, Memory>
        ensures { IfOk result (λ op. op ≡ spec.cell_op self.now width form third.now second.now last.now) }
    {
        match form {
            Kind::Literal => Ok(literal_of(alloc, width, last)?.map(CellOp::Const)),
            Kind::Tilde => Ok(self.not_of(last)),
            Kind::Question => Ok(self.mux_of(third, second, last)),
            Kind::OpenBracket => Ok(self.select_of(third, second, last)),
            _ => Ok(self.binary_of(form, second, last)),
        }
    }

    // The next cell, where it meets the rule of its operator.
    fn add_cell(&mut self, width: u32, op: Option<CellOp>) -> Result<bool, Memory>
        ensures { IfOk result (λ is. cond is (Some self.new) None ≡ spec.with_cell self.old width op) }
    {
        let Some(op) = op else {
            return Ok(false);
        };
        if !is_cell(self.widths.as_slice(), width, op) {
            return Ok(false);
        }
        self.next_cell = one_more(self.next_cell)?;
        self.cells.push(Cell { width, op })?;
        Ok(true)
    }

    // The value of the next cell.
    #[tactic(auto, unfolding(crate::specs::Due::due_cell))]
    fn take_cell(
        &mut self,
        alloc: Global,
        form: Kind,
        fourth: &[u8],
        third: &[u8],
        second: &[u8],
        last: &[u8],
    ) -> Result<bool, Memory>
        ensures { IfOk result (λ is. cond is (Some self.new) None
            ≡ spec.due_cell self.old form fourth.now third.now second.now last.now) }
    {
        if !is_numbered(b'w', self.next_cell, target(form, fourth, third, second)) {
            return Ok(false);
        }
        let width = width_at(self.widths.as_slice(), self.next_cell);
        let op = self.cell_op(alloc, width, form, third, second, last)?;
        self.add_cell(width, op)
    }

    // Gives the next output a net.
    fn add_shown(&mut self, alloc: Global, net: Option<u64>) -> Result<bool, Memory>
        ensures { IfOk result (λ is. cond is (Some self.new) None
            ≡ spec.shown_next self.old (slice_get self.old.declared (length self.old.outputs)) net) }
    {
        let Some(port) = self.declared.get(self.outputs.len()) else {
            return Ok(false);
        };
        let Some(net) = net else {
            return Ok(false);
        };
        if width_at(self.widths.as_slice(), net) != port.width {
            return Ok(false);
        }
        let name = port.name.copy(alloc)?;
        self.outputs.push(OutPort { name, net })?;
        Ok(true)
    }

    // Whether this is the name of the first output without a net.
    fn is_next_output(&self, name: &[u8]) -> bool
        ensures { result ≡ spec.is_next_output self.now name.now }
    {
        match self.declared.get(self.outputs.len()) {
            Some(port) => port.name.bytes() == name,
            None => false,
        }
    }

    // The net of the next output.
    #[tactic(auto, unfolding(crate::specs::Due::due_shown))]
    fn take_shown(
        &mut self,
        alloc: Global,
        form: Kind,
        name: &[u8],
        value: &[u8],
    ) -> Result<bool, Memory>
        ensures { IfOk result (λ is. cond is (Some self.new) None
            ≡ spec.due_shown self.old form name.now value.now) }
    {
        if !matches!(form, Kind::Semicolon) || !self.is_next_output(name) {
            return Ok(false);
        }
        let net = self.net_named(value);
        self.add_shown(alloc, net)
    }

    // An assignment: of the next cell, and behind the cells of the next output.
    #[tactic(auto, unfolding(crate::specs::Due::due_assignment))]
    fn take_assignment(
        &mut self,
        alloc: Global,
        form: Kind,
        fourth: &[u8],
        third: &[u8],
        second: &[u8],
        last: &[u8],
    ) -> Result<bool, Memory>
        ensures { IfOk result (λ is. cond is (Some self.new) None
            ≡ spec.due_assignment self.old form fourth.now third.now second.now last.now) }
    {
        if self.next_cell < self.widths.len() as u64 {
            self.take_cell(alloc, form, fourth, third, second, last)
        } else {
            self.take_shown(alloc, form, second, last)
        }
    }

    fn has_values(&self) -> bool
        ensures { result ≡ spec.has_values self.now }
    {
        self.next_cell == self.widths.len() as u64 && self.outputs.len() == self.declared.len()
    }

    // Gives the next register its next net.
    fn add_next(&mut self, net: Option<u64>) -> Result<bool, Memory>
        ensures { IfOk result (λ is. cond is (Some self.new) None ≡ spec.with_next self.old net) }
    {
        let Some(net) = net else {
            return Ok(false);
        };
        let width = width_at(self.widths.as_slice(), self.next_register);
        if width_at(self.widths.as_slice(), net) != width {
            return Ok(false);
        }
        self.next_register = one_more(self.next_register)?;
        self.regs.push(Reg { width, next: net })?;
        Ok(true)
    }

    // Whether the clock and the next register are named, where each cell and each output has its value.
    fn is_next_update(&self, clock: &[u8], register: &[u8]) -> bool
        ensures { result ≡ spec.is_next_update self.now clock.now register.now }
    {
        self.has_values()
            && self.next_register < self.sources
            && clock == b"clock".as_slice()
            && is_numbered(b'r', self.next_register, register)
    }

    // The next net of the next register.
    #[tactic(auto, unfolding(crate::specs::Due::due_update))]
    fn take_update(&mut self, clock: &[u8], register: &[u8], next: &[u8]) -> Result<bool, Memory>
        ensures { IfOk result (λ is. cond is (Some self.new) None
            ≡ spec.due_update self.old clock.now register.now next.now) }
    {
        if !self.is_next_update(clock, register) {
            return Ok(false);
        }
        let net = self.net_named(next);
        self.add_next(net)
    }

    fn is_end(&self) -> bool
        ensures { cond result (Some self.now) None ≡ spec.due_end self.now }
    {
        !self.inputs.is_empty() && self.has_values() && self.next_register == self.sources
    }

    // Takes a part by its first token, its form and its last words, and answers whether it was due.
    #[tactic(auto, unfolding(crate::specs::Due::due_by))]
    fn take_by(
        &mut self,
        alloc: Global,
        head: Kind,
        form: Kind,
        fourth: &[u8],
        third: &[u8],
        second: &[u8],
        last: &[u8],
    ) -> Result<bool, Memory>
        ensures { IfOk result (λ is. cond is (Some self.new) None
            ≡ spec.due_by self.old head form fourth.now third.now second.now last.now) }
    {
        match head {
            Kind::Name => self.take_name(alloc, last),
            Kind::Input => self.take_input(alloc, last, width_of(third, second)),
            Kind::Output => self.take_output(alloc, last, width_of(third, second)),
            Kind::Reg => self.take_register(last, width_of(third, second)),
            Kind::Wire => self.take_wire(last, width_of(third, second)),
            Kind::Assign => self.take_assignment(alloc, form, fourth, third, second, last),
            Kind::Always => self.take_update(third, second, last),
            Kind::Endmodule => Ok(self.is_end()),
            _ => Ok(false),
        }
    }

    /// Takes the next part of a text, and answers whether it was due.
    #[tactic(auto, unfolding(crate::specs::Due::due))]
    pub fn take(&mut self, alloc: Global, text: &[u8], part: &Part) -> Result<bool, Memory>
        ensures { IfOk result (λ is. cond is (Some self.new) None ≡ spec.due text.now self.old part.now) }
    {
        let fourth = bytes_of(text, part.fourth);
        let third = bytes_of(text, part.third);
        let second = bytes_of(text, part.second);
        let last = bytes_of(text, part.last);
        self.take_by(
            alloc,
            part.head.kind,
            part.form,
            fourth,
            third,
            second,
            last,
        )
    }
}
