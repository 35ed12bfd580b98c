ghost use Rattle.std.specs.Prelude.{IsTrue};
ghost use Rattle.tl_params.specs.Arguments.{is_width};

use crate::made::Fields;
use crate::served::Opening;
use sim_ports::Role;
use tl_params::{Ack, Op};

// The bytes of a bus.
fn width_of(word: &str) -> u32
    ensures { IsTrue (is_width result) }
{
    match word {
        "1" => 1,
        "2" => 2,
        "4" => 4,
        _ => 8,
    }
}

/// How a line opens a sink port: the bytes of the bus, the delay and the role.
pub fn opening_of(line: &str) -> Opening
    ensures { IsTrue (is_width result.width) }
{
    let (width, rest) = line.split_once(' ').unwrap_or((line, ""));
    let (delay, role) = rest.split_once(' ').unwrap_or((rest, ""));
    Opening {
        width: width_of(width),
        delay: (number(delay) % 4096) as u32,
        role: role_of(role),
    }
}

// The value of a hexadecimal digit, 0 of another letter.
fn digit(letter: u8) -> u64 {
    match letter {
        b'0'..=b'9' => u64::from(letter - b'0'),
        b'a'..=b'f' => u64::from(letter - b'a') + 10,
        _ => 0,
    }
}

// The number that hexadecimal digits spell, modulo 2 ^ 64.
fn number(digits: &str) -> u64 {
    let mut number = 0u64;
    for letter in digits.as_bytes() {
        number = number.wrapping_mul(16).wrapping_add(digit(*letter));
    }
    number
}

// The role that a word names.
fn role_of(word: &str) -> Role {
    match word {
        "rom" => Role::Rom,
        "deny" => Role::Deny,
        _ => Role::Ram,
    }
}

// The operation that a word names.
fn op_of(word: &str) -> Op {
    match word {
        "put" => Op::PutFull,
        "part" => Op::PutPartial,
        "arithmetic" => Op::Arithmetic,
        "logical" => Op::Logical,
        "get" => Op::Get,
        _ => Op::Intent,
    }
}

/// The word that names an operation.
pub fn name_of(op: Op) -> &'static str {
    match op {
        Op::PutFull => "put",
        Op::PutPartial => "part",
        Op::Arithmetic => "arithmetic",
        Op::Logical => "logical",
        Op::Get => "get",
        Op::Intent => "intent",
    }
}

/// What a line says of a cycle of the driver.
#[derive(Clone, Copy)]
pub struct Cycle<'a> {
    pub cycle: u32,
    /// `take`, `full` or `stall`.
    pub way: &'a str,
    /// The id with which a beat comes back.
    pub back: Option<u32>,
}

/// The cycle of a line: its number, the way, and an id or nothing.
pub fn cycle_of(line: &str) -> Cycle<'_> {
    let (cycle, rest) = line.split_once(' ').unwrap_or((line, ""));
    let (way, back) = rest.split_once(' ').unwrap_or((rest, ""));
    Cycle {
        cycle: (number(cycle) % 4096) as u32,
        way,
        back: if back.is_empty() {
            None
        } else {
            Some((number(back) % 256) as u32)
        },
    }
}

/// What a line asks.
#[derive(Clone, Copy)]
pub struct Case {
    pub role: Role,
    /// What is written first.
    pub old: u64,
    pub fields: Fields,
}

/// The case of a line: role, operation, param, size, address, flags, what is written first, and operand.
pub fn case_of(line: &str) -> Case {
    let (role, rest) = line.split_once(' ').unwrap_or((line, ""));
    let (op, rest) = rest.split_once(' ').unwrap_or((rest, ""));
    let (param, rest) = rest.split_once(' ').unwrap_or((rest, ""));
    let (size, rest) = rest.split_once(' ').unwrap_or((rest, ""));
    let (address, rest) = rest.split_once(' ').unwrap_or((rest, ""));
    let (flags, rest) = rest.split_once(' ').unwrap_or((rest, ""));
    let (old, operand) = rest.split_once(' ').unwrap_or((rest, ""));
    Case {
        role: role_of(role),
        old: number(old),
        fields: Fields {
            op: op_of(op),
            param: (number(param) % 256) as u32,
            size: (number(size) % 256) as u32,
            source: 0,
            address: number(address),
            flags: number(flags),
            number: number(operand),
        },
    }
}

/// The word that names the operation of a response.
pub fn ack_name(op: Ack) -> &'static str {
    match op {
        Ack::Ack => "ack",
        Ack::AckData => "data",
        Ack::HintAck => "hint",
    }
}

/// What a part of a line says of a sink port.
#[derive(Clone, Copy)]
pub enum PortStep<'a> {
    /// The next request.
    Ask(Fields),
    /// A cycle in which the port is stalled on the channels `a`, `d`, `ad` or none.
    Cycle(Cycle<'a>),
}

/// The fields of a request: operation, param, size, id, address, flags and bytes.
pub fn fields_of(line: &str) -> Fields {
    let (op, rest) = line.split_once(' ').unwrap_or((line, ""));
    let (param, rest) = rest.split_once(' ').unwrap_or((rest, ""));
    let (size, rest) = rest.split_once(' ').unwrap_or((rest, ""));
    let (source, rest) = rest.split_once(' ').unwrap_or((rest, ""));
    let (address, rest) = rest.split_once(' ').unwrap_or((rest, ""));
    let (flags, bytes) = rest.split_once(' ').unwrap_or((rest, ""));
    Fields {
        op: op_of(op),
        param: (number(param) % 256) as u32,
        size: (number(size) % 256) as u32,
        source: (number(source) % 4096) as u32,
        address: number(address),
        flags: number(flags),
        number: number(bytes),
    }
}

/// What a part says: `ask` and the fields of a request, or a cycle.
pub fn port_step_of(part: &str) -> PortStep<'_> {
    match part.strip_prefix("ask ") {
        Some(fields) => PortStep::Ask(fields_of(fields)),
        None => PortStep::Cycle(cycle_of(part)),
    }
}
