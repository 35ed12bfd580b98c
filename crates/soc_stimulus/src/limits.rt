ghost use Rattle.std.specs.Prelude.{◌≡◌, ◌≤◌, IfSome};
ghost use Rattle.toml.specs.Data.{get_member};
ghost use Rattle.toml.specs.View.{table_view, view};
ghost use Rattle.soc_stimulus.specs.Stated as spec;

use crate::shape::op_in;
use crate::tables::Part;
use dip_graph::MOST_ATOMIC;
use sim_ports::{Role, Setting};
use tl_params::Op;
use toml::{Table, Value};
use toml_shape::{number_under, number_within, text_under, under};

/// The most requests, stalls and devices of a stimulus.
const MOST_REQUESTS: usize = 10_000;

const MOST_STALLS: usize = 1_000;

const MOST_DEVICES: usize = 1_024;
/// The greatest number of cycles, and the greatest cycle that a request or a stall names.
pub const MOST_CYCLES: u64 = 100_000;
/// The greatest address of a request.
const MOST_ADDRESS: u64 = (1 << 48) - 1;
/// The most bytes of a request that isn't atomic.
const MOST_BYTES: u64 = 256;
/// The greatest source id, param and port of a request, and the greatest delay of a device.
const MOST_SOURCE: u64 = 1_023;

const MOST_PARAM: u64 = 7;

const MOST_PORT: u64 = 63;

const MOST_DELAY: u64 = 1_000;

/// The operation and the numbers of a request, before its node is looked up.
#[derive(Clone, Copy)]
pub struct LimitedRequest {
    pub op: Op,
    /// The base-2 logarithm of the number of bytes.
    pub size: u32,
    pub address: u64,
    pub source: u32,
    /// Which port of the node it is.
    pub port: u32,
    /// The first cycle in which it is offered.
    pub at: u32,
    pub param: u32,
}

/// What a stall states, before its node is looked up.
#[derive(Clone, Copy)]
pub struct LimitedStall {
    /// Which port of the node it is.
    pub port: u32,
    /// Whether it is channel A that is stalled, and not channel D.
    pub on_a: bool,
    /// The first of its cycles.
    pub start: u32,
    /// The first cycle after them.
    pub end: u32,
}

/// What a device states, before its node is looked up.
#[derive(Clone, Copy)]
pub struct LimitedDevice {
    /// Which port of the node it is.
    pub port: u32,
    pub setting: Setting,
}

// The number under a key up to a greatest one, 0 where it is missing.
fn number_there(table: &Table, key: &str, most: u64) -> Option<u64>
    ensures value { result ≡ spec.number_there key.now most (table_view table.now) }
    ensures within { IfSome result (λ number. number ≤ most) }
{
    match under(table, key) {
        None => Some(0),
        Some(Value::Integer(integer)) => number_within(*integer, 0, most),
        Some(_) => None,
    }
}

// The most bytes of a request with an operation.
fn most_bytes_of(op: Op) -> u64
    ensures value { result ≡ spec.most_bytes_of op }
    ensures few { result ≤ 256 }
{
    match op {
        Op::Arithmetic | Op::Logical => u64::from(MOST_ATOMIC),
        Op::PutFull | Op::PutPartial | Op::Get | Op::Intent => MOST_BYTES,
    }
}

// The base-2 logarithm of a power of two up to 256.
fn size_of(bytes: u64) -> Option<u32>
    ensures value { result ≡ spec.size_of bytes }
    ensures small { IfSome result (λ size. size ≤ 8) }
{
    match bytes {
        1 => Some(0),
        2 => Some(1),
        4 => Some(2),
        8 => Some(3),
        16 => Some(4),
        32 => Some(5),
        64 => Some(6),
        128 => Some(7),
        256 => Some(8),
        _ => None,
    }
}

// The size of a request with an operation.
fn size_in(op: Op, table: &Table) -> Option<u32>
    ensures value { result ≡ spec.size_in op (table_view table.now) }
    ensures small { IfSome result (λ size. size ≤ 8) }
{
    size_of(number_under(table, "bytes", 1, most_bytes_of(op))?)
}

// The numbers of a request with an operation.
fn numbers_with(op: Op, table: &Table) -> Option<LimitedRequest>
    ensures value { result ≡ spec.numbers_with (table_view table.now) op }
    ensures small { IfSome result (λ numbers. numbers.size ≤ 8) }
{
    Some(LimitedRequest {
        op,
        size: size_in(op, table)?,
        address: number_under(table, "address", 0, MOST_ADDRESS)?,
        source: number_under(table, "source", 0, MOST_SOURCE)? as u32,
        port: number_there(table, "port", MOST_PORT)? as u32,
        at: number_there(table, "at", MOST_CYCLES)? as u32,
        param: number_there(table, "param", MOST_PARAM)? as u32,
    })
}

/// The operation and the numbers of a request; `None` where a number is beyond its limit.
pub fn numbers_in(table: &Table) -> Option<LimitedRequest>
    ensures value { result ≡ spec.numbers_in (table_view table.now) }
    ensures small { IfSome result (λ numbers. numbers.size ≤ 8) }
{
    numbers_with(op_in(table)?, table)
}

// The same of a value.
fn limited_request(value: &Value) -> Option<LimitedRequest>
    ensures { result ≡ spec.limited_request (view value.now) }
{
    match value {
        Value::Table(table) => numbers_in(table),
        _ => None,
    }
}

// Whether it is channel A that a text names, and not channel D.
fn channel_named(text: &str) -> Option<bool>
    ensures { result ≡ spec.channel_named text.now }
{
    match text {
        "a" => Some(true),
        "d" => Some(false),
        _ => None,
    }
}

// The first cycle of a stall, and the first one after it.
fn stalled_cycles(table: &Table) -> Option<(u64, u64)>
    ensures value { result ≡ spec.stalled_cycles (table_view table.now) }
    ensures within { IfSome result (λ cycles. (cycles.0 ≤ 100000) × (cycles.1 ≤ 100000)) }
{
    let start = number_under(table, "from", 0, MOST_CYCLES)?;
    let end = number_under(table, "to", 0, MOST_CYCLES)?;
    if start <= end {
        Some((start, end))
    } else {
        None
    }
}

/// What the table of a stall states; `None` where a number is beyond its limit.
pub fn stall_in(table: &Table) -> Option<LimitedStall>
    ensures { result ≡ spec.stall_in (table_view table.now) }
{
    let on_a = channel_named(text_under(table, "side")?)?;
    let (start, end) = stalled_cycles(table)?;
    let port = number_there(table, "port", MOST_PORT)?;
    Some(LimitedStall {
        port: port as u32,
        on_a,
        start: start as u32,
        end: end as u32,
    })
}

// The same of a value.
fn limited_stall(value: &Value) -> Option<LimitedStall>
    ensures { result ≡ spec.limited_stall (view value.now) }
{
    match value {
        Value::Table(table) => stall_in(table),
        _ => None,
    }
}

// The role with a name.
fn role_named(text: &str) -> Option<Role>
    ensures { result ≡ spec.role_named text.now }
{
    match text {
        "ram" => Some(Role::Ram),
        "rom" => Some(Role::Rom),
        "deny" => Some(Role::Deny),
        _ => None,
    }
}

// The role that stands under a key: a memory that does all requests where it is missing.
fn role_stated(table: &Table, key: &str) -> Option<Role>
    ensures { result ≡ spec.role_stated (get_member key.now (table_view table.now)) }
{
    match under(table, key) {
        None => Some(Role::Ram),
        Some(Value::String(text)) => role_named(text.as_str()),
        Some(_) => None,
    }
}

/// What the table of a device states; `None` where a number is beyond its limit.
pub fn device_in(table: &Table) -> Option<LimitedDevice>
    ensures { result ≡ spec.device_in (table_view table.now) }
{
    let port = number_there(table, "port", MOST_PORT)?;
    let role = role_stated(table, "role")?;
    let delay = number_there(table, "delay", MOST_DELAY)?;
    Some(LimitedDevice {
        port: port as u32,
        setting: Setting {
            role,
            delay: delay as u32,
        },
    })
}

// The same of a value.
fn limited_device(value: &Value) -> Option<LimitedDevice>
    ensures { result ≡ spec.limited_device (view value.now) }
{
    match value {
        Value::Table(table) => device_in(table),
        _ => None,
    }
}

// How many tables of a part there may be.
fn most_tables(part: Part) -> usize
    ensures { result ≡ spec.most_tables part }
{
    match part {
        Part::Request => MOST_REQUESTS,
        Part::Stall => MOST_STALLS,
        Part::Device => MOST_DEVICES,
    }
}

// Whether a number of a request, a stall or a device is beyond its limit.
fn has_no_numbers(part: Part, value: &Value) -> bool
    ensures { result ≡ spec.has_no_numbers part (view value.now) }
{
    match part {
        Part::Request => limited_request(value).is_none(),
        Part::Stall => limited_stall(value).is_none(),
        Part::Device => limited_device(value).is_none(),
    }
}

/// Whether a table stands past the allowed number of its part, or a number of it is beyond its limit.
pub fn is_beyond(part: Part, place: usize, value: &Value) -> bool
    ensures { result ≡ spec.is_beyond part place (view value.now) }
{
    place >= most_tables(part) || has_no_numbers(part, value)
}
