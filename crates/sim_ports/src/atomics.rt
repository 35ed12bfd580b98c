ghost use Rattle.std.specs.Prelude.{◌≡◌, ◌≤◌, ◌<◌, ◌^◌, IsTrue};
ghost use Rattle.tl_edge.specs.Messages.{has_param};
ghost use Rattle.sim_ports.specs.Atomics as spec;

use tl_edge::Request;
use tl_params::Op;

// Whether a number of so many bytes is negative in two's complement.
fn is_negative(bytes: u32, number: u64) -> bool
    requires some { 1 ≤ bytes }
    requires few { bytes ≤ 8 }
    ensures { result ≡ spec.is_negative bytes number }
{
    number >= 1 << (8 * bytes - 1)
}

// The lower of two numbers in two's complement.
fn signed_min(bytes: u32, a: u64, b: u64) -> u64
    requires some { 1 ≤ bytes }
    requires few { bytes ≤ 8 }
    ensures { result ≡ spec.signed_min bytes a b }
{
    match (is_negative(bytes, a), is_negative(bytes, b)) {
        (true, false) => a,
        (false, true) => b,
        _ => a.min(b),
    }
}

// The higher of two numbers in two's complement.
fn signed_max(bytes: u32, a: u64, b: u64) -> u64
    requires some { 1 ≤ bytes }
    requires few { bytes ≤ 8 }
    ensures { result ≡ spec.signed_max bytes a b }
{
    match (is_negative(bytes, a), is_negative(bytes, b)) {
        (true, false) => b,
        (false, true) => a,
        _ => a.max(b),
    }
}

// The sum of two numbers of so many bytes, without what doesn't fit.
fn wrapped_sum(bytes: u32, a: u64, b: u64) -> u64
    requires { bytes ≤ 8 }
    ensures { result ≡ spec.wrapped_sum bytes a b }
{
    let sum = u128::from(a) + u128::from(b);
    (sum % (1 << (8 * bytes))) as u64
}

// MIN, MAX, MINU, MAXU or ADD, by the param.
fn arithmetic(param: u32, bytes: u32, old: u64, operand: u64) -> u64
    requires some { 1 ≤ bytes }
    requires few { bytes ≤ 8 }
    ensures { result ≡ spec.arithmetic param bytes old operand }
{
    match param {
        0 => signed_min(bytes, old, operand),
        1 => signed_max(bytes, old, operand),
        2 => old.min(operand),
        3 => old.max(operand),
        _ => wrapped_sum(bytes, old, operand),
    }
}

// XOR, OR, AND or SWAP, by the param.
fn logical(param: u32, old: u64, operand: u64) -> u64
    ensures { result ≡ spec.logical param old operand }
{
    match param {
        0 => old ^ operand,
        1 => old | operand,
        2 => old & operand,
        _ => operand,
    }
}

/// What an atomic operation on so many bytes makes of the old number.
pub(crate) fn new_number(op: Op, param: u32, bytes: u32, old: u64, operand: u64) -> u64
    requires some { 1 ≤ bytes }
    requires few { bytes ≤ 8 }
    ensures { result ≡ spec.new_number op param bytes old operand }
{
    match op {
        Op::Arithmetic => arithmetic(param, bytes, old, operand),
        Op::Logical => logical(param, old, operand),
        Op::PutFull | Op::PutPartial | Op::Get | Op::Intent => old,
    }
}
