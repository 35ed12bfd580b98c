ghost use Rattle.std.specs.Prelude.{◌≡◌, ◌≤◌, IfOk};
ghost use Rattle.tl_edge.specs.Messages.{AreBytes};
ghost use Rattle.soc_stimulus.specs.Loads as spec;

use dip_lists::{Bytes, Items, Memory};
use std::alloc::Global;
use tl_edge::Flags;

// What a hexadecimal digit stands for.
fn data_digit(digit: u8) -> u8
    ensures value { result ≡ spec.data_digit digit }
    ensures few { result ≤ 15 }
{
    if digit.is_ascii_digit() {
        digit - b'0'
    } else if b'a' <= digit && digit <= b'f' {
        digit - b'a' + 10
    } else {
        0
    }
}

// The byte that two digits stand for.
fn byte_value(high: u8, low: u8) -> u8
    ensures { result ≡ spec.byte_value high low }
{
    16 * data_digit(high) + data_digit(low)
}

/// The bytes of a text with two digits for each.
pub fn data_bytes(alloc: Global, text: &[u8]) -> Result<Bytes, Memory>
    ensures value { IfOk result (λ bytes. bytes ≡ spec.data_bytes text.now) }
    ensures bytes { IfOk result AreBytes }
{
    let mut bytes = Items::new(alloc);
    for place in 0..text.len() / 2 {
        bytes.push(byte_value(text[2 * place], text[2 * place + 1]))?;
    }
    Ok(bytes)
}

/// The flags of a text with a digit for each.
pub fn mask_flags(alloc: Global, text: &[u8]) -> Result<Flags, Memory>
    ensures { IfOk result (λ flags. flags ≡ spec.mask_flags text.now) }
{
    let mut flags = Items::new(alloc);
    for digit in text {
        flags.push(*digit == b'1')?;
    }
    Ok(flags)
}
