ghost use Rattle.std.specs.Prelude.{◌≡◌, ◌<◌, ◌*◌, ◌+◌, ◌^◌, nat_lt, cond, decimal, Some, None, IfOk, IfSome};
ghost use Rattle.std.specs.Str.{bytes_eq};
ghost use Rattle.ver_text.specs.Numerals as spec;

use crate::scan::digits_length;
use crate::token::from_place;
use crate::writing::add_literal;
use dip_lists::Memory;
use dip_text::Text;
use itoa::Buffer;
use std::alloc::Global;

// The value of a digit, decimal or hexadecimal.
fn digit_value(byte: u8) -> u64
    ensures { result ≡ spec.digit_value byte }
{
    if byte < b'a' {
        u64::from(byte.saturating_sub(b'0'))
    } else {
        u64::from(byte - 87)
    }
}

// The value of digits with one more behind them, where it is below 2 to the power of 64.
fn with_digit(base: u64, so_far: u64, byte: u8) -> Option<u64>
    ensures { result ≡ cond (nat_lt (so_far * base + spec.digit_value byte) (2 ^ 64))
        (Some (so_far * base + spec.digit_value byte)) None }
{
    so_far.checked_mul(base)?.checked_add(digit_value(byte))
}

// The value of digits, where it is below 2 to the power of 64.
fn numeral(base: u64, digits: &[u8]) -> Option<u64>
    ensures { result ≡ spec.numeral base 0 digits.now }
{
    let mut so_far = 0;
    for byte in digits {
        so_far = with_digit(base, so_far, *byte)?;
    }
    Some(so_far)
}

// Whether a text is the decimal numeral of a number.
fn is_decimal(text: &[u8], number: u64) -> bool
    ensures { result ≡ bytes_eq text.now (decimal number) }
{
    let mut buffer = Buffer::new();
    text == buffer.format(number).as_bytes()
}

/// The number below 2 to the power of 64 that is written so, without a leading zero.
#[tactic(auto, unfolding(crate::specs::Numerals::written_number))]
pub fn written_number(text: &[u8]) -> Option<u64>
    ensures { result ≡ spec.written_number text.now }
{
    let value = numeral(10, text)?;
    is_decimal(text, value).then_some(value)
}

/// The number below a limit that is written so, without a leading zero.
#[tactic(auto, unfolding(crate::specs::Numerals::number_below))]
pub fn number_below(limit: u32, text: &[u8]) -> Option<u32>
    ensures value { result ≡ spec.number_below limit text.now }
    ensures below { IfSome result (λ value. value < limit) }
{
    let value = written_number(text)?;
    if value < u64::from(limit) {
        Some(value as u32)
    } else {
        None
    }
}

// Whether a text is the literal of a number of so many bits.
fn is_literal(alloc: Global, width: u32, text: &[u8], value: u64) -> Result<bool, Memory>
    ensures { IfOk result (λ is. is ≡ bytes_eq text.now (spec.literal width value)) }
{
    let mut expected = Text::new(alloc);
    add_literal(&mut expected, width, value)?;
    Ok(text == expected.as_slice())
}

/// The number whose literal of so many bits is written so.
#[tactic(auto, unfolding(crate::specs::Numerals::literal_of))]
pub fn literal_of(alloc: Global, width: u32, text: &[u8]) -> Result<Option<u64>, Memory>
    ensures { IfOk result (λ value. value ≡ spec.literal_of width text.now) }
{
    let digits = from_place(text, digits_length(text).saturating_add(2));
    let Some(value) = numeral(16, digits) else {
        return Ok(None);
    };
    if is_literal(alloc, width, text, value)? {
        Ok(Some(value))
    } else {
        Ok(None)
    }
}

/// Whether a name is a letter and a number.
pub fn is_numbered(letter: u8, number: u64, name: &[u8]) -> bool
    ensures { result ≡ spec.is_numbered letter number name.now }
{
    match name {
        [] => false,
        [first, digits @ ..] => *first == letter && is_decimal(digits, number),
    }
}

/// The number in a name that is this letter and a number.
pub fn numbered(letter: u8, name: &[u8]) -> Option<u64>
    ensures { result ≡ spec.numbered letter name.now }
{
    match name {
        [] => None,
        [first, digits @ ..] => {
            if *first == letter {
                written_number(digits)
            } else {
                None
            }
        }
    }
}
