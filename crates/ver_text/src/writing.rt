ghost use Rattle.std.specs.Prelude.{◌≡◌, ◌++◌, ◌+◌, ◌/◌, ◌%◌, ◌*◌, ◌^◌, ◌<◌, OnOk};
ghost use Rattle.ver_text.specs.Numerals.{hex_digit, hex_digits, literal};

use dip_lists::Memory;
use dip_text::Text;

// The hexadecimal digit of a number below 16.
fn hex_digit(digit: u8) -> u8
    requires { digit < 16 }
    ensures { result ≡ hex_digit digit }
{
    if digit < 10 { 48 + digit } else { 87 + digit }
}

// A number without its lowest bits.
fn without_bits(value: u64, bits: u64) -> u64
    ensures { result ≡ value / 2 ^ bits }
{
    if bits >= 64 { 0 } else { value >> bits }
}

// The hexadecimal digit of a number at a place, counted from the lowest.
fn digit_at(value: u64, place: u32) -> u8
    ensures { result ≡ hex_digit (value / 2 ^ (4 * place) % 16) }
{
    hex_digit((without_bits(value, 4 * u64::from(place)) % 16) as u8)
}

// How many hexadecimal digits a literal of so many bits has.
fn digits_of(width: u32) -> u32
    ensures { result ≡ (width + 3) / 4 }
{
    width.div_ceil(4)
}

// Puts so many hexadecimal digits of a number at the end, the highest first.
fn add_digits(text: &mut Text, count: u32, value: u64) -> Result<(), Memory>
    ensures { OnOk result (text.new ≡ text.old ++ hex_digits count value) }
{
    let mut left = count;
    while left > 0 {
        left -= 1;
        text.add_byte(digit_at(value, left))?;
    }
    Ok(())
}

/// Puts the literal of a number of so many bits at the end of a text.
#[tactic(auto, unfolding(crate::specs::Numerals::literal))]
pub fn add_literal(text: &mut Text, width: u32, value: u64) -> Result<(), Memory>
    ensures { OnOk result (text.new ≡ text.old ++ literal width value) }
{
    text.add_number(u64::from(width))?;
    text.add(b"'h")?;
    add_digits(text, digits_of(width), value)
}
