ghost use Rattle.std.specs.Prelude.{◌≡◌, ◌≤◌, ◌+◌, ◌++◌, decimal, length, take};
ghost use Rattle.dip_text.specs.Numbers.{hexadecimal};

use crate::hexadecimal::write_digits;
use itoa::Buffer;

/// Puts a piece behind what stands in a line, and answers where it ends.
pub fn add(into: &mut [u8], at: usize, piece: &[u8]) -> usize
    requires { at + length piece.now ≤ length into.now }
    ensures end { result ≡ at + length piece.now }
    ensures text { take result into.new ≡ take at into.old ++ piece.now }
    ensures room { length into.new ≡ length into.old }
{
    let end = at + piece.len();
    into[at..end].copy_from_slice(piece);
    end
}

/// Puts a number in decimal, which takes 20 bytes at most, behind what stands in a line, and answers where it
/// ends.
pub fn add_number(into: &mut [u8], at: usize, number: u64) -> usize
    requires { at + 20 ≤ length into.now }
    ensures end { result ≤ at + 20 }
    ensures text { take result into.new ≡ take at into.old ++ decimal number }
    ensures room { length into.new ≡ length into.old }
{
    let mut digits = Buffer::new();
    add(into, at, digits.format(number).as_bytes())
}

/// Puts a number of 32 bits in decimal, which takes 10 bytes at most, behind what stands in a line, and
/// answers where it ends.
pub fn add_short(into: &mut [u8], at: usize, number: u32) -> usize
    requires { at + 10 ≤ length into.now }
    ensures end { result ≤ at + 10 }
    ensures text { take result into.new ≡ take at into.old ++ decimal number }
    ensures room { length into.new ≡ length into.old }
{
    let mut digits = Buffer::new();
    add(into, at, digits.format(number).as_bytes())
}

/// Puts a number in hexadecimal, which takes 16 bytes at most, behind what stands in a line, and answers
/// where it ends.
pub fn add_hexadecimal(into: &mut [u8], at: usize, number: u64) -> usize
    requires { at + 16 ≤ length into.now }
    ensures end { result ≤ at + 16 }
    ensures text { take result into.new ≡ take at into.old ++ hexadecimal number }
    ensures room { length into.new ≡ length into.old }
{
    let mut digits = [0; 16];
    let first = write_digits(number, &mut digits);
    add(into, at, &digits[first..])
}
