ghost use Rattle.std.specs.Prelude.{◌≡◌, ◌≤◌, ◌<◌, false, drop};
ghost use Rattle.std.specs.Fmt.{digit_glyph};
ghost use Rattle.dip_text.specs.Numbers.{hexadecimal};

// The hexadecimal digit of a number below 16.
fn glyph(digit: u8) -> u8
    requires { digit < 16 }
    ensures { result ≡ digit_glyph false digit }
{
    if digit < 10 { 48 + digit } else { 87 + digit }
}

/// Writes a number in hexadecimal, without leading zeros, to the end of `into`, and answers where it begins.
/// It takes no memory.
pub fn write_digits(number: u64, into: &mut [u8; 16]) -> usize
    ensures within { result < 16 }
    ensures text { drop result into.new ≡ hexadecimal number }
{
    let mut rest = number;
    let mut at = 15;
    while rest >= 16 {
        into[at] = glyph((rest % 16) as u8);
        rest /= 16;
        at -= 1;
    }
    into[at] = glyph(rest as u8);
    at
}
