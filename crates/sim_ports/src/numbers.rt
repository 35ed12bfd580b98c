ghost use Rattle.std.specs.Prelude.{◌≡◌, ◌≤◌, length};
ghost use Rattle.tl_edge.specs.Beats.{of_digits};
ghost use Rattle.tl_edge.specs.Joined.{digits};

/// The number with these bytes, the lowest first.
pub(crate) fn number_of(bytes: &[u8]) -> u64
    requires { length bytes.now ≤ 8 }
    ensures { result ≡ of_digits 256 bytes.now }
{
    let mut number = 0;
    for count in 0..bytes.len() {
        number = number * 256 + u64::from(bytes[bytes.len() - 1 - count]);
    }
    number
}

/// Writes a number's lowest bytes, the lowest first.
pub(crate) fn put_number(number: u64, bytes: &mut [u8])
    ensures { bytes.new ≡ digits 256 (length bytes.old) number }
{
    let mut rest = number;
    for byte in bytes.iter_mut() {
        *byte = (rest % 256) as u8;
        rest /= 256;
    }
}
