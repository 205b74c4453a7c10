// Bytes written in hexadecimal, two digits to a byte.
ghost use Rattle.std.specs.Prelude.{◌≡◌, ◌<◌, ◌/◌, length};
ghost use Rattle.tray_cases.specs.Hexadecimal.{hexadecimal_digit, hexadecimal_bytes};

// Writes the bytes of a text. A character that is no digit stands for 0, and half a byte at the end
// is left out.
pub(crate) fn decode(text: &str, bytes: &mut [u8])
    requires { length bytes.old ≡ length text.now / 2 }
    ensures { bytes.new ≡ hexadecimal_bytes text.now }
{
    let digits = text.as_bytes();
    for i in 0..bytes.len() {
        bytes[i] = digit_of(digits[2 * i]) * 16 + digit_of(digits[2 * i + 1]);
    }
}

fn digit_of(c: u8) -> u8
    ensures value { result ≡ hexadecimal_digit c }
    ensures small { result < 16 }
{
    char::from(c).to_digit(16).unwrap_or(0) as u8
}
