//! Values of numbers.

ghost use Rattle.std.specs.Prelude.{◌≡◌, ◌+◌, ◌^◌, ◌<◌, ◌⊎◌, min};
ghost use Rattle.parser_base.specs.Lexemes.{digit_of, number_after, literal};

/// The most that the value of a number is known to, 2^100.
const MAX_VALUE: u128 = 1 << 100;

/// The value of a digit: `0` to `9`, and `a` to `f` or `A` to `F` for 10 to 15.
fn digit_of(byte: u8) -> u8
    ensures digit { result ≡ digit_of byte }
    ensures small { result < 16 }
{
    match byte {
        b'0'..=b'9' => byte - b'0',
        b'a'..=b'f' => byte - b'a' + 10,
        b'A'..=b'F' => byte - b'A' + 10,
        _ => 0,
    }
}

/// The value of digits in base 10 or 16, or one more than 2^100 if it is over 2^100.
fn number_after(base: u8, digits: &[u8]) -> u128
    requires { (base ≡ 10) ⊎ (base ≡ 16) }
    ensures { result ≡ min (number_after base 0 digits.now) (2 ^ 100 + 1) }
{
    let mut value: u128 = 0;
    for digit in digits {
        let digit = digit_of(*digit);
        value = (value * u128::from(base) + u128::from(digit)).min(MAX_VALUE + 1);
    }
    value
}

/// The value of a decimal or hexadecimal number, or `None` if it is over 2^100.
pub fn literal(text: &[u8]) -> Option<u128>
    ensures { result ≡ literal text.now }
{
    let value = match text {
        [b'0', b'x' | b'X', digits @ ..] => number_after(16, digits),
        digits => number_after(10, digits),
    };
    if value <= MAX_VALUE {
        Some(value)
    } else {
        None
    }
}
