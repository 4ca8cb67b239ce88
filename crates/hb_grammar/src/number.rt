//! Decimal numbers.

ghost use Rattle.std.specs.Prelude.{◌≡◌, ◌≤◌, ◌<◌, ◌+◌, ◌*◌, IfSome, IfNone};
ghost use Rattle.std.specs.Fmt.{decimal};
ghost use Rattle.hb_grammar.specs.Numeral.{IsNumeral};

/// The number with a digit more, if that is not above the limit.
pub(crate) fn with_digit(value: u64, digit: u64, max: u64) -> Option<u64>
    requires { value ≤ max }
    ensures some { IfSome result (λ more. (more ≡ value * 10 + digit) × (more ≤ max)) }
    ensures none { IfNone result (max < value * 10 + digit) }
{
    if value > max / 10 {
        return None;
    }
    let shifted = value * 10;
    if digit > max - shifted {
        return None;
    }
    Some(shifted + digit)
}

/// The number that a numeral stands for.
pub fn number_of(bytes: &[u8]) -> u64
    requires { IsNumeral 0 18_446_744_073_709_551_615 bytes.now }
    ensures { decimal result ≡ bytes.now }
{
    let mut value = (bytes[0] - b'0') as u64;
    for i in 1..bytes.len() {
        value = value * 10 + (bytes[i] - b'0') as u64;
    }
    value
}
