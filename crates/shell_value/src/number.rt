//! The number among the bytes outside of texts.
ghost use Rattle.std.specs.Prelude.{◌≡◌, ◌<◌, ◌^◌, IfSome};
ghost use Rattle.hb_grammar.specs.Class.{is_digit};
ghost use Rattle.shell_value.specs.Quotes.{number_of};

/// Whether a byte is a decimal digit.
fn is_digit(byte: u8) -> bool
    ensures { result ≡ is_digit byte }
{
    b'0' <= byte && byte <= b'9'
}

/// The number whose digits stand among the bytes, if there are any.
pub fn number_of(bytes: &[u8]) -> Option<u64>
    requires { IfSome (number_of bytes.now) (λ number. number < 2 ^ 64) }
    ensures { result ≡ number_of bytes.now }
{
    let mut number: Option<u64> = None;
    for byte in bytes {
        if is_digit(*byte) {
            let digit = byte.saturating_sub(b'0') as u64;
            let front = number.unwrap_or(0);
            number = Some(front * 10 + digit);
        }
    }
    number
}
