//! Numbers of 64 bits as 16 hexadecimal digits.

ghost use Rattle.std.specs.Prelude.{◌≡◌};
ghost use Rattle.hb_grammar.specs.declared.class.Class.TheVariants.{LowerHex};
ghost use Rattle.hb_grammar.specs.Run.{IsExactly};
ghost use Rattle.hb_file_names.specs.FileParts.{sixteen_digits};

/// The number that 16 lower-case digits stand for.
pub fn number_of_digits(digits: &[u8]) -> u64
    requires { IsExactly LowerHex 16 digits.now }
    ensures { sixteen_digits result ≡ digits.now }
{
    let mut bytes = [0; 8];
    let _ = hex::decode_to_slice(digits, &mut bytes);
    u64::from_be_bytes(bytes)
}

/// The 16 digits of a number.
pub fn digits_of_number(number: u64) -> [u8; 16]
    ensures { result ≡ sixteen_digits number }
{
    let mut digits = [0; 16];
    let _ = hex::encode_to_slice(number.to_be_bytes(), &mut digits);
    digits
}
