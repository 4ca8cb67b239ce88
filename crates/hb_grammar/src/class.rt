//! Classes of bytes.

ghost use Rattle.std.specs.Prelude.{◌≡◌};
ghost use Rattle.hb_grammar.specs.Class.{has, is_digit, is_letter};

/// A class of bytes.
#[derive(Clone, Copy, Debug, PartialEq, Eq)]
pub enum Class {
    /// `0` to `9`
    Digit,
    /// `0` to `9` and `a` to `f`
    LowerHex,
    /// letters, digits and `_`
    NameStart,
    /// letters, digits and `_ -`
    FamilyStart,
    /// letters, digits and `_ - .`
    Name,
    /// letters, digits and `_ - . =`
    Component,
}

impl Class {
    /// Whether the class has this byte.
    #[tactic(auto, unfolding(crate::specs::Class::has))]
    pub fn has(self, byte: u8) -> bool
        ensures { result ≡ has self byte }
    {
        let plain = is_digit(byte) || is_letter(byte) || byte == b'_';
        match self {
            Class::Digit => is_digit(byte),
            Class::LowerHex => is_digit(byte) || (b'a' <= byte && byte <= b'f'),
            Class::NameStart => plain,
            Class::FamilyStart => plain || byte == b'-',
            Class::Name => plain || byte == b'-' || byte == b'.',
            Class::Component => plain || byte == b'-' || byte == b'.' || byte == b'=',
        }
    }
}

/// Whether the byte is an ASCII digit.
pub fn is_digit(byte: u8) -> bool
    ensures { result ≡ is_digit byte }
{
    b'0' <= byte && byte <= b'9'
}

fn is_letter(byte: u8) -> bool
    ensures { result ≡ is_letter byte }
{
    (b'A' <= byte && byte <= b'Z') || (b'a' <= byte && byte <= b'z')
}
