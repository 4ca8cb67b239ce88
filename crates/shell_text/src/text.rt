//! The text of an argument.
ghost use Rattle.std.specs.Prelude.{◌≡◌, ◌<◌, true, false, IfSome, IfNone};
ghost use Rattle.hb_grammar.specs.Grammar.{Same, Follows, Refuses};
ghost use Rattle.shell_text.specs.Text.{TextFrom, IsText, can_escape, is_small, digit_value, has_value, is_open_at, is_plain};
ghost use Rattle.shell_text.specs.declared.text.Place.TheVariants.{Between, First, Second};
ghost use Rattle.shell_text.specs.Argument.{next, is_open};

use crate::argument::Argument;
use hb_grammar::{Class, Grammar};

/// How much of an escape was read.
#[derive(Clone, Copy, Debug, PartialEq, Eq)]
pub enum Place {
    /// Nothing of one.
    Between,
    /// Its backslash.
    Escape,
    /// Its `x`; the first digit is to come.
    First,
    /// Its first digit, of this value; the second is to come.
    Second(u8),
}

/// What is left of the text of an argument.
#[derive(Clone, Copy)]
pub struct Text {
    place: Place,
    argument: Argument,
    ghost open: { can_escape place argument ≡ true },
    ghost small: { is_small place ≡ true },
}

/// Whether a byte stands for itself in a text.
pub fn is_plain(byte: u8) -> bool
    ensures { result ≡ is_plain byte }
{
    b' ' <= byte && byte <= b'~' && byte != b'\'' && byte != b'\\'
}

/// The value of a lower-case hexadecimal digit. It is below 16 for each other byte too.
pub fn digit_value(digit: u8) -> u8
    ensures value { result ≡ digit_value digit }
    ensures small { result < 16 }
{
    if b'0' <= digit && digit <= b'9' {
        digit - b'0'
    } else {
        digit.saturating_sub(87) % 16
    }
}

/// Whether the argument goes on with a byte.
fn takes(argument: Argument, byte: u8) -> bool
    ensures { result ≡ has_value (next argument byte) }
{
    argument.next(byte).is_some()
}

/// Whether a byte whose escape has this first digit may come.
fn is_open_at(argument: Argument, high: u8) -> bool
    requires { high < 16 }
    ensures { result ≡ is_open_at argument high }
{
    b"0123456789abcdef"
        .iter()
        .any(|digit| takes(argument, 16 * high + digit_value(*digit)))
}

impl Text {
    /// The text of an argument.
    pub fn new(argument: Argument) -> Text
        ensures { Same (TextFrom result.place result.argument) (IsText argument) }
    {
        Text {
            place: Place::Between,
            argument,
        }
    }
}

impl Text {
    /// What is left after a byte that stands for itself.
    fn step_plain(argument: Argument, byte: u8) -> Option<Text>
        requires { is_plain byte ≡ true }
        ensures goes_on { IfSome result (λ left. Follows (TextFrom Between argument) byte (TextFrom left.place left.argument)) }
        ensures stops { IfNone result (Refuses (TextFrom Between argument) byte) }
    {
        match argument.next(byte) {
            Some(argument) => Some(Text {
                place: Place::Between,
                argument,
            }),
            None => None,
        }
    }

    /// What is left after a byte that does not stand for itself.
    fn step_escape(argument: Argument, byte: u8) -> Option<Text>
        requires { is_plain byte ≡ false }
        ensures goes_on { IfSome result (λ left. Follows (TextFrom Between argument) byte (TextFrom left.place left.argument)) }
        ensures stops { IfNone result (Refuses (TextFrom Between argument) byte) }
    {
        if byte != b'\\' {
            return None;
        }
        if argument.is_open() {
            Some(Text {
                place: Place::Escape,
                argument,
            })
        } else {
            None
        }
    }

    /// What is left after the first digit of an escape.
    fn step_first(argument: Argument, byte: u8) -> Option<Text>
        requires { is_open argument ≡ true }
        ensures goes_on { IfSome result (λ left. Follows (TextFrom First argument) byte (TextFrom left.place left.argument)) }
        ensures stops { IfNone result (Refuses (TextFrom First argument) byte) }
    {
        if !Class::LowerHex.has(byte) {
            return None;
        }
        let high = digit_value(byte);
        if is_open_at(argument, high) {
            Some(Text {
                place: Place::Second(high),
                argument,
            })
        } else {
            None
        }
    }

    /// What is left after the second digit of an escape.
    fn step_second(argument: Argument, high: u8, byte: u8) -> Option<Text>
        requires { high < 16 }
        ensures goes_on { IfSome result (λ left. Follows (TextFrom (Second high) argument) byte (TextFrom left.place left.argument)) }
        ensures stops { IfNone result (Refuses (TextFrom (Second high) argument) byte) }
    {
        if !Class::LowerHex.has(byte) {
            return None;
        }
        match argument.next(16 * high + digit_value(byte)) {
            Some(argument) => Some(Text {
                place: Place::Between,
                argument,
            }),
            None => None,
        }
    }
}

impl Grammar for Text {
    ghost use Rattle.shell_text.specs.TextLaws.{IsLive-TextFrom};

    ghost spells = { λ text. TextFrom text.place text.argument };

    ghost completes = { λ text. IsLive-TextFrom text.place text.argument text.open };

    fn step(self, byte: u8) -> Option<Text> {
        match self.place {
            Place::Between => {
                if is_plain(byte) {
                    Text::step_plain(self.argument, byte)
                } else {
                    Text::step_escape(self.argument, byte)
                }
            }
            Place::Escape => {
                if byte == b'x' {
                    Some(Text {
                        place: Place::First,
                        argument: self.argument,
                    })
                } else {
                    None
                }
            }
            Place::First => Text::step_first(self.argument, byte),
            Place::Second(high) => Text::step_second(self.argument, high, byte),
        }
    }

    fn is_whole(self) -> bool {
        match self.place {
            Place::Between => self.argument.is_done(),
            _ => false,
        }
    }
}
