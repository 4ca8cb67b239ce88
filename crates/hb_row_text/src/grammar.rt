//! The grammar of row keys as text.

ghost use Rattle.std.specs.Prelude.{IfSome, IfNone};
ghost use Rattle.hb_grammar.specs.Grammar.{Follows, Refuses, Same};
ghost use Rattle.hb_row_text.specs.RowDigits.{DigitsLeft, RowFrom};
ghost use Rattle.hb_row_text.specs.RowText.{IsRowText};

use hb_grammar::{Class, Grammar};

/// What is left of the text of a row key.
#[derive(Clone, Copy)]
pub enum RowGrammar {
    /// All of it.
    Whole,
    /// Nothing, behind a `-`.
    Nothing,
    /// At most so many digits, and an odd count of them where this is odd.
    Digits(u16),
}

/// The grammar of the text of a row key, before its first byte.
pub fn row_grammar() -> RowGrammar
    ensures { Same (RowFrom result) IsRowText }
{
    RowGrammar::Whole
}

/// What is left of so many digits after a byte.
fn step_digits(left: u16, byte: u8) -> Option<RowGrammar>
    ensures goes_on { IfSome result (λ next. Follows (DigitsLeft left) byte (RowFrom next)) }
    ensures stops { IfNone result (Refuses (DigitsLeft left) byte) }
{
    if left > 0 && Class::LowerHex.has(byte) {
        Some(RowGrammar::Digits(left - 1))
    } else {
        None
    }
}

impl Grammar for RowGrammar {
    ghost use Rattle.hb_row_text.specs.RowDigitsLaws.{IsLive-RowFrom};

    ghost spells = { λ left. RowFrom left };

    ghost completes = { λ left. IsLive-RowFrom left };

    fn step(self, byte: u8) -> Option<RowGrammar> {
        match self {
            RowGrammar::Whole => {
                if byte == b'-' {
                    Some(RowGrammar::Nothing)
                } else {
                    step_digits(65_534, byte)
                }
            }
            RowGrammar::Nothing => None,
            RowGrammar::Digits(left) => step_digits(left, byte),
        }
    }

    fn is_whole(self) -> bool {
        match self {
            RowGrammar::Whole => false,
            RowGrammar::Nothing => true,
            RowGrammar::Digits(left) => left % 2 == 0,
        }
    }
}
