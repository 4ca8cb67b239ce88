//! Decimal numbers from one number to another.

ghost use Rattle.std.specs.Prelude.{◌≡◌, ◌≤◌, ℕ, Some, IfSome, IfNone, IsTrue, ◌↔◌};
ghost use Rattle.hb_grammar.specs.Grammar.{Same, IsLive};
ghost use Rattle.hb_grammar.specs.Between.{DigitsBetween, BetweenFrom, Reaches, IsOnTheWay};
ghost use Rattle.hb_grammar.specs.Numeral.{IsNumeral};

use crate::class::is_digit;
use crate::grammar::Grammar;
use crate::number::with_digit;

/// A decimal number without a leading zero, from one number to another.
#[derive(Clone, Copy)]
pub struct Between {
    value: Option<u64>,
    low: u64,
    max: u64,
    ghost ordered: { low ≤ max },
    ghost within: { (v : ℕ) → value ≡ Some v → v ≤ max },
    ghost on_the_way: { IsOnTheWay low max value },
}

/// Whether a number from `low` to `max` begins with the digits of a value.
fn can_reach(value: u64, low: u64, max: u64) -> bool
    ensures { IsTrue result ↔ Reaches low max value }
{
    if value > max {
        return false;
    }
    if value == 0 {
        return low == 0;
    }
    let mut front = value;
    let mut span = 1;
    while front <= max / 10 {
        front = front * 10;
        span = span * 10;
    }
    low.saturating_sub(front) < span
}

/// What is left behind the digits of a value, or none where no number from `low` to `max` begins with them.
fn behind(value: u64, low: u64, max: u64) -> Option<Between>
    requires { low ≤ max }
    ensures goes_on { IfSome result (λ next. Same (DigitsBetween low max value) (BetweenFrom next.low next.max next.value)) }
    ensures stops { IfNone result (IsLive (DigitsBetween low max value) → ⊥) }
{
    if can_reach(value, low, max) {
        Some(Between {
            value: Some(value),
            low,
            max,
        })
    } else {
        None
    }
}

impl Between {
    /// A number of at least `low` and at most `max`.
    pub fn new(low: u64, max: u64) -> Between
        requires { low ≤ max }
        ensures { Same (⟦<Between as Grammar>⟧.spells result) (IsNumeral low max) }
    {
        Between {
            value: None,
            low,
            max,
        }
    }
}

impl Grammar for Between {
    ghost use Rattle.hb_grammar.specs.BetweenLaws.{IsLive-BetweenFrom};

    ghost spells = { λ between. BetweenFrom between.low between.max between.value };

    ghost completes = { λ between. IsLive-BetweenFrom between.low between.max between.value between.ordered between.on_the_way };

    fn step(self, byte: u8) -> Option<Between> {
        if !is_digit(byte) {
            return None;
        }
        let digit = (byte - b'0') as u64;
        match self.value {
            None => behind(digit, self.low, self.max),
            Some(value) => {
                if value == 0 {
                    return None;
                }
                match with_digit(value, digit, self.max) {
                    Some(value) => behind(value, self.low, self.max),
                    None => None,
                }
            }
        }
    }

    fn is_whole(self) -> bool {
        match self.value {
            None => false,
            Some(value) => self.low <= value,
        }
    }
}
