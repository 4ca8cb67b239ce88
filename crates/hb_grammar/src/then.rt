//! One grammar behind another.

ghost use Rattle.std.specs.Prelude.{[], IfSome, IfNone};
ghost use Rattle.hb_grammar.specs.Grammar.{Same, Follows, Refuses};
ghost use Rattle.hb_grammar.specs.Joined.{LeftOf, Joined};

use crate::grammar::{Closed, Grammar};

/// A string of one grammar, none of whose strings begins another, and behind it a string of a second.
#[derive(Clone, Copy)]
pub struct Then<A, B> {
    first: Option<A>,
    second: B,
}

impl<A: Closed, B: Grammar> Then<A, B> {
    /// A string of `first`, and behind it a string of `second`.
    #[tactic(auto, using(crate::proofs::SameLemmas::Same_refl))]
    pub fn new(first: A, second: B) -> Then<A, B>
        ensures { Same (⟦<Then<A, B> as Grammar>⟧.spells result) (Joined (A.spells first) (B.spells second)) }
    {
        Then {
            first: Some(first),
            second,
        }
    }

    /// What is left after a byte of the second, where the first is done.
    fn step_second(second: B, byte: u8) -> Option<Then<A, B>>
        ensures goes_on { IfSome result (λ next. Follows (B.spells second) byte (LeftOf A.spells next.first (B.spells next.second))) }
        ensures stops { IfNone result (Refuses (B.spells second) byte) }
    {
        match second.step(byte) {
            Some(second) => Some(Then {
                first: None,
                second,
            }),
            None => None,
        }
    }

    /// What is left after a byte behind a whole string of the first.
    fn step_past(first: A, second: B, byte: u8) -> Option<Then<A, B>>
        requires { A.spells first [] }
        ensures goes_on { IfSome result (λ next. Follows (Joined (A.spells first) (B.spells second)) byte (LeftOf A.spells next.first (B.spells next.second))) }
        ensures stops { IfNone result (Refuses (Joined (A.spells first) (B.spells second)) byte) }
    {
        let _ = first;
        match second.step(byte) {
            Some(second) => Some(Then {
                first: None,
                second,
            }),
            None => None,
        }
    }

    /// What is left after a byte of the first.
    fn step_first(first: A, second: B, byte: u8) -> Option<Then<A, B>>
        requires { A.spells first [] → ⊥ }
        ensures goes_on { IfSome result (λ next. Follows (Joined (A.spells first) (B.spells second)) byte (LeftOf A.spells next.first (B.spells next.second))) }
        ensures stops { IfNone result (Refuses (Joined (A.spells first) (B.spells second)) byte) }
    {
        match first.step(byte) {
            Some(next) => Some(Then {
                first: Some(next),
                second,
            }),
            None => None,
        }
    }
}

impl<A: Closed, B: Grammar> Grammar for Then<A, B> {
    ghost use Rattle.hb_grammar.specs.JoinedLaws.{IsLive-LeftOf};

    ghost spells = { λ pair. LeftOf A.spells pair.first (B.spells pair.second) };

    ghost completes = { λ pair. IsLive-LeftOf A.spells B.spells A.completes B.completes pair.first pair.second };

    fn step(self, byte: u8) -> Option<Self> {
        match self.first {
            None => Then::step_second(self.second, byte),
            Some(first) => {
                if first.is_whole() {
                    Then::step_past(first, self.second, byte)
                } else {
                    Then::step_first(first, self.second, byte)
                }
            }
        }
    }

    fn is_whole(self) -> bool {
        match self.first {
            None => self.second.is_whole(),
            Some(first) => first.is_whole() && self.second.is_whole(),
        }
    }
}

impl<A: Closed, B: Closed> Closed for Then<A, B> {
    ghost use Rattle.hb_grammar.specs.JoinedLaws.{Refuses-LeftOf};

    ghost closed = { λ pair. Refuses-LeftOf A.spells B.spells A.closed B.closed pair.first pair.second };
}
