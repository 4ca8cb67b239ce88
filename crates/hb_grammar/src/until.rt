//! A grammar, and a mark that ends it.

ghost use Rattle.std.specs.Prelude.{◌≡◌, [], Some, IfSome, IfNone};
ghost use Rattle.hb_grammar.specs.Grammar.{Same, Follows, Refuses};
ghost use Rattle.hb_grammar.specs.Marked.{UntilMark, Avoids, Marked};

use crate::grammar::{Closed, Grammar};
use std::alloc::AllocError;

/// A string of a grammar, and behind it a mark that no string of the grammar has.
pub struct Until<A: Grammar> {
    inner: Option<A>,
    mark: u8,
    ghost apart: { (a : A) → inner ≡ Some a → Avoids (A.spells a) mark },
}

impl<A: Grammar> Clone for Until<A> {
    ghost is_clone = { λ x y. y ≡ x };

    ghost is_infallible = { λ _. Unit {0} };

    fn clone(&self) -> Result<Self, AllocError> {
        Ok(*self)
    }
}

impl<A: Grammar> Copy for Until<A> {}

impl<A: Grammar> Until<A> {
    /// A string of `inner`, and `mark` behind it.
    #[tactic(auto, using(crate::proofs::SameLemmas::Same_refl))]
    pub fn new(inner: A, mark: u8) -> Until<A>
        requires { Avoids (A.spells inner) mark }
        ensures { Same (⟦<Until<A> as Grammar>⟧.spells result) (Marked (A.spells inner) mark) }
    {
        Until {
            inner: Some(inner),
            mark,
        }
    }

    /// What is left after a byte, where the mark is still to come.
    fn step_inner(inner: A, mark: u8, byte: u8) -> Option<Until<A>>
        requires { Avoids (A.spells inner) mark }
        ensures goes_on { IfSome result (λ next. Follows (Marked (A.spells inner) mark) byte (UntilMark A.spells next.inner next.mark)) }
        ensures stops { IfNone result (Refuses (Marked (A.spells inner) mark) byte) }
    {
        if byte == mark {
            return if inner.is_whole() {
                Some(Until { inner: None, mark })
            } else {
                None
            };
        }
        match inner.step(byte) {
            Some(next) => Some(Until {
                inner: Some(next),
                mark,
            }),
            None => None,
        }
    }
}

impl<A: Grammar> Grammar for Until<A> {
    ghost use Rattle.hb_grammar.specs.MarkedLaws.{IsLive-UntilMark};

    ghost spells = { λ until. UntilMark A.spells until.inner until.mark };

    ghost completes = { λ until. IsLive-UntilMark A.spells A.completes until.inner until.mark };

    fn step(self, byte: u8) -> Option<Self> {
        match self.inner {
            None => None,
            Some(inner) => Until::step_inner(inner, self.mark, byte),
        }
    }

    fn is_whole(self) -> bool {
        match self.inner {
            None => true,
            Some(_) => false,
        }
    }
}

impl<A: Grammar> Closed for Until<A> {
    ghost use Rattle.hb_grammar.specs.MarkedLaws.{Refuses-UntilMark};

    ghost closed = { λ until. Refuses-UntilMark A.spells until.inner until.mark };
}
