//! Strings of one grammar with a mark between them.

ghost use Rattle.std.specs.Prelude.{◌≡◌};
ghost use Rattle.hb_grammar.specs.Grammar.{Same};
ghost use Rattle.hb_grammar.specs.Marked.{Avoids};
ghost use Rattle.hb_grammar.specs.Separated.{SeparatedFrom, SeparatedOf};

use crate::grammar::Grammar;
use std::alloc::AllocError;

/// One string of a grammar and at most so many more, with a mark between each two.
pub struct Separated<A: Grammar> {
    current: A,
    fresh: A,
    mark: u8,
    more: usize,
    ghost apart: { Avoids (A.spells current) mark },
    ghost fresh_apart: { Avoids (A.spells fresh) mark },
}

impl<A: Grammar> Clone for Separated<A> {
    ghost is_clone = { λ x y. y ≡ x };

    ghost is_infallible = { λ _. Unit {0} };

    fn clone(&self) -> Result<Self, AllocError> {
        Ok(*self)
    }
}

impl<A: Grammar> Copy for Separated<A> {}

impl<A: Grammar> Separated<A> {
    /// One string of `inner` and at most `more` more, with `mark` between each two.
    #[tactic(auto, using(crate::proofs::SameLemmas::Same_refl))]
    pub fn new(inner: A, mark: u8, more: usize) -> Separated<A>
        requires { Avoids (A.spells inner) mark }
        ensures { Same (⟦<Separated<A> as Grammar>⟧.spells result) (SeparatedOf (A.spells inner) mark more) }
    {
        Separated {
            current: inner,
            fresh: inner,
            mark,
            more,
        }
    }
}

impl<A: Grammar> Grammar for Separated<A> {
    ghost use Rattle.hb_grammar.specs.SeparatedLaws.{IsLive-SeparatedFrom};

    ghost spells = { λ row. SeparatedFrom (A.spells row.current) (A.spells row.fresh) row.mark row.more };

    ghost completes = { λ row. IsLive-SeparatedFrom (A.spells row.current) (A.spells row.fresh) row.mark row.more (A.completes row.current) };

    fn step(self, byte: u8) -> Option<Self> {
        if byte == self.mark {
            if self.more == 0 {
                return None;
            }
            if !self.current.is_whole() {
                return None;
            }
            return Some(Separated {
                current: self.fresh,
                fresh: self.fresh,
                mark: self.mark,
                more: self.more - 1,
            });
        }
        match self.current.step(byte) {
            Some(next) => Some(Separated {
                current: next,
                fresh: self.fresh,
                mark: self.mark,
                more: self.more,
            }),
            None => None,
        }
    }

    fn is_whole(self) -> bool {
        self.current.is_whole()
    }
}
