//! One grammar or another.

ghost use Rattle.std.specs.Prelude.{◌≡◌, [], Some, None, IsTrue, ◌↔◌};
ghost use Rattle.hb_grammar.specs.Grammar.{Follows, Same};
ghost use Rattle.hb_grammar.specs.Either.{IfLeft, EitherOf};

use crate::grammar::Grammar;
use std::alloc::AllocError;

/// A string of one grammar, or of another. Both are followed as long as they go on, so that the place
/// of a fault is the greater of both.
pub struct Either<A, B> {
    first: Option<A>,
    second: Option<B>,
    ghost some: { first ≡ None → second ≡ None → ⊥ },
}

impl<A: Copy, B: Copy> Clone for Either<A, B> {
    ghost is_clone = { λ x y. y ≡ x };

    ghost is_infallible = { λ _. Unit {0} };

    fn clone(&self) -> Result<Self, AllocError> {
        Ok(*self)
    }
}

impl<A: Copy, B: Copy> Copy for Either<A, B> {}

impl<A: Grammar, B: Grammar> Either<A, B> {
    /// A string of `first`, or of `second`.
    #[tactic(auto, using(crate::proofs::SameLemmas::Same_refl))]
    pub fn new(first: A, second: B) -> Either<A, B>
        ensures { Same (⟦<Either<A, B> as Grammar>⟧.spells result) (EitherOf (A.spells first) (B.spells second)) }
    {
        Either {
            first: Some(first),
            second: Some(second),
        }
    }
}

/// What is left after a byte, where something was.
fn step_left<A: Grammar>(grammar: Option<A>, byte: u8) -> Option<A>
    ensures { Follows (IfLeft A.spells grammar) byte (IfLeft A.spells result) }
{
    match grammar {
        None => None,
        Some(grammar) => grammar.step(byte),
    }
}

/// Whether something is left, and has the string of no bytes.
fn is_whole_left<A: Grammar>(grammar: Option<A>) -> bool
    ensures { IsTrue result ↔ IfLeft A.spells grammar [] }
{
    match grammar {
        None => false,
        Some(grammar) => grammar.is_whole(),
    }
}

impl<A: Grammar, B: Grammar> Grammar for Either<A, B> {
    ghost use Rattle.hb_grammar.specs.EitherLaws.{IsLive-EitherOf};

    ghost spells = { λ either. EitherOf (IfLeft A.spells either.first) (IfLeft B.spells either.second) };

    ghost completes = { λ either. IsLive-EitherOf A.spells B.spells A.completes B.completes either.first either.second either.some };

    fn step(self, byte: u8) -> Option<Self> {
        let first = step_left(self.first, byte);
        let second = step_left(self.second, byte);
        match first {
            Some(first) => Some(Either {
                first: Some(first),
                second,
            }),
            None => match second {
                Some(second) => Some(Either {
                    first: None,
                    second: Some(second),
                }),
                None => None,
            },
        }
    }

    fn is_whole(self) -> bool {
        is_whole_left(self.first) || is_whole_left(self.second)
    }
}
