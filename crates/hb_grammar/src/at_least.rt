//! Strings of a grammar from a bound on.

ghost use Rattle.std.specs.Prelude.{◌≡◌, Some, IfSome, IfNone, option_copied};
ghost use Rattle.hb_grammar.specs.Grammar.{Same, Follows, Refuses};
ghost use Rattle.hb_grammar.specs.AtLeast.{NotBelow, FromBound, IsBoundOf};

use crate::grammar::Grammar;
use std::alloc::AllocError;
use std::cmp::Ordering;

/// A string of a grammar that is not below a bound, in the order of bytes, where the bound is such a
/// string itself.
pub struct AtLeast<'a, A: Grammar> {
    inner: A,
    bound: Option<&'a [u8]>,
    ghost bounded: { IsBoundOf (A.spells inner) (option_copied bound) },
}

impl<'a, A: Grammar> Clone for AtLeast<'a, A> {
    ghost is_clone = { λ x y. y ≡ x };

    ghost is_infallible = { λ _. Unit {0} };

    fn clone(&self) -> Result<Self, AllocError> {
        Ok(AtLeast {
            inner: self.inner,
            bound: self.bound,
        })
    }
}

impl<'a, A: Grammar> Copy for AtLeast<'a, A> {}

impl<'a, A: Grammar> AtLeast<'a, A> {
    /// A string of `inner` that is not below `bound`.
    pub fn new(inner: A, bound: Option<&'a [u8]>) -> AtLeast<'a, A>
        requires { IfSome bound (λ bytes. A.spells inner bytes.now) }
        ensures { Same (⟦<AtLeast<'a, A> as Grammar>⟧.spells result) (NotBelow (A.spells inner) (option_copied bound.entry)) }
    {
        AtLeast { inner, bound }
    }

    /// What is left after a byte, where there is no bound.
    fn step_free(inner: A, byte: u8) -> Option<AtLeast<'a, A>>
        ensures goes_on { IfSome result (λ next. Follows (A.spells inner) byte (FromBound (A.spells next.inner) (option_copied next.bound))) }
        ensures stops { IfNone result (Refuses (A.spells inner) byte) }
    {
        match inner.step(byte) {
            Some(inner) => Some(AtLeast { inner, bound: None }),
            None => None,
        }
    }

    /// What is left after a byte, where the bound is not used up.
    fn step_bound(inner: A, bound: &'a [u8], byte: u8) -> Option<AtLeast<'a, A>>
        requires { (A.spells inner bound.now → ⊥) → ⊥ }
        ensures goes_on { IfSome result (λ next. Follows (FromBound (A.spells inner) (Some bound.now)) byte
            (FromBound (A.spells next.inner) (option_copied next.bound))) }
        ensures stops { IfNone result (Refuses (FromBound (A.spells inner) (Some bound.now)) byte) }
    {
        match inner.step(byte) {
            None => None,
            Some(inner) => {
                if bound.len() == 0 {
                    return Some(AtLeast { inner, bound: None });
                }
                match bound[0].cmp(&byte) {
                    Ordering::Less => Some(AtLeast { inner, bound: None }),
                    Ordering::Equal => Some(AtLeast {
                        inner,
                        bound: Some(&bound[1..]),
                    }),
                    Ordering::Greater => None,
                }
            }
        }
    }
}

impl<'a, A: Grammar> Grammar for AtLeast<'a, A> {
    ghost use Rattle.hb_grammar.specs.AtLeastLaws.{IsLive-FromBound};

    ghost spells = { λ at_least. FromBound (A.spells at_least.inner) (option_copied at_least.bound) };

    ghost completes = { λ at_least. IsLive-FromBound (A.spells at_least.inner) (option_copied at_least.bound) (A.completes at_least.inner) };

    fn step(self, byte: u8) -> Option<Self> {
        match self.bound {
            None => AtLeast::step_free(self.inner, byte),
            Some(bound) => AtLeast::step_bound(self.inner, bound, byte),
        }
    }

    fn is_whole(self) -> bool {
        match self.bound {
            None => self.inner.is_whole(),
            Some(bound) => bound.len() == 0,
        }
    }
}
