//! A grammar behind blanks.
ghost use Rattle.std.specs.Prelude.{◌≡◌, true, IfSome, IfNone};
ghost use Rattle.hb_grammar.specs.Grammar.{Follows, Refuses, Same};
ghost use Rattle.shell_text.specs.Blanks.{IsPaddable, PaddedFrom};

use hb_grammar::Grammar;
use std::alloc::AllocError;

/// A string of a grammar, behind any blanks where it may be padded.
pub struct Padded<A: Grammar> {
    padding: bool,
    inner: A,
    ghost paddable: { IsPaddable padding (A.spells inner) },
}

impl<A: Grammar> Clone for Padded<A> {
    ghost is_clone = { λ x y. y ≡ x };

    ghost is_infallible = { λ _. Unit {0} };

    fn clone(&self) -> Result<Self, AllocError> {
        Ok(*self)
    }
}

impl<A: Grammar> Copy for Padded<A> {}

impl<A: Grammar> Padded<A> {
    /// A string of `inner`, behind any blanks.
    pub fn new(inner: A) -> Padded<A>
        requires { Refuses (A.spells inner) 32 }
        ensures { Same (PaddedFrom result.padding (A.spells result.inner)) (PaddedFrom true (A.spells inner)) }
    {
        Padded {
            padding: true,
            inner,
        }
    }
}

impl<A: Grammar> Padded<A> {
    /// What is left after a byte, where blanks may come.
    fn step_padded(inner: A, byte: u8) -> Option<Padded<A>>
        requires { Refuses (A.spells inner) 32 }
        ensures goes_on { IfSome result (λ left. Follows (PaddedFrom true (A.spells inner)) byte (PaddedFrom left.padding (A.spells left.inner))) }
        ensures stops { IfNone result (Refuses (PaddedFrom true (A.spells inner)) byte) }
    {
        if byte == b' ' {
            return Some(Padded {
                padding: true,
                inner,
            });
        }
        match inner.step(byte) {
            Some(inner) => Some(Padded {
                padding: false,
                inner,
            }),
            None => None,
        }
    }

    /// What is left after a byte, where none may come.
    fn step_inner(inner: A, byte: u8) -> Option<Padded<A>>
        ensures goes_on { IfSome result (λ left. Follows (A.spells inner) byte (PaddedFrom left.padding (A.spells left.inner))) }
        ensures stops { IfNone result (Refuses (A.spells inner) byte) }
    {
        match inner.step(byte) {
            Some(inner) => Some(Padded {
                padding: false,
                inner,
            }),
            None => None,
        }
    }
}

impl<A: Grammar> Grammar for Padded<A> {
    ghost use Rattle.shell_text.specs.Blanks.{IsLive-PaddedFrom};

    ghost spells = { λ padded. PaddedFrom padded.padding (A.spells padded.inner) };

    ghost completes = { λ padded. IsLive-PaddedFrom padded.padding (A.spells padded.inner) (A.completes padded.inner) };

    fn step(self, byte: u8) -> Option<Self> {
        if self.padding {
            Padded::step_padded(self.inner, byte)
        } else {
            Padded::step_inner(self.inner, byte)
        }
    }

    fn is_whole(self) -> bool {
        self.inner.is_whole()
    }
}
