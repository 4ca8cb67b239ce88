//! Items, and then a tail.
ghost use Rattle.std.specs.Prelude.{◌≡◌, [], None, IfSome, IfNone, true, false};
ghost use Rattle.hb_grammar.specs.Grammar.{Follows, Refuses, Same};
ghost use Rattle.hb_grammar.specs.Either.{IfLeft};
ghost use Rattle.shell_text.specs.Repeated.{ItemsThen, Parts, PartsLeft, RepeatedFrom};

use hb_grammar::{Closed, Grammar};
use std::alloc::AllocError;

/// Up to so many items, and behind them a tail, which no item begins.
pub struct Repeated<A: Closed, B: Grammar> {
    item: Option<A>,
    tail: Option<B>,
    fresh_item: A,
    fresh_tail: B,
    more: usize,
    ghost some: { item ≡ None → tail ≡ None → ⊥ },
    ghost apart: { PartsLeft A.spells B.spells item tail },
    ghost fresh_apart: { Parts (A.spells fresh_item) (B.spells fresh_tail) },
}

impl<A: Closed, B: Grammar> Clone for Repeated<A, B> {
    ghost is_clone = { λ x y. y ≡ x };

    ghost is_infallible = { λ _. Unit {0} };

    fn clone(&self) -> Result<Self, AllocError> {
        Ok(*self)
    }
}

impl<A: Closed, B: Grammar> Copy for Repeated<A, B> {}

/// What is left of a grammar after a byte, where it is not gone.
fn step_left<A: Grammar>(grammar: Option<A>, byte: u8) -> Option<A>
    ensures { Follows (IfLeft A.spells grammar) byte (IfLeft A.spells result) }
{
    match grammar {
        None => None,
        Some(grammar) => grammar.step(byte),
    }
}

impl<A: Closed, B: Grammar> Repeated<A, B> {
    /// Up to `more` items, and behind them a tail.
    pub fn new(item: A, tail: B, more: usize) -> Repeated<A, B>
        requires { Parts (A.spells item) (B.spells tail) }
        ensures same { Same (RepeatedFrom A.spells B.spells result.item result.tail result.fresh_item result.fresh_tail result.more)
            (ItemsThen (A.spells item) (B.spells tail) more) }
        ensures begun { IfLeft A.spells result.item [] → ⊥ }
    {
        if more == 0 {
            return Repeated {
                item: None,
                tail: Some(tail),
                fresh_item: item,
                fresh_tail: tail,
                more: 0,
            };
        }
        Repeated {
            item: Some(item),
            tail: Some(tail),
            fresh_item: item,
            fresh_tail: tail,
            more: more - 1,
        }
    }

    /// What is left after a byte, where an item is not whole.
    fn step_parts(self, byte: u8) -> Option<Repeated<A, B>>
        requires { IfLeft A.spells self.item [] → ⊥ }
        ensures goes_on { IfSome result (λ left. Follows (RepeatedFrom A.spells B.spells self.item self.tail self.fresh_item self.fresh_tail self.more) byte
            (RepeatedFrom A.spells B.spells left.item left.tail left.fresh_item left.fresh_tail left.more)) }
        ensures stops { IfNone result (Refuses (RepeatedFrom A.spells B.spells self.item self.tail self.fresh_item self.fresh_tail self.more) byte) }
    {
        let item = step_left(self.item, byte);
        let tail = step_left(self.tail, byte);
        match item {
            Some(item) => Some(Repeated {
                item: Some(item),
                tail,
                fresh_item: self.fresh_item,
                fresh_tail: self.fresh_tail,
                more: self.more,
            }),
            None => match tail {
                Some(tail) => Some(Repeated {
                    item: None,
                    tail: Some(tail),
                    fresh_item: self.fresh_item,
                    fresh_tail: self.fresh_tail,
                    more: self.more,
                }),
                None => None,
            },
        }
    }

    /// What is left after a byte behind a whole item.
    fn step_whole(self, byte: u8) -> Option<Repeated<A, B>>
        requires { IfLeft A.spells self.item [] }
        ensures goes_on { IfSome result (λ left. Follows (RepeatedFrom A.spells B.spells self.item self.tail self.fresh_item self.fresh_tail self.more) byte
            (RepeatedFrom A.spells B.spells left.item left.tail left.fresh_item left.fresh_tail left.more)) }
        ensures stops { IfNone result (Refuses (RepeatedFrom A.spells B.spells self.item self.tail self.fresh_item self.fresh_tail self.more) byte) }
    {
        let fresh = Repeated::new(self.fresh_item, self.fresh_tail, self.more);
        match fresh.step_parts(byte) {
            Some(left) => Some(left),
            None => None,
        }
    }
}

impl<A: Closed, B: Grammar> Repeated<A, B> {
    /// Whether the string of no bytes is left.
    fn may_end(self) -> bool
        ensures yes { result ≡ true → RepeatedFrom A.spells B.spells self.item self.tail self.fresh_item self.fresh_tail self.more [] }
        ensures no { result ≡ false → RepeatedFrom A.spells B.spells self.item self.tail self.fresh_item self.fresh_tail self.more [] → ⊥ }
    {
        is_whole_left(self.tail) || (is_whole_left(self.item) && self.fresh_tail.is_whole())
    }
}

/// Whether a grammar is not gone, and has the string of no bytes.
fn is_whole_left<A: Grammar>(grammar: Option<A>) -> bool
    ensures yes { result ≡ true → IfLeft A.spells grammar [] }
    ensures no { result ≡ false → IfLeft A.spells grammar [] → ⊥ }
{
    match grammar {
        None => false,
        Some(grammar) => grammar.is_whole(),
    }
}

impl<A: Closed, B: Grammar> Grammar for Repeated<A, B> {
    ghost use Rattle.shell_text.specs.RepeatedLaws.{IsLive-RepeatedFrom};

    ghost spells = { λ repeated. RepeatedFrom A.spells B.spells repeated.item repeated.tail repeated.fresh_item repeated.fresh_tail repeated.more };

    ghost completes = { λ repeated. IsLive-RepeatedFrom A.spells B.spells A.completes B.completes repeated.item repeated.tail repeated.fresh_item repeated.fresh_tail repeated.more repeated.some };

    fn step(self, byte: u8) -> Option<Self> {
        if is_whole_left(self.item) {
            self.step_whole(byte)
        } else {
            self.step_parts(byte)
        }
    }

    fn is_whole(self) -> bool {
        self.may_end()
    }
}
