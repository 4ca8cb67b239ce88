//! One text.

ghost use Rattle.std.specs.Prelude.{◌≡◌};

use crate::grammar::{Closed, Grammar};

/// One text.
#[derive(Clone, Copy)]
pub struct Literal {
    pub text: &'static [u8],
}

impl Grammar for Literal {
    ghost use Rattle.hb_grammar.specs.TextLaws.{IsLive-text};

    ghost spells = { λ literal bytes. bytes ≡ literal.text.now };

    ghost completes = { λ literal. IsLive-text literal.text.now };

    fn step(self, byte: u8) -> Option<Literal> {
        if self.text.len() > 0 && self.text[0] == byte {
            Some(Literal {
                text: &self.text[1..],
            })
        } else {
            None
        }
    }

    fn is_whole(self) -> bool {
        self.text.len() == 0
    }
}

impl Closed for Literal {
    ghost use Rattle.hb_grammar.specs.TextLaws.{Refuses-text};

    ghost closed = { λ literal. Refuses-text literal.text.now };
}
