//! So many bytes of a class.

ghost use Rattle.hb_grammar.specs.Run.{IsExactly};

use crate::class::Class;
use crate::grammar::{Closed, Grammar};

/// So many bytes of a class.
#[derive(Clone, Copy)]
pub struct Exactly {
    pub class: Class,
    pub count: usize,
}

impl Grammar for Exactly {
    ghost use Rattle.hb_grammar.specs.RunLaws.{IsLive-IsExactly};

    ghost spells = { λ exactly. IsExactly exactly.class exactly.count };

    ghost completes = { λ exactly. IsLive-IsExactly exactly.class exactly.count };

    fn step(self, byte: u8) -> Option<Exactly> {
        if self.count > 0 && self.class.has(byte) {
            Some(Exactly {
                class: self.class,
                count: self.count - 1,
            })
        } else {
            None
        }
    }

    fn is_whole(self) -> bool {
        self.count == 0
    }
}

impl Closed for Exactly {
    ghost use Rattle.hb_grammar.specs.RunLaws.{Refuses-IsExactly};

    ghost closed = { λ exactly. Refuses-IsExactly exactly.class exactly.count };
}
