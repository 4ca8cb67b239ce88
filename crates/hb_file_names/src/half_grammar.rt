//! The grammar of a file name and a region that was split.

ghost use Rattle.hb_grammar.specs.Grammar.{Same};
ghost use Rattle.hb_file_names.specs.HalfName.{IsHalfName};

use crate::file_grammar::{FileGrammar, file_grammar};
use hb_grammar::{Exactly, Grammar, Then, Until};
use hb_names::encoded::encoded_grammar;

type Parts = Then<Until<FileGrammar>, Exactly>;

/// A file name, a dot and an encoded region.
#[derive(Clone, Copy)]
pub struct HalfGrammar {
    left: Parts,
}

fn half_parts() -> Parts
    ensures { Same (⟦<Parts as Grammar>⟧.spells result) IsHalfName }
{
    let file = Until::new(file_grammar(), b'.');
    Then::new(file, encoded_grammar())
}

/// The grammar of a file name and a region that was split, before its first byte.
pub fn half_grammar() -> HalfGrammar
    ensures { Same (⟦<HalfGrammar as Grammar>⟧.spells result) IsHalfName }
{
    HalfGrammar { left: half_parts() }
}

impl Grammar for HalfGrammar {
    ghost spells = { λ half. ⟦<Parts as Grammar>⟧.spells half.left };

    ghost completes = { λ half. ⟦<Parts as Grammar>⟧.completes half.left };

    fn step(self, byte: u8) -> Option<HalfGrammar> {
        match self.left.step(byte) {
            Some(left) => Some(HalfGrammar { left }),
            None => None,
        }
    }

    fn is_whole(self) -> bool {
        self.left.is_whole()
    }
}
