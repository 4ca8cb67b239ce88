//! The grammar of a back reference.

ghost use Rattle.hb_grammar.specs.Grammar.{Same};
ghost use Rattle.hb_file_names.specs.BackRef.{IsBackRef};

use hb_grammar::{Exactly, Grammar, Then, Until};
use hb_names::encoded::encoded_grammar;
use hb_names::qualifier::{QualifierGrammar, qualifier_grammar};

type Parts = Then<Until<Exactly>, QualifierGrammar>;

/// An encoded region, a dot and a table's name.
#[derive(Clone, Copy)]
pub struct BackGrammar {
    left: Parts,
}

fn back_parts() -> Parts
    ensures { Same (⟦<Parts as Grammar>⟧.spells result) IsBackRef }
{
    let region = Until::new(encoded_grammar(), b'.');
    Then::new(region, qualifier_grammar())
}

/// The grammar of a back reference, before its first byte.
pub fn back_grammar() -> BackGrammar
    ensures { Same (⟦<BackGrammar as Grammar>⟧.spells result) IsBackRef }
{
    BackGrammar { left: back_parts() }
}

impl Grammar for BackGrammar {
    ghost spells = { λ back. ⟦<Parts as Grammar>⟧.spells back.left };

    ghost completes = { λ back. ⟦<Parts as Grammar>⟧.completes back.left };

    fn step(self, byte: u8) -> Option<BackGrammar> {
        match self.left.step(byte) {
            Some(left) => Some(BackGrammar { left }),
            None => None,
        }
    }

    fn is_whole(self) -> bool {
        self.left.is_whole()
    }
}
