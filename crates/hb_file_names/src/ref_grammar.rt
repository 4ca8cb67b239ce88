//! The grammar of a reference's name.

ghost use Rattle.hb_grammar.specs.Grammar.{Same};
ghost use Rattle.hb_file_names.specs.RefName.{IsRefName};

use crate::half_grammar::{HalfGrammar, half_grammar};
use hb_grammar::{Either, Exactly, Grammar, Then, Until};
use hb_names::encoded::encoded_grammar;
use hb_names::qualifier::{QualifierGrammar, qualifier_grammar};

type Parts = Either<HalfGrammar, Then<Until<QualifierGrammar>, Then<Until<Exactly>, HalfGrammar>>>;

/// A file name or a link's name, a dot and an encoded region.
#[derive(Clone, Copy)]
pub struct RefGrammar {
    left: Parts,
}

fn reference_parts() -> Parts
    ensures { Same (⟦<Parts as Grammar>⟧.spells result) IsRefName }
{
    let table = Until::new(qualifier_grammar(), b'=');
    let region = Until::new(encoded_grammar(), b'-');
    let rest = Then::new(region, half_grammar());
    let link = Then::new(table, rest);
    Either::new(half_grammar(), link)
}

/// The grammar of a reference's name, before its first byte.
pub fn reference_grammar() -> RefGrammar
    ensures { Same (⟦<RefGrammar as Grammar>⟧.spells result) IsRefName }
{
    RefGrammar {
        left: reference_parts(),
    }
}

impl Grammar for RefGrammar {
    ghost spells = { λ reference. ⟦<Parts as Grammar>⟧.spells reference.left };

    ghost completes = { λ reference. ⟦<Parts as Grammar>⟧.completes reference.left };

    fn step(self, byte: u8) -> Option<RefGrammar> {
        match self.left.step(byte) {
            Some(left) => Some(RefGrammar { left }),
            None => None,
        }
    }

    fn is_whole(self) -> bool {
        self.left.is_whole()
    }
}
