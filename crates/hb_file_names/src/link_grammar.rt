//! The grammar of a link's name.

ghost use Rattle.hb_grammar.specs.Grammar.{Same};
ghost use Rattle.hb_file_names.specs.LinkName.{IsLinkName};

use crate::file_grammar::{FileGrammar, file_grammar};
use hb_grammar::{Exactly, Grammar, Then, Until};
use hb_names::encoded::encoded_grammar;
use hb_names::qualifier::{QualifierGrammar, qualifier_grammar};

type Parts = Then<Until<QualifierGrammar>, Then<Until<Exactly>, FileGrammar>>;

/// A table's name, `=`, an encoded region, `-` and a file name.
#[derive(Clone, Copy)]
pub struct LinkGrammar {
    left: Parts,
}

fn link_parts() -> Parts
    ensures { Same (⟦<Parts as Grammar>⟧.spells result) IsLinkName }
{
    let table = Until::new(qualifier_grammar(), b'=');
    let region = Until::new(encoded_grammar(), b'-');
    let rest = Then::new(region, file_grammar());
    Then::new(table, rest)
}

/// The grammar of a link's name, before its first byte.
pub fn link_grammar() -> LinkGrammar
    ensures { Same (⟦<LinkGrammar as Grammar>⟧.spells result) IsLinkName }
{
    LinkGrammar { left: link_parts() }
}

impl Grammar for LinkGrammar {
    ghost spells = { λ link. ⟦<Parts as Grammar>⟧.spells link.left };

    ghost completes = { λ link. ⟦<Parts as Grammar>⟧.completes link.left };

    fn step(self, byte: u8) -> Option<LinkGrammar> {
        match self.left.step(byte) {
            Some(left) => Some(LinkGrammar { left }),
            None => None,
        }
    }

    fn is_whole(self) -> bool {
        self.left.is_whole()
    }
}
