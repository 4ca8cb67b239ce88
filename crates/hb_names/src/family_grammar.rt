//! The grammar of a column family's name.

ghost use Rattle.hb_grammar.specs.Grammar.{Same};
ghost use Rattle.hb_names.specs.FamilyName.{IsFamilyName};

use hb_grammar::{Class, Exactly, Grammar, Run, Then};

type FamilyParts = Then<Exactly, Run>;

/// 1 to 127 letters, digits and `_ - .`, of which the first is not `.`.
#[derive(Clone, Copy)]
pub struct FamilyGrammar {
    left: FamilyParts,
}

fn family_parts() -> FamilyParts
    ensures { Same (⟦<FamilyParts as Grammar>⟧.spells result) IsFamilyName }
{
    Then::new(
        Exactly {
            class: Class::FamilyStart,
            count: 1,
        },
        Run::new(Class::Name, 0, 126),
    )
}

/// The grammar of a family's name, before its first byte.
pub fn family_grammar() -> FamilyGrammar
    ensures { Same (⟦<FamilyGrammar as Grammar>⟧.spells result) IsFamilyName }
{
    FamilyGrammar {
        left: family_parts(),
    }
}

impl Grammar for FamilyGrammar {
    ghost spells = { λ family. ⟦<FamilyParts as Grammar>⟧.spells family.left };

    ghost completes = { λ family. ⟦<FamilyParts as Grammar>⟧.completes family.left };

    fn step(self, byte: u8) -> Option<FamilyGrammar> {
        match self.left.step(byte) {
            Some(left) => Some(FamilyGrammar { left }),
            None => None,
        }
    }

    fn is_whole(self) -> bool {
        self.left.is_whole()
    }
}
