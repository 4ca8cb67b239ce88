//! The grammar that the names of tables and snapshots share.

ghost use Rattle.hb_grammar.specs.Grammar.{Same};
ghost use Rattle.hb_names.specs.Qualifier.{IsQualifier};

use hb_grammar::{Class, Exactly, Grammar, Run, Then};

type QualifierParts = Then<Exactly, Run>;

/// 1 to 100 letters, digits and `_ - .`, of which the first is neither `-` nor `.`.
#[derive(Clone, Copy)]
pub struct QualifierGrammar {
    left: QualifierParts,
}

fn qualifier_parts() -> QualifierParts
    ensures { Same (⟦<QualifierParts as Grammar>⟧.spells result) IsQualifier }
{
    Then::new(
        Exactly {
            class: Class::NameStart,
            count: 1,
        },
        Run::new(Class::Name, 0, 99),
    )
}

/// The grammar of a qualifier, before its first byte.
pub fn qualifier_grammar() -> QualifierGrammar
    ensures { Same (⟦<QualifierGrammar as Grammar>⟧.spells result) IsQualifier }
{
    QualifierGrammar {
        left: qualifier_parts(),
    }
}

impl Grammar for QualifierGrammar {
    ghost spells = { λ qualifier. ⟦<QualifierParts as Grammar>⟧.spells qualifier.left };

    ghost completes = { λ qualifier. ⟦<QualifierParts as Grammar>⟧.completes qualifier.left };

    fn step(self, byte: u8) -> Option<QualifierGrammar> {
        match self.left.step(byte) {
            Some(left) => Some(QualifierGrammar { left }),
            None => None,
        }
    }

    fn is_whole(self) -> bool {
        self.left.is_whole()
    }
}
