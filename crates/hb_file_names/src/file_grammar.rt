//! The grammar of a file name.

ghost use Rattle.hb_grammar.specs.Grammar.{Same};
ghost use Rattle.hb_file_names.specs.FileName.{IsFileName};

use crate::suffix::{SuffixGrammar, suffix_grammar};
use hb_grammar::{Class, Exactly, Grammar, Then};

type Parts = Then<Exactly, Then<Exactly, SuffixGrammar>>;

/// 32 lower-case hexadecimal digits and a suffix.
#[derive(Clone, Copy)]
pub struct FileGrammar {
    left: Parts,
}

fn file_parts() -> Parts
    ensures { Same (⟦<Parts as Grammar>⟧.spells result) IsFileName }
{
    let digits = Exactly {
        class: Class::LowerHex,
        count: 16,
    };
    let rest = Then::new(digits, suffix_grammar());
    Then::new(digits, rest)
}

/// The grammar of a file name, before its first byte.
pub fn file_grammar() -> FileGrammar
    ensures { Same (⟦<FileGrammar as Grammar>⟧.spells result) IsFileName }
{
    FileGrammar { left: file_parts() }
}

impl Grammar for FileGrammar {
    ghost spells = { λ file. ⟦<Parts as Grammar>⟧.spells file.left };

    ghost completes = { λ file. ⟦<Parts as Grammar>⟧.completes file.left };

    fn step(self, byte: u8) -> Option<FileGrammar> {
        match self.left.step(byte) {
            Some(left) => Some(FileGrammar { left }),
            None => None,
        }
    }

    fn is_whole(self) -> bool {
        self.left.is_whole()
    }
}
