//! Blanks between the words of a line.
ghost use Rattle.shell_text.specs.Blanks.{BlanksFrom};

use hb_grammar::Grammar;

/// Blanks, and at least one where some are wanted.
#[derive(Clone, Copy)]
pub struct Blanks {
    pub some: bool,
}

impl Grammar for Blanks {
    ghost use Rattle.shell_text.specs.Blanks.{IsLive-BlanksFrom};

    ghost spells = { λ blanks. BlanksFrom blanks.some };

    ghost completes = { λ blanks. IsLive-BlanksFrom blanks.some };

    fn step(self, byte: u8) -> Option<Blanks> {
        if byte == b' ' {
            Some(Blanks { some: false })
        } else {
            None
        }
    }

    fn is_whole(self) -> bool {
        !self.some
    }
}
