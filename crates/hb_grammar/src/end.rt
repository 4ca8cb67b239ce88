//! The end of the input.

ghost use Rattle.std.specs.Prelude.{◌≡◌, []};

use crate::grammar::Grammar;

/// No bytes.
#[derive(Clone, Copy)]
pub struct End;

impl Grammar for End {
    ghost use Rattle.hb_grammar.specs.TextLaws.{IsLive-text};

    ghost spells = { λ _ bytes. bytes ≡ [] };

    ghost completes = { λ _. IsLive-text [] };

    fn step(self, _byte: u8) -> Option<End> {
        None
    }

    fn is_whole(self) -> bool {
        true
    }
}
