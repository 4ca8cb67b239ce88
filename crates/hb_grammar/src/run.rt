//! A run of bytes of a class.

ghost use Rattle.std.specs.Prelude.{◌≤◌};
ghost use Rattle.hb_grammar.specs.Grammar.{Same};
ghost use Rattle.hb_grammar.specs.Run.{IsRun};

use crate::class::Class;
use crate::grammar::Grammar;

/// At least and at most so many bytes of a class.
#[derive(Clone, Copy)]
pub struct Run {
    class: Class,
    least: usize,
    most: usize,
    ghost ordered: { least ≤ most },
}

impl Run {
    /// At least `least` and at most `most` bytes of a class.
    #[tactic(auto, using(crate::proofs::SameLemmas::Same_refl))]
    pub fn new(class: Class, least: usize, most: usize) -> Run
        requires { least ≤ most }
        ensures { Same (⟦<Run as Grammar>⟧.spells result) (IsRun class least most) }
    {
        Run { class, least, most }
    }
}

impl Grammar for Run {
    ghost use Rattle.hb_grammar.specs.RunLaws.{IsLive-IsRun};

    ghost spells = { λ run. IsRun run.class run.least run.most };

    ghost completes = { λ run. IsLive-IsRun run.class run.least run.most run.ordered };

    fn step(self, byte: u8) -> Option<Run> {
        if self.most > 0 && self.class.has(byte) {
            Some(Run {
                class: self.class,
                least: self.least.saturating_sub(1),
                most: self.most - 1,
            })
        } else {
            None
        }
    }

    fn is_whole(self) -> bool {
        self.least == 0
    }
}
