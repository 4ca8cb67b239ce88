//! States of tables.

ghost use Rattle.std.specs.Prelude.{◌≡◌, ◌≤◌, length, IsTrue, ◌↔◌};
ghost use Rattle.hb_grammar.specs.Grammar.{Same};
ghost use Rattle.hb_grammar.specs.TextOf.{IsTextOf};
ghost use Rattle.commit_line.specs.Line.{ended};
ghost use Rattle.commit_line.specs.ListError.{IsFound};
ghost use Rattle.region_set.specs.declared.set_state.SetState.TheVariants.{Dropped};
ghost use Rattle.region_set.specs.SetState.{IsState, state_word};

use commit_line::{BadText, word_end};
use hb_grammar::{Either, Grammar, Literal};
use hb_wire::{Copied, NoMemory};

/// The state of a table that a region set tells.
#[derive(Clone, Copy, Debug, PartialEq, Eq)]
pub enum SetState {
    Enabled,
    Disabled,
    /// The table is no more; its set has neither families nor regions.
    Dropped,
}

type StateGrammar = Either<Literal, Either<Literal, Literal>>;

/// The grammar of a state's word.
fn state_grammar() -> StateGrammar
    ensures { Same (⟦<StateGrammar as Grammar>⟧.spells result) (IsTextOf IsState state_word) }
{
    let others = Either::new(Literal { text: b"disabled" }, Literal { text: b"dropped" });
    Either::new(Literal { text: b"enabled" }, others)
}

impl SetState {
    /// The word of the state.
    pub(crate) fn word(self) -> &'static [u8]
        ensures { result.now ≡ state_word self }
    {
        match self {
            SetState::Enabled => b"enabled",
            SetState::Disabled => b"disabled",
            SetState::Dropped => b"dropped",
        }
    }

    /// Whether the table is dropped.
    pub fn is_dropped(self) -> bool
        ensures { IsTrue result ↔ (self ≡ Dropped) }
    {
        match self {
            SetState::Enabled => false,
            SetState::Disabled => false,
            SetState::Dropped => true,
        }
    }

    /// The state whose word this is.
    fn of_word(word: &[u8]) -> SetState
        requires { IsTextOf IsState state_word word.now }
        ensures { state_word result ≡ word.now }
    {
        if word[0] == b'e' {
            SetState::Enabled
        } else if word[1] == b'i' {
            SetState::Disabled
        } else {
            SetState::Dropped
        }
    }
}

impl Copied for SetState {
    fn copy(&self) -> Result<SetState, NoMemory> {
        Ok(*self)
    }
}

/// The state whose word stands at a place, with a line feed behind it, and the place behind that.
pub(crate) fn read_state(bytes: &[u8], at: usize) -> Result<(SetState, usize), BadText>
    requires { at ≤ length bytes.now }
    ensures { IsFound IsState (λ state. ended (state_word state)) bytes.now at result }
{
    let end = word_end(state_grammar(), b'\n', bytes, at)?;
    Ok((SetState::of_word(&bytes[at..end - 1]), end))
}
