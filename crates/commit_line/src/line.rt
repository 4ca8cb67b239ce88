//! Words and numbers of lines, read off a place of a file.

ghost use Rattle.std.specs.Prelude.{◌≡◌, ◌≤◌, ◌++◌, length};
ghost use Rattle.std.specs.Fmt.{decimal};
ghost use Rattle.hb_grammar.specs.Grammar.{Same};
ghost use Rattle.hb_grammar.specs.TextOf.{IsTextOf};
ghost use Rattle.hb_grammar.specs.Marked.{Avoids};
ghost use Rattle.commit_line.specs.Line.{ended, IsNumber};
ghost use Rattle.commit_line.specs.ListError.{IsWordEnd, IsFound};
ghost use Rattle.commit_line.specs.Numbered.{IsNumberChecked};

use crate::error::BadText;
use hb_grammar::{Between, Grammar, Literal, Then, Until, number_of, split_front, split_marked};

/// The place behind the string of a grammar that stands at a place, and behind the mark that ends it.
pub fn word_end<G: Grammar>(grammar: G, mark: u8, bytes: &[u8], at: usize) -> Result<usize, BadText>
    requires avoids { Avoids (G.spells grammar) mark }
    requires within { at ≤ length bytes.now }
    ensures { IsWordEnd (G.spells grammar) mark bytes.now at result }
{
    match split_marked(grammar, mark, &bytes[at..]) {
        Ok((word, _)) => Ok(at + word.len() + 1),
        Err(fault) => Err(BadText((at + fault.0) as u64)),
    }
}

type NumberLine = Then<Literal, Until<Between>>;

/// The grammar of a text, a number from `low` to `max` and a line feed.
fn number_grammar(text: &'static [u8], low: u64, max: u64) -> NumberLine
    requires { low ≤ max }
    ensures { Same (⟦<NumberLine as Grammar>⟧.spells result) (IsTextOf (IsNumber low max) (λ number. text.now ++ ended (decimal number))) }
{
    let number = Until::new(Between::new(low, max), b'\n');
    Then::new(Literal { text }, number)
}

/// The number between a text and a line feed.
fn number_between(text: &[u8], line: &[u8]) -> u64
    requires { IsTextOf (IsNumber 0 18_446_744_073_709_551_615) (λ number. text.now ++ ended (decimal number)) line.now }
    ensures { line.now ≡ text.now ++ ended (decimal result) }
{
    number_of(&line[text.len()..line.len() - 1])
}

/// The number from `low` to `max` at a place, behind a text and before a line feed, and the place behind that.
pub fn read_number(
    text: &'static [u8],
    low: u64,
    max: u64,
    bytes: &[u8],
    at: usize,
) -> Result<(u64, usize), BadText>
    requires ordered { low ≤ max }
    requires within { at ≤ length bytes.now }
    ensures { IsFound (IsNumber low max) (λ number. text.now ++ ended (decimal number)) bytes.now at result }
{
    match split_front(number_grammar(text, low, max), &bytes[at..]) {
        Ok((line, _)) => Ok((number_between(text, line), at + line.len())),
        Err(fault) => Err(BadText((at + fault.0) as u64)),
    }
}

/// The greatest number of a list or set.
pub const MAX_NUMBER: u64 = 9_223_372_036_854_775_807;

/// Refuses bytes that begin with a text, another number than this and a line feed, at place 0.
pub fn check_number(text: &'static [u8], number: u64, bytes: &[u8]) -> Result<(), BadText>
    ensures { IsNumberChecked text.now number bytes.now result }
{
    match read_number(text, 1, MAX_NUMBER, bytes, 0) {
        Ok((other, _)) => {
            if other == number {
                Ok(())
            } else {
                Err(BadText(0))
            }
        }
        Err(_) => Ok(()),
    }
}
