//! The pieces of a line: arguments in quotes, and numbers.
ghost use Rattle.std.specs.Prelude.{◌≡◌, ◌≤◌, false};
ghost use Rattle.hb_grammar.specs.Class.{is_digit};
ghost use Rattle.hb_grammar.specs.Grammar.{Same};
ghost use Rattle.hb_grammar.specs.Marked.{Marked};
ghost use Rattle.hb_grammar.specs.Numeral.{IsNumeral};
ghost use Rattle.shell_text.specs.Text.{IsText};
ghost use Rattle.shell_line.specs.Table.{IsItem, IsLead, IsNumberEnd, IsQuoted};

use hb_grammar::{Between, Closed, Either, Grammar, Then, Until};
use shell_text::{Argument, Blanks, Text};

pub(crate) type Lead = Until<Blanks>;

type QuotedText = Until<Text>;

pub(crate) type Numeral = Until<Between>;

type QuotedParts = Then<Lead, QuotedText>;

type ItemParts = Then<Lead, QuotedGrammar>;

type NumberEndParts = Either<Between, Then<Numeral, Blanks>>;

/// Blanks, and the mark behind them.
pub(crate) fn lead(some: bool, mark: u8) -> Lead
    requires { mark ≡ 32 → ⊥ }
    ensures { Same (⟦<Lead as Grammar>⟧.spells result) (IsLead some mark) }
{
    Until::new(Blanks { some }, mark)
}

/// The text of an argument, and the quote that ends it.
fn quoted_text(argument: Argument) -> QuotedText
    ensures { Same (⟦<QuotedText as Grammar>⟧.spells result) (Marked (IsText argument) 39) }
{
    let text = Text::new(argument);
    Until::new(text, b'\'')
}

/// An argument behind blanks, in its quotes.
fn quoted_parts(some: bool, argument: Argument) -> QuotedParts
    ensures { Same (⟦<QuotedParts as Grammar>⟧.spells result) (IsQuoted some argument) }
{
    let front = lead(some, b'\'');
    let text = quoted_text(argument);
    Then::new(front, text)
}

/// An argument behind blanks, in its quotes.
#[derive(Clone, Copy)]
pub(crate) struct QuotedGrammar {
    left: QuotedParts,
}

/// An argument behind blanks, in its quotes.
pub(crate) fn quoted(some: bool, argument: Argument) -> QuotedGrammar
    ensures { Same (⟦<QuotedGrammar as Grammar>⟧.spells result) (IsQuoted some argument) }
{
    QuotedGrammar {
        left: quoted_parts(some, argument),
    }
}

impl Grammar for QuotedGrammar {
    ghost spells = { λ quoted. ⟦<QuotedParts as Grammar>⟧.spells quoted.left };

    ghost completes = { λ quoted. ⟦<QuotedParts as Grammar>⟧.completes quoted.left };

    fn step(self, byte: u8) -> Option<QuotedGrammar> {
        match self.left.step(byte) {
            Some(left) => Some(QuotedGrammar { left }),
            None => None,
        }
    }

    fn is_whole(self) -> bool {
        self.left.is_whole()
    }
}

impl Closed for QuotedGrammar {
    ghost use Rattle.hb_grammar.specs.JoinedLaws.{Refuses-LeftOf};
    ghost use Rattle.hb_grammar.specs.MarkedLaws.{Refuses-UntilMark};

    ghost closed = { λ quoted. Refuses-LeftOf ⟦<Lead as Grammar>⟧.spells ⟦<QuotedText as Grammar>⟧.spells
        (λ lead. Refuses-UntilMark ⟦<Blanks as Grammar>⟧.spells lead.inner lead.mark) (λ text. Refuses-UntilMark ⟦<Text as Grammar>⟧.spells text.inner text.mark)
        quoted.left.first quoted.left.second };
}

/// A further argument, behind its comma.
fn item_parts(argument: Argument) -> ItemParts
    ensures { Same (⟦<ItemParts as Grammar>⟧.spells result) (IsItem argument) }
{
    let comma = lead(false, b',');
    let text = quoted(false, argument);
    Then::new(comma, text)
}

/// A further argument, behind its comma.
#[derive(Clone, Copy)]
pub(crate) struct ItemGrammar {
    left: ItemParts,
}

/// A further argument, behind its comma.
pub(crate) fn item(argument: Argument) -> ItemGrammar
    ensures { Same (⟦<ItemGrammar as Grammar>⟧.spells result) (IsItem argument) }
{
    ItemGrammar {
        left: item_parts(argument),
    }
}

impl Grammar for ItemGrammar {
    ghost spells = { λ item. ⟦<ItemParts as Grammar>⟧.spells item.left };

    ghost completes = { λ item. ⟦<ItemParts as Grammar>⟧.completes item.left };

    fn step(self, byte: u8) -> Option<ItemGrammar> {
        match self.left.step(byte) {
            Some(left) => Some(ItemGrammar { left }),
            None => None,
        }
    }

    fn is_whole(self) -> bool {
        self.left.is_whole()
    }
}

impl Closed for ItemGrammar {
    ghost use Rattle.hb_grammar.specs.JoinedLaws.{Refuses-LeftOf};
    ghost use Rattle.hb_grammar.specs.MarkedLaws.{Refuses-UntilMark};

    ghost closed = { λ item. Refuses-LeftOf ⟦<Lead as Grammar>⟧.spells ⟦<QuotedGrammar as Grammar>⟧.spells
        (λ lead. Refuses-UntilMark ⟦<Blanks as Grammar>⟧.spells lead.inner lead.mark)
        (λ quoted. Refuses-LeftOf ⟦<Lead as Grammar>⟧.spells ⟦<QuotedText as Grammar>⟧.spells
        (λ lead. Refuses-UntilMark ⟦<Blanks as Grammar>⟧.spells lead.inner lead.mark) (λ text. Refuses-UntilMark ⟦<Text as Grammar>⟧.spells text.inner text.mark)
        quoted.left.first quoted.left.second) item.left.first item.left.second };
}

/// A number, and the mark behind it.
pub(crate) fn numeral(low: u64, max: u64, mark: u8) -> Numeral
    requires order { low ≤ max }
    requires digit { is_digit mark ≡ false }
    ensures { Same (⟦<Numeral as Grammar>⟧.spells result) (Marked (IsNumeral low max) mark) }
{
    let number = Between::new(low, max);
    Until::new(number, mark)
}

/// A number at the end of a line.
fn number_end_parts(low: u64, max: u64) -> NumberEndParts
    requires { low ≤ max }
    ensures { Same (⟦<NumberEndParts as Grammar>⟧.spells result) (IsNumberEnd low max) }
{
    let alone = Between::new(low, max);
    let number = numeral(low, max, b' ');
    let padded = Then::new(number, Blanks { some: false });
    Either::new(alone, padded)
}

/// A number at the end of a line.
#[derive(Clone, Copy)]
pub(crate) struct NumberEnd {
    left: NumberEndParts,
}

/// A number at the end of a line.
pub(crate) fn number_end(low: u64, max: u64) -> NumberEnd
    requires { low ≤ max }
    ensures { Same (⟦<NumberEnd as Grammar>⟧.spells result) (IsNumberEnd low max) }
{
    NumberEnd {
        left: number_end_parts(low, max),
    }
}

impl Grammar for NumberEnd {
    ghost spells = { λ number. ⟦<NumberEndParts as Grammar>⟧.spells number.left };

    ghost completes = { λ number. ⟦<NumberEndParts as Grammar>⟧.completes number.left };

    fn step(self, byte: u8) -> Option<NumberEnd> {
        match self.left.step(byte) {
            Some(left) => Some(NumberEnd { left }),
            None => None,
        }
    }

    fn is_whole(self) -> bool {
        self.left.is_whole()
    }
}
