//! The arguments of each kind of line.
ghost use Rattle.std.specs.Prelude.{◌≡◌};
ghost use Rattle.hb_grammar.specs.Grammar.{Same};
ghost use Rattle.hb_grammar.specs.Joined.{Joined};
ghost use Rattle.shell_line.specs.Table.{IsCreate, IsDelete, IsDeleted, IsItem, IsOne, IsPut, IsStamp, IsTwo, cell_value};

use crate::form::{CreateEnd, StampGrammar, VersionStamp, create_end, stamp, version_stamp};
use crate::piece::{ItemGrammar, QuotedGrammar, item, quoted};
use hb_grammar::{Either, Grammar, Then};
use shell_text::argument::{Argument, FAMILY, NAME, ROW, VALUE};
use shell_text::{Blanks, Repeated};

pub(crate) type One = Then<QuotedGrammar, Blanks>;

pub(crate) type Two = Then<QuotedGrammar, Then<ItemGrammar, Blanks>>;

type ValueParts = Then<ItemGrammar, StampGrammar>;

pub(crate) type PutParts = Then<QuotedGrammar, Then<ItemGrammar, Then<ItemGrammar, PutValue>>>;

type DeletedParts = Either<Then<ItemGrammar, VersionStamp>, Then<ItemGrammar, StampGrammar>>;

pub(crate) type Delete = Then<QuotedGrammar, Then<ItemGrammar, DeletedGrammar>>;

pub(crate) type Create = Then<QuotedGrammar, Then<ItemGrammar, Repeated<ItemGrammar, CreateEnd>>>;

/// One argument.
pub(crate) fn one(argument: Argument) -> One
    ensures { Same (⟦<One as Grammar>⟧.spells result) (IsOne argument) }
{
    let first = quoted(true, argument);
    Then::new(first, Blanks { some: false })
}

/// Two arguments.
pub(crate) fn two(first: Argument, second: Argument) -> Two
    ensures { Same (⟦<Two as Grammar>⟧.spells result) (IsTwo first second) }
{
    let front = quoted(true, first);
    let back = item(second);
    let rest = Then::new(back, Blanks { some: false });
    Then::new(front, rest)
}

/// A value, and a timestamp or none.
fn put_value_parts() -> ValueParts
    ensures { Same (⟦<ValueParts as Grammar>⟧.spells result) (Joined (IsItem cell_value) IsStamp) }
{
    let value = item(VALUE);
    Then::new(value, stamp())
}

/// A value, and a timestamp or none.
#[derive(Clone, Copy)]
pub(crate) struct PutValue {
    left: ValueParts,
}

/// A value, and a timestamp or none.
pub(crate) fn put_value() -> PutValue
    ensures { Same (⟦<PutValue as Grammar>⟧.spells result) (Joined (IsItem cell_value) IsStamp) }
{
    PutValue {
        left: put_value_parts(),
    }
}

impl Grammar for PutValue {
    ghost spells = { λ value. ⟦<ValueParts as Grammar>⟧.spells value.left };

    ghost completes = { λ value. ⟦<ValueParts as Grammar>⟧.completes value.left };

    fn step(self, byte: u8) -> Option<PutValue> {
        match self.left.step(byte) {
            Some(left) => Some(PutValue { left }),
            None => None,
        }
    }

    fn is_whole(self) -> bool {
        self.left.is_whole()
    }
}

/// What a line puts.
pub(crate) fn put() -> PutParts
    ensures { Same (⟦<PutParts as Grammar>⟧.spells result) (IsPut) }
{
    let table = quoted(true, NAME);
    let row = item(ROW);
    let column = item(Argument::Column);
    let cell = Then::new(column, put_value());
    let rest = Then::new(row, cell);
    Then::new(table, rest)
}

/// What of a row is deleted.
fn deleted_parts() -> DeletedParts
    ensures { Same (⟦<DeletedParts as Grammar>⟧.spells result) (IsDeleted) }
{
    let column = item(Argument::Column);
    let of_column = Then::new(column, version_stamp());
    let family = item(FAMILY);
    let of_family = Then::new(family, stamp());
    Either::new(of_column, of_family)
}

/// What of a row is deleted.
#[derive(Clone, Copy)]
pub(crate) struct DeletedGrammar {
    left: DeletedParts,
}

/// What of a row is deleted.
pub(crate) fn deleted() -> DeletedGrammar
    ensures { Same (⟦<DeletedGrammar as Grammar>⟧.spells result) (IsDeleted) }
{
    DeletedGrammar {
        left: deleted_parts(),
    }
}

impl Grammar for DeletedGrammar {
    ghost spells = { λ deleted. ⟦<DeletedParts as Grammar>⟧.spells deleted.left };

    ghost completes = { λ deleted. ⟦<DeletedParts as Grammar>⟧.completes deleted.left };

    fn step(self, byte: u8) -> Option<DeletedGrammar> {
        match self.left.step(byte) {
            Some(left) => Some(DeletedGrammar { left }),
            None => None,
        }
    }

    fn is_whole(self) -> bool {
        self.left.is_whole()
    }
}

/// What a line deletes.
pub(crate) fn delete() -> Delete
    ensures { Same (⟦<Delete as Grammar>⟧.spells result) (IsDelete) }
{
    let table = quoted(true, NAME);
    let row = item(ROW);
    let rest = Then::new(row, deleted());
    Then::new(table, rest)
}

/// What a line creates.
pub(crate) fn create() -> Create
    ensures { Same (⟦<Create as Grammar>⟧.spells result) (IsCreate) }
{
    let table = quoted(true, NAME);
    let first = item(FAMILY);
    let further = item(FAMILY);
    let end = create_end();
    let families = Repeated::new(further, end, 15);
    let rest = Then::new(first, families);
    Then::new(table, rest)
}
