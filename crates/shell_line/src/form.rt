//! The parts of a line behind its arguments: timestamps, versions and splits.
ghost use Rattle.std.specs.Prelude.{◌≡◌};
ghost use Rattle.hb_grammar.specs.Grammar.{Same};
ghost use Rattle.shell_line.specs.Table.{IsCreateEnd, IsSplits, IsStamp, IsStampVersion, IsVersion, IsVersionCount, IsVersionStamp, IsVersions};

use crate::piece::{
    ItemGrammar, Lead, NumberEnd, Numeral, QuotedGrammar, item, lead, number_end, numeral, quoted,
};
use hb_grammar::{Either, Grammar, Literal, Then};
use shell_text::argument::ROW;
use shell_text::{Blanks, Padded, Repeated};

/// The greatest timestamp.
pub const MAX_STAMP: u64 = 9_223_372_036_854_775_807;
/// The greatest count of versions.
pub const MAX_VERSIONS: u64 = 2_147_483_647;

type StampParts = Either<Blanks, Then<Lead, Padded<NumberEnd>>>;

type VersionParts = Then<Lead, Then<Literal, Blanks>>;

type StampVersionParts = Either<
    Then<Numeral, VersionGrammar>,
    Then<Numeral, Then<Lead, VersionGrammar>>,
>;

type VersionStampParts = Either<StampGrammar, Then<Lead, Padded<StampVersion>>>;

type SplitsParts = Then<Lead, Then<Literal, Then<QuotedGrammar, Repeated<ItemGrammar, Blanks>>>>;

type VersionCountParts = Either<NumberEnd, Then<Numeral, SplitsGrammar>>;

type VersionsParts = Then<Lead, Then<Literal, Padded<VersionCount>>>;

type CreateEndParts = Either<Blanks, Either<VersionsGrammar, SplitsGrammar>>;

/// The end of a line, or a timestamp and the end.
fn stamp_parts() -> StampParts
    ensures { Same (⟦<StampParts as Grammar>⟧.spells result) (IsStamp) }
{
    let comma = lead(false, b',');
    let number = number_end(0, MAX_STAMP);
    let padded = Padded::new(number);
    let stamp = Then::new(comma, padded);
    Either::new(Blanks { some: false }, stamp)
}

/// The end of a line, or a timestamp and the end.
#[derive(Clone, Copy)]
pub(crate) struct StampGrammar {
    left: StampParts,
}

/// The end of a line, or a timestamp and the end.
pub(crate) fn stamp() -> StampGrammar
    ensures { Same (⟦<StampGrammar as Grammar>⟧.spells result) (IsStamp) }
{
    StampGrammar {
        left: stamp_parts(),
    }
}

impl Grammar for StampGrammar {
    ghost spells = { λ stamp. ⟦<StampParts as Grammar>⟧.spells stamp.left };

    ghost completes = { λ stamp. ⟦<StampParts as Grammar>⟧.completes stamp.left };

    fn step(self, byte: u8) -> Option<StampGrammar> {
        match self.left.step(byte) {
            Some(left) => Some(StampGrammar { left }),
            None => None,
        }
    }

    fn is_whole(self) -> bool {
        self.left.is_whole()
    }
}

/// `'version'`, and the end of a line.
fn version_parts() -> VersionParts
    ensures { Same (⟦<VersionParts as Grammar>⟧.spells result) (IsVersion) }
{
    let quote = lead(false, b'\'');
    let word = Then::new(Literal { text: b"version'" }, Blanks { some: false });
    Then::new(quote, word)
}

/// `'version'`, and the end of a line.
#[derive(Clone, Copy)]
pub(crate) struct VersionGrammar {
    left: VersionParts,
}

/// `'version'`, and the end of a line.
pub(crate) fn version() -> VersionGrammar
    ensures { Same (⟦<VersionGrammar as Grammar>⟧.spells result) (IsVersion) }
{
    VersionGrammar {
        left: version_parts(),
    }
}

impl Grammar for VersionGrammar {
    ghost spells = { λ version. ⟦<VersionParts as Grammar>⟧.spells version.left };

    ghost completes = { λ version. ⟦<VersionParts as Grammar>⟧.completes version.left };

    fn step(self, byte: u8) -> Option<VersionGrammar> {
        match self.left.step(byte) {
            Some(left) => Some(VersionGrammar { left }),
            None => None,
        }
    }

    fn is_whole(self) -> bool {
        self.left.is_whole()
    }
}

/// A timestamp, and `'version'` behind it.
fn stamp_version_parts() -> StampVersionParts
    ensures { Same (⟦<StampVersionParts as Grammar>⟧.spells result) (IsStampVersion) }
{
    let near_number = numeral(0, MAX_STAMP, b',');
    let near = Then::new(near_number, version());
    let far_number = numeral(0, MAX_STAMP, b' ');
    let comma = lead(false, b',');
    let far_word = Then::new(comma, version());
    let far = Then::new(far_number, far_word);
    Either::new(near, far)
}

/// A timestamp, and `'version'` behind it.
#[derive(Clone, Copy)]
pub(crate) struct StampVersion {
    left: StampVersionParts,
}

/// A timestamp, and `'version'` behind it.
pub(crate) fn stamp_version() -> StampVersion
    ensures { Same (⟦<StampVersion as Grammar>⟧.spells result) (IsStampVersion) }
{
    StampVersion {
        left: stamp_version_parts(),
    }
}

impl Grammar for StampVersion {
    ghost spells = { λ stamp. ⟦<StampVersionParts as Grammar>⟧.spells stamp.left };

    ghost completes = { λ stamp. ⟦<StampVersionParts as Grammar>⟧.completes stamp.left };

    fn step(self, byte: u8) -> Option<StampVersion> {
        match self.left.step(byte) {
            Some(left) => Some(StampVersion { left }),
            None => None,
        }
    }

    fn is_whole(self) -> bool {
        self.left.is_whole()
    }
}

/// The end of a line, or a timestamp, with `'version'` behind it or not.
fn version_stamp_parts() -> VersionStampParts
    ensures { Same (⟦<VersionStampParts as Grammar>⟧.spells result) (IsVersionStamp) }
{
    let comma = lead(false, b',');
    let number = stamp_version();
    let padded = Padded::new(number);
    let versioned = Then::new(comma, padded);
    Either::new(stamp(), versioned)
}

/// The end of a line, or a timestamp, with `'version'` behind it or not.
#[derive(Clone, Copy)]
pub(crate) struct VersionStamp {
    left: VersionStampParts,
}

/// The end of a line, or a timestamp, with `'version'` behind it or not.
pub(crate) fn version_stamp() -> VersionStamp
    ensures { Same (⟦<VersionStamp as Grammar>⟧.spells result) (IsVersionStamp) }
{
    VersionStamp {
        left: version_stamp_parts(),
    }
}

impl Grammar for VersionStamp {
    ghost spells = { λ stamp. ⟦<VersionStampParts as Grammar>⟧.spells stamp.left };

    ghost completes = { λ stamp. ⟦<VersionStampParts as Grammar>⟧.completes stamp.left };

    fn step(self, byte: u8) -> Option<VersionStamp> {
        match self.left.step(byte) {
            Some(left) => Some(VersionStamp { left }),
            None => None,
        }
    }

    fn is_whole(self) -> bool {
        self.left.is_whole()
    }
}

/// The word splits, and its rows.
fn splits_parts(some: bool) -> SplitsParts
    ensures { Same (⟦<SplitsParts as Grammar>⟧.spells result) (IsSplits some) }
{
    let front = lead(some, b's');
    let further = item(ROW);
    let rows = Repeated::new(further, Blanks { some: false }, 998);
    let first = quoted(true, ROW);
    let list = Then::new(first, rows);
    let word = Then::new(Literal { text: b"plits" }, list);
    Then::new(front, word)
}

/// The word splits, and its rows.
#[derive(Clone, Copy)]
pub(crate) struct SplitsGrammar {
    left: SplitsParts,
}

/// The word splits, and its rows.
pub(crate) fn splits(some: bool) -> SplitsGrammar
    ensures { Same (⟦<SplitsGrammar as Grammar>⟧.spells result) (IsSplits some) }
{
    SplitsGrammar {
        left: splits_parts(some),
    }
}

impl Grammar for SplitsGrammar {
    ghost spells = { λ splits. ⟦<SplitsParts as Grammar>⟧.spells splits.left };

    ghost completes = { λ splits. ⟦<SplitsParts as Grammar>⟧.completes splits.left };

    fn step(self, byte: u8) -> Option<SplitsGrammar> {
        match self.left.step(byte) {
            Some(left) => Some(SplitsGrammar { left }),
            None => None,
        }
    }

    fn is_whole(self) -> bool {
        self.left.is_whole()
    }
}

/// A number of versions, and splits or none.
fn version_count_parts() -> VersionCountParts
    ensures { Same (⟦<VersionCountParts as Grammar>⟧.spells result) (IsVersionCount) }
{
    let alone = number_end(1, MAX_VERSIONS);
    let number = numeral(1, MAX_VERSIONS, b' ');
    let more = Then::new(number, splits(false));
    Either::new(alone, more)
}

/// A number of versions, and splits or none.
#[derive(Clone, Copy)]
pub(crate) struct VersionCount {
    left: VersionCountParts,
}

/// A number of versions, and splits or none.
pub(crate) fn version_count() -> VersionCount
    ensures { Same (⟦<VersionCount as Grammar>⟧.spells result) (IsVersionCount) }
{
    VersionCount {
        left: version_count_parts(),
    }
}

impl Grammar for VersionCount {
    ghost spells = { λ count. ⟦<VersionCountParts as Grammar>⟧.spells count.left };

    ghost completes = { λ count. ⟦<VersionCountParts as Grammar>⟧.completes count.left };

    fn step(self, byte: u8) -> Option<VersionCount> {
        match self.left.step(byte) {
            Some(left) => Some(VersionCount { left }),
            None => None,
        }
    }

    fn is_whole(self) -> bool {
        self.left.is_whole()
    }
}

/// The word versions, its number, and splits or none.
fn versions_parts() -> VersionsParts
    ensures { Same (⟦<VersionsParts as Grammar>⟧.spells result) (IsVersions) }
{
    let front = lead(true, b'v');
    let count = version_count();
    let padded = Padded::new(count);
    let word = Then::new(Literal { text: b"ersions " }, padded);
    Then::new(front, word)
}

/// The word versions, its number, and splits or none.
#[derive(Clone, Copy)]
pub(crate) struct VersionsGrammar {
    left: VersionsParts,
}

/// The word versions, its number, and splits or none.
pub(crate) fn versions() -> VersionsGrammar
    ensures { Same (⟦<VersionsGrammar as Grammar>⟧.spells result) (IsVersions) }
{
    VersionsGrammar {
        left: versions_parts(),
    }
}

impl Grammar for VersionsGrammar {
    ghost spells = { λ versions. ⟦<VersionsParts as Grammar>⟧.spells versions.left };

    ghost completes = { λ versions. ⟦<VersionsParts as Grammar>⟧.completes versions.left };

    fn step(self, byte: u8) -> Option<VersionsGrammar> {
        match self.left.step(byte) {
            Some(left) => Some(VersionsGrammar { left }),
            None => None,
        }
    }

    fn is_whole(self) -> bool {
        self.left.is_whole()
    }
}

/// The end of a line that creates a table.
fn create_end_parts() -> CreateEndParts
    ensures { Same (⟦<CreateEndParts as Grammar>⟧.spells result) (IsCreateEnd) }
{
    let words = Either::new(versions(), splits(true));
    Either::new(Blanks { some: false }, words)
}

/// The end of a line that creates a table.
#[derive(Clone, Copy)]
pub(crate) struct CreateEnd {
    left: CreateEndParts,
}

/// The end of a line that creates a table.
pub(crate) fn create_end() -> CreateEnd
    ensures { Same (⟦<CreateEnd as Grammar>⟧.spells result) (IsCreateEnd) }
{
    CreateEnd {
        left: create_end_parts(),
    }
}

impl Grammar for CreateEnd {
    ghost spells = { λ end. ⟦<CreateEndParts as Grammar>⟧.spells end.left };

    ghost completes = { λ end. ⟦<CreateEndParts as Grammar>⟧.completes end.left };

    fn step(self, byte: u8) -> Option<CreateEnd> {
        match self.left.step(byte) {
            Some(left) => Some(CreateEnd { left }),
            None => None,
        }
    }

    fn is_whole(self) -> bool {
        self.left.is_whole()
    }
}
