//! The kinds of lines, their words, and what their arguments are.
ghost use Rattle.std.specs.Prelude.{◌≡◌};
ghost use Rattle.shell_line.specs.Line.{arguments, word};

use shell_text::argument::{Argument, NAME, ROW};

/// A kind of line. Source: the commands of the HBase shell.
#[derive(Clone, Copy, Debug, PartialEq, Eq)]
pub enum LineKind {
    Create,
    Put,
    Delete,
    Scan,
    Flush,
    Compact,
    MajorCompact,
    Disable,
    Enable,
    Drop,
    Split,
    Snapshot,
    ListSnapshots,
    DeleteSnapshot,
    CloneSnapshot,
    RestoreSnapshot,
    Bulkload,
    CatalogjanitorRun,
    CleanerChoreRun,
}

/// Every kind of line.
pub const LINE_KINDS: [LineKind; 19] = [
    LineKind::Create,
    LineKind::Put,
    LineKind::Delete,
    LineKind::Scan,
    LineKind::Flush,
    LineKind::Compact,
    LineKind::MajorCompact,
    LineKind::Disable,
    LineKind::Enable,
    LineKind::Drop,
    LineKind::Split,
    LineKind::Snapshot,
    LineKind::ListSnapshots,
    LineKind::DeleteSnapshot,
    LineKind::CloneSnapshot,
    LineKind::RestoreSnapshot,
    LineKind::Bulkload,
    LineKind::CatalogjanitorRun,
    LineKind::CleanerChoreRun,
];

/// What the arguments of a line are.
#[derive(Clone, Copy, Debug, PartialEq, Eq)]
pub(crate) enum Arguments {
    Nothing,
    One(Argument),
    Two(Argument, Argument),
    Put,
    Delete,
    Create,
}

impl LineKind {
    /// The word that a line of the kind begins with.
    pub fn word(self) -> &'static [u8]
        ensures { result.now ≡ word self }
    {
        match self {
            LineKind::Create => b"create",
            LineKind::Put => b"put",
            LineKind::Delete => b"delete",
            LineKind::Scan => b"scan",
            LineKind::Flush => b"flush",
            LineKind::Compact => b"compact",
            LineKind::MajorCompact => b"major_compact",
            LineKind::Disable => b"disable",
            LineKind::Enable => b"enable",
            LineKind::Drop => b"drop",
            LineKind::Split => b"split",
            LineKind::Snapshot => b"snapshot",
            LineKind::ListSnapshots => b"list_snapshots",
            LineKind::DeleteSnapshot => b"delete_snapshot",
            LineKind::CloneSnapshot => b"clone_snapshot",
            LineKind::RestoreSnapshot => b"restore_snapshot",
            LineKind::Bulkload => b"bulkload",
            LineKind::CatalogjanitorRun => b"catalogjanitor_run",
            LineKind::CleanerChoreRun => b"cleaner_chore_run",
        }
    }

    /// What the arguments of a line of the kind are.
    pub(crate) fn arguments(self) -> Arguments
        ensures { result ≡ arguments self }
    {
        match self {
            LineKind::Create => Arguments::Create,
            LineKind::Put => Arguments::Put,
            LineKind::Delete => Arguments::Delete,
            LineKind::Scan => Arguments::One(NAME),
            LineKind::Flush => Arguments::One(NAME),
            LineKind::Compact => Arguments::One(NAME),
            LineKind::MajorCompact => Arguments::One(NAME),
            LineKind::Disable => Arguments::One(NAME),
            LineKind::Enable => Arguments::One(NAME),
            LineKind::Drop => Arguments::One(NAME),
            LineKind::Split => Arguments::Two(NAME, ROW),
            LineKind::Snapshot => Arguments::Two(NAME, NAME),
            LineKind::ListSnapshots => Arguments::Nothing,
            LineKind::DeleteSnapshot => Arguments::One(NAME),
            LineKind::CloneSnapshot => Arguments::Two(NAME, NAME),
            LineKind::RestoreSnapshot => Arguments::One(NAME),
            LineKind::Bulkload => Arguments::Two(NAME, Argument::Part),
            LineKind::CatalogjanitorRun => Arguments::Nothing,
            LineKind::CleanerChoreRun => Arguments::Nothing,
        }
    }
}
