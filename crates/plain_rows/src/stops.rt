//! A hundred lists of events with a stop between. What a stop leaves is worked by hand: the cells that were frozen and
//! then flushed, or loaded, the greatest number among them, tables and completed snapshots.

use crate::rows::Asked::*;
use crate::rows::ByActor::*;
use crate::rows::InRegion::*;
use crate::rows::OfTable::*;
use crate::rows::Row::*;
use crate::rows::ToTable::*;
use crate::rows::{Held, Row, Stopped};
use crate::scripts::{AGAIN, C, HIGH, LOW, T};
use hb_cell::Kind;

static PUTS_AND_FLUSHES: Stopped = Stopped {
    title: "puts and flushes",
    table: "t",
    before: &[On("t", Creates(&[("f", 1)], &[T]))],
    rows: &[
        (At(T, Puts("a", "f", "", 1, "1")), "z=9 #1"),
        (At(T, Freezes), "z=9 #1"),
        (At(T, Puts("b", "f", "", 1, "2")), "z=9 #1"),
        (At(T, Flushes), "a=1 z=9 #2"),
        (At(T, Puts("c", "f", "", 1, "3")), "a=1 z=9 #2"),
        (At(T, Freezes), "a=1 z=9 #2"),
        (At(T, Flushes), "a=1 b=2 c=3 z=9 #4"),
        (At(T, Puts("a", "f", "", 1, "4")), "a=1 b=2 c=3 z=9 #4"),
        (At(T, Freezes), "a=1 b=2 c=3 z=9 #4"),
        (At(T, Flushes), "a=4 b=2 c=3 z=9 #5"),
    ],
    behind: &[At(T, Puts("z", "f", "", 1, "9"))],
};

static FROZEN_AND_FLUSHED_AGAIN: Stopped = Stopped {
    title: "frozen and flushed again",
    table: "t",
    before: &[On("t", Creates(&[("f", 1)], &[T]))],
    rows: &[
        (At(T, Puts("a", "f", "", 1, "1")), "z=9 #1"),
        (At(T, Flushes), "z=9 #1"),
        (At(T, Freezes), "z=9 #1"),
        (At(T, Puts("b", "f", "", 1, "2")), "z=9 #1"),
        (At(T, Freezes), "z=9 #1"),
        (At(T, Flushes), "a=1 b=2 z=9 #3"),
        (At(T, Flushes), "a=1 b=2 z=9 #3"),
        (At(T, Draws), "a=1 b=2 z=9 #3"),
        (At(T, Puts("c", "f", "", 1, "3")), "a=1 b=2 z=9 #3"),
        (At(T, Freezes), "a=1 b=2 z=9 #3"),
    ],
    behind: &[
        At(T, Flushes),
        At(T, Freezes),
        At(T, Flushes),
        At(T, Puts("z", "f", "", 1, "9")),
    ],
};

static MARKERS: Stopped = Stopped {
    title: "markers",
    table: "t",
    before: &[On("t", Creates(&[("f", 1)], &[T]))],
    rows: &[
        (At(T, Puts("r", "f", "q", 1, "1")), "#0"),
        (At(T, Freezes), "#0"),
        (At(T, Flushes), "r=1 #1"),
        (At(T, Marks("r", "f", "q", 1, Kind::Delete)), "r=1 #1"),
        (At(T, Freezes), "r=1 #1"),
        (At(T, Flushes), "#2"),
        (At(T, Puts("r", "f", "q", 2, "2")), "#2"),
        (At(T, Freezes), "#2"),
        (At(T, Flushes), "r=2 #3"),
        (At(T, Puts("r", "f", "q", 3, "3")), "r=2 #3"),
    ],
    behind: &[],
};

static SPLIT: Stopped = Stopped {
    title: "a split",
    table: "t",
    before: &[
        On("t", Creates(&[("f", 1)], &[T])),
        At(T, Puts("a", "f", "", 1, "1")),
        At(T, Puts("n", "f", "", 1, "2")),
        At(T, Freezes),
        At(T, Flushes),
    ],
    rows: &[
        (
            By(1, Starts(Of("t", Split("m")), &[Held::Region(T)])),
            "a=1 n=2 #2",
        ),
        (At(T, Puts("b", "f", "", 1, "3")), "a=1 n=2 #2"),
        (At(T, Freezes), "a=1 n=2 #2"),
        (At(T, Flushes), "a=1 b=3 n=2 #3"),
        (On("t", Splits(T, LOW, HIGH)), "a=1 b=3 n=2 #3 #3"),
        (By(1, Ends), "a=1 b=3 n=2 #3 #3"),
        (At(HIGH, Puts("m", "f", "", 1, "4")), "a=1 b=3 n=2 #3 #3"),
        (At(HIGH, Freezes), "a=1 b=3 n=2 #3 #3"),
        (At(HIGH, Flushes), "a=1 b=3 m=4 n=2 #3 #4"),
        (On("t", Removes(&[T])), "a=1 b=3 m=4 n=2 #3 #4"),
    ],
    behind: &[],
};

static SNAPSHOT_AND_CLONE: Stopped = Stopped {
    title: "a snapshot and a clone",
    table: "c",
    before: &[
        On("t", Creates(&[("f", 1)], &[T])),
        At(T, Puts("a", "f", "", 1, "1")),
        At(T, Freezes),
        At(T, Flushes),
    ],
    rows: &[
        (
            By(1, Starts(Of("t", Snapshot("s")), &[Held::Take("s", "t")])),
            "",
        ),
        (By(1, Captures(T)), ""),
        (At(T, Puts("b", "f", "", 1, "2")), ""),
        (By(1, Completes), "s"),
        (By(1, Ends), "s"),
        (
            By(
                2,
                Starts(CloneSnapshot("s", "c"), &[Held::Table("c"), Held::Use("s")]),
            ),
            "s",
        ),
        (On("c", Clones("s", &[C])), "a=1 #1 s"),
        (By(2, Ends), "a=1 #1 s"),
        (At(C, Puts("d", "f", "", 1, "4")), "a=1 #1 s"),
        (Deletes("s"), "a=1 #1"),
    ],
    behind: &[],
};

static RESTORE: Stopped = Stopped {
    title: "a restore",
    table: "t",
    before: &[
        On("t", Creates(&[("f", 1)], &[T])),
        At(T, Puts("a", "f", "", 1, "1")),
        At(T, Freezes),
        At(T, Flushes),
        By(1, Starts(Of("t", Snapshot("s")), &[Held::Take("s", "t")])),
        By(1, Captures(T)),
        By(1, Completes),
        By(1, Ends),
    ],
    rows: &[
        (At(T, Puts("b", "f", "", 1, "2")), "a=1 #1 s"),
        (At(T, Freezes), "a=1 #1 s"),
        (At(T, Flushes), "a=1 b=2 #2 s"),
        (On("t", Disables), "a=1 b=2 #2 disabled s"),
        (
            By(
                2,
                Starts(RestoreSnapshot("s"), &[Held::Table("t"), Held::Use("s")]),
            ),
            "a=1 b=2 #2 disabled s",
        ),
        (On("t", Restores("s", &[AGAIN])), "a=1 #1 disabled s"),
        (By(2, Ends), "a=1 #1 disabled s"),
        (On("t", Enables), "a=1 #1 s"),
        (At(AGAIN, Puts("c", "f", "", 1, "3")), "a=1 #1 s"),
        (Deletes("s"), "a=1 #1"),
    ],
    behind: &[],
};

static LOAD: Stopped = Stopped {
    title: "a load",
    table: "t",
    before: &[On("t", Creates(&[("f", 1), ("g", 1)], &[LOW, HIGH]))],
    rows: &[
        (
            By(1, Starts(Of("t", BulkLoad("d")), &[Held::Load("t")])),
            "#0 #0",
        ),
        (At(LOW, Draws), "#0 #0"),
        (At(LOW, Draws), "#0 #0"),
        (
            At(LOW, Loads(&[("a", "f", 1, "5", 1), ("a", "g", 1, "6", 2)])),
            "a=5 a=6 #2 #0",
        ),
        (At(HIGH, Draws), "a=5 a=6 #2 #0"),
        (At(HIGH, Puts("n", "f", "q", 1, "2")), "a=5 a=6 #2 #0"),
        (
            At(HIGH, Loads(&[("m", "f", 1, "7", 1)])),
            "a=5 a=6 m=7 #2 #1",
        ),
        (At(HIGH, Freezes), "a=5 a=6 m=7 #2 #1"),
        (At(HIGH, Flushes), "a=5 a=6 m=7 n=2 #2 #2"),
        (By(1, Ends), "a=5 a=6 m=7 n=2 #2 #2"),
    ],
    behind: &[],
};

/// A marker behind the stop shows whether the value of the timestamp 1 is still kept.
static MAJOR_COMPACTION: Stopped = Stopped {
    title: "a major compaction",
    table: "t",
    before: &[
        On("t", Creates(&[("f", 1)], &[T])),
        At(T, Puts("r", "f", "q", 1, "1")),
        At(T, Puts("r", "f", "q", 2, "2")),
        At(T, Freezes),
        At(T, Flushes),
    ],
    rows: &[
        (
            By(1, Starts(Of("t", MajorCompact), &[Held::Compact(T)])),
            "r=1 #3",
        ),
        (By(1, Begins(T)), "r=1 #3"),
        (At(T, Puts("r", "f", "q", 3, "3")), "r=1 #3"),
        (At(T, Freezes), "r=1 #3"),
        (At(T, Flushes), "r=3 #4"),
        (By(1, Compacts(T)), "r=3 #4"),
        (By(1, Ends), "r=3 #4"),
        (At(T, Marks("r", "f", "q", 3, Kind::Delete)), "r=3 #4"),
        (At(T, Freezes), "r=3 #4"),
        (At(T, Flushes), "#5"),
    ],
    behind: &[At(T, Marks("r", "f", "q", 2, Kind::Delete))],
};

static DROP_AND_CREATE: Stopped = Stopped {
    title: "a drop and a table of the same name",
    table: "t",
    before: &[
        On("t", Creates(&[("f", 1)], &[T])),
        At(T, Puts("a", "f", "", 1, "1")),
        At(T, Freezes),
        At(T, Flushes),
    ],
    rows: &[
        (At(T, Puts("b", "f", "", 1, "2")), "a=1 #1"),
        (On("t", Disables), "a=1 #1 disabled"),
        (On("t", Enables), "a=1 #1"),
        (At(T, Freezes), "a=1 #1"),
        (At(T, Flushes), "a=1 b=2 #2"),
        (On("t", Disables), "a=1 b=2 #2 disabled"),
        (On("t", Drops), ""),
        (On("t", Creates(&[("f", 1)], &[AGAIN])), "#0"),
        (At(AGAIN, Puts("c", "f", "", 1, "3")), "#0"),
        (At(AGAIN, Freezes), "#0"),
    ],
    behind: &[],
};

static TWO_REGIONS: Stopped = Stopped {
    title: "two regions",
    table: "t",
    before: &[On("t", Creates(&[("f", 1)], &[LOW, HIGH]))],
    rows: &[
        (At(LOW, Puts("a", "f", "", 1, "1")), "#0 #0"),
        (At(HIGH, Puts("n", "f", "", 1, "2")), "#0 #0"),
        (At(LOW, Freezes), "#0 #0"),
        (At(LOW, Flushes), "a=1 #1 #0"),
        (At(HIGH, Freezes), "a=1 #1 #0"),
        (At(LOW, Puts("b", "f", "", 1, "3")), "a=1 #1 #0"),
        (At(HIGH, Flushes), "a=1 n=2 #1 #1"),
        (At(HIGH, Puts("m", "f", "", 1, "4")), "a=1 n=2 #1 #1"),
        (At(HIGH, Freezes), "a=1 n=2 #1 #1"),
        (At(HIGH, Flushes), "a=1 m=4 n=2 #1 #2"),
    ],
    behind: &[At(LOW, Freezes), At(LOW, Flushes), At(HIGH, Flushes)],
};

pub(crate) fn puts_and_flushes() -> &'static Stopped {
    &PUTS_AND_FLUSHES
}

pub(crate) fn frozen_and_flushed_again() -> &'static Stopped {
    &FROZEN_AND_FLUSHED_AGAIN
}

pub(crate) fn markers() -> &'static Stopped {
    &MARKERS
}

pub(crate) fn split() -> &'static Stopped {
    &SPLIT
}

pub(crate) fn snapshot_and_clone() -> &'static Stopped {
    &SNAPSHOT_AND_CLONE
}

pub(crate) fn restore() -> &'static Stopped {
    &RESTORE
}

pub(crate) fn load() -> &'static Stopped {
    &LOAD
}

pub(crate) fn major_compaction() -> &'static Stopped {
    &MAJOR_COMPACTION
}

pub(crate) fn drop_and_create() -> &'static Stopped {
    &DROP_AND_CREATE
}

pub(crate) fn two_regions() -> &'static Stopped {
    &TWO_REGIONS
}
