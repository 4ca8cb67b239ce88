//! The scripts. Worked by hand, after the shell's replies and the rules on versions and markers of the HBase Reference
//! Guide.

use crate::rows::Asked::*;
use crate::rows::ByActor::*;
use crate::rows::InRegion::*;
use crate::rows::OfTable::*;
use crate::rows::Row::*;
use crate::rows::ToTable::*;
use crate::rows::{Held, Region, Row, Script};
use hb_cell::Kind;

/// The one region of the table `t`, its halves, and the region that it is made again with.
pub(crate) const T: Region = Region {
    table: "t",
    id: 1,
    start: "",
    end: "",
};

pub(crate) const LOW: Region = Region {
    table: "t",
    id: 2,
    start: "",
    end: "m",
};

pub(crate) const HIGH: Region = Region {
    table: "t",
    id: 3,
    start: "m",
    end: "",
};

pub(crate) const AGAIN: Region = Region {
    table: "t",
    id: 4,
    start: "",
    end: "",
};
/// Regions of other tables.
pub(crate) const C: Region = Region {
    table: "c",
    id: 5,
    start: "",
    end: "",
};

const D: Region = Region {
    table: "d",
    id: 6,
    start: "",
    end: "",
};

pub(crate) const U: Region = Region {
    table: "u",
    id: 7,
    start: "",
    end: "",
};

static PUT_AND_SCAN: Script = Script {
    title: "put and scan",
    rows: &[
        Ask(Of("t", Create(&["f"], &[])), "ok"),
        On("t", Creates(&[("f", 1)], &[T])),
        Ask(Of("t", Put("f")), "ok"),
        At(T, Puts("r", "f", "q", 5, "a")),
        Ask(Of("t", Scan), "ok"),
        Shows("t", "r f:q ts=5 value=a, 1 cells"),
        At(T, Puts("r", "f", "q", 5, "b")),
        Shows("t", "r f:q ts=5 value=b, 1 cells"),
        At(T, Puts("r", "f", "q", 5, "a")),
        Shows("t", "r f:q ts=5 value=a, 1 cells"),
        Number(T, "3"),
        Shows("x", "refused TableNotFound"),
    ],
};

static FLUSH_AND_STOP: Script = Script {
    title: "flush and stop",
    rows: &[
        On("t", Creates(&[("f", 1)], &[T])),
        At(T, Puts("r", "f", "q", 5, "v")),
        Stops,
        Shows("t", "0 cells"),
        Number(T, "0"),
        Ask(Of("t", Flush), "ok"),
        At(T, Puts("b", "f", "", 1, "2")),
        At(T, Freezes),
        At(T, Puts("a", "f", "", 1, "1")),
        At(T, Flushes),
        Shows("t", "a f: ts=1 value=1, b f: ts=1 value=2, 2 cells"),
        Number(T, "2"),
        Stops,
        Shows("t", "b f: ts=1 value=2, 1 cells"),
        Number(T, "1"),
        At(T, Puts("a", "f", "", 1, "3")),
        Number(T, "2"),
        At(T, Flushes),
        Shows("t", "a f: ts=1 value=3, b f: ts=1 value=2, 2 cells"),
    ],
};

static MARKERS: Script = Script {
    title: "markers",
    rows: &[
        On("t", Creates(&[("f", 3), ("g", 3)], &[T])),
        At(T, Puts("r", "f", "q", 1, "1")),
        At(T, Puts("r", "f", "q", 2, "2")),
        At(T, Puts("r", "f", "q", 3, "3")),
        At(T, Puts("r", "f", "p", 2, "p")),
        At(T, Puts("r", "g", "q", 2, "g")),
        At(T, Puts("s", "f", "q", 2, "s")),
        Shows(
            "t",
            "r f:p ts=2 value=p, r f:q ts=3 value=3, r f:q ts=2 value=2, r f:q ts=1 value=1, r g:q ts=2 value=g, s f:q ts=2 value=s, 6 cells",
        ),
        At(T, Marks("r", "f", "q", 2, Kind::Delete)),
        Shows(
            "t",
            "r f:p ts=2 value=p, r f:q ts=3 value=3, r f:q ts=1 value=1, r g:q ts=2 value=g, s f:q ts=2 value=s, 5 cells",
        ),
        At(T, Marks("r", "f", "q", 1, Kind::DeleteColumn)),
        Shows(
            "t",
            "r f:p ts=2 value=p, r f:q ts=3 value=3, r g:q ts=2 value=g, s f:q ts=2 value=s, 4 cells",
        ),
        At(T, Marks("r", "f", "", 2, Kind::DeleteFamily)),
        Shows(
            "t",
            "r f:q ts=3 value=3, r g:q ts=2 value=g, s f:q ts=2 value=s, 3 cells",
        ),
        // a marker hides what is put after it too
        At(T, Puts("r", "f", "q", 2, "later")),
        At(T, Puts("r", "f", "p", 1, "later")),
        Shows(
            "t",
            "r f:q ts=3 value=3, r g:q ts=2 value=g, s f:q ts=2 value=s, 3 cells",
        ),
    ],
};

static MARKERS_ARE_COMPACTED: Script = Script {
    title: "markers are compacted",
    rows: &[
        On("t", Creates(&[("f", 1)], &[T])),
        At(T, Marks("r", "f", "q", 10, Kind::DeleteColumn)),
        At(T, Puts("r", "f", "q", 9, "a")),
        Shows("t", "0 cells"),
        At(T, Freezes),
        At(T, Flushes),
        Shows("t", "0 cells"),
        Ask(Of("t", MajorCompact), "ok"),
        By(1, Starts(Of("t", MajorCompact), &[Held::Compact(T)])),
        By(1, Begins(T)),
        By(1, Compacts(T)),
        By(1, Ends),
        At(T, Puts("r", "f", "q", 9, "b")),
        Shows("t", "r f:q ts=9 value=b, 1 cells"),
    ],
};

static COMPACTION_AND_LATER_CELLS: Script = Script {
    title: "compaction and later cells",
    rows: &[
        On("t", Creates(&[("f", 1)], &[T])),
        At(T, Puts("r", "f", "q", 1, "1")),
        At(T, Puts("r", "f", "q", 2, "2")),
        At(T, Freezes),
        At(T, Flushes),
        By(1, Starts(Of("t", MajorCompact), &[Held::Compact(T)])),
        By(1, Begins(T)),
        At(T, Puts("r", "f", "q", 3, "3")),
        At(T, Freezes),
        At(T, Flushes),
        By(1, Compacts(T)),
        Shows("t", "r f:q ts=3 value=3, 1 cells"),
        At(T, Marks("r", "f", "q", 3, Kind::Delete)),
        Shows("t", "r f:q ts=2 value=2, 1 cells"),
        // the value of ts=1 was dropped by the compaction
        At(T, Marks("r", "f", "q", 2, Kind::Delete)),
        Shows("t", "0 cells"),
    ],
};

static VERSIONS: Script = Script {
    title: "versions",
    rows: &[
        On("t", Creates(&[("f", 2), ("g", 1)], &[T])),
        At(T, Puts("u1", "f", "n", 1, "Ann")),
        At(T, Puts("u1", "f", "n", 2, "Anna")),
        At(T, Puts("u2", "f", "n", 3, "Bo")),
        Shows(
            "t",
            "u1 f:n ts=2 value=Anna, u1 f:n ts=1 value=Ann, u2 f:n ts=3 value=Bo, 3 cells",
        ),
        At(T, Puts("u1", "f", "n", 5, "An")),
        Shows(
            "t",
            "u1 f:n ts=5 value=An, u1 f:n ts=2 value=Anna, u2 f:n ts=3 value=Bo, 3 cells",
        ),
        At(T, Puts("u1", "g", "n", 1, "a")),
        At(T, Puts("u1", "g", "n", 2, "b")),
        Shows(
            "t",
            "u1 f:n ts=5 value=An, u1 f:n ts=2 value=Anna, u1 g:n ts=2 value=b, u2 f:n ts=3 value=Bo, 4 cells",
        ),
        At(T, Marks("u1", "f", "n", 5, Kind::Delete)),
        Shows(
            "t",
            "u1 f:n ts=2 value=Anna, u1 f:n ts=1 value=Ann, u1 g:n ts=2 value=b, u2 f:n ts=3 value=Bo, 4 cells",
        ),
        // of one version, that of the greatest number, and then of the least value
        At(
            T,
            Loads(&[
                ("v", "g", 1, "c", 11),
                ("v", "g", 1, "b", 12),
                ("v", "g", 1, "a", 12),
            ]),
        ),
        Shows(
            "t",
            "u1 f:n ts=2 value=Anna, u1 f:n ts=1 value=Ann, u1 g:n ts=2 value=b, u2 f:n ts=3 value=Bo, v g:q ts=1 value=a, 5 cells",
        ),
    ],
};

static CREATE: Script = Script {
    title: "create",
    rows: &[
        Ask(
            Of("t", Create(&["f", "f"], &[])),
            "refused DuplicateFamily f",
        ),
        Ask(
            Of("t", Create(&["f", "g", "g", "f"], &["b", "a"])),
            "refused DuplicateFamily g",
        ),
        Ask(Of("t", Create(&["f"], &["b", "a"])), "refused BadSplitKey"),
        Ask(Of("t", Create(&["f"], &["a", "a"])), "refused BadSplitKey"),
        Ask(Of("t", Create(&["f"], &["", "a"])), "refused BadSplitKey"),
        Ask(Of("t", Create(&["f", "g"], &["a", "b", "ba"])), "ok"),
        On("t", Creates(&[("f", 1)], &[LOW, HIGH])),
        Regions("t", "..m, m.."),
        Ask(Of("t", Create(&["g"], &[])), "refused TableExists"),
        Ask(
            Of("t", Create(&["f", "f"], &["b", "a"])),
            "refused TableExists",
        ),
        Ask(Of("u", Create(&["f"], &["m"])), "ok"),
        Ask(Of("t", Put("g")), "refused UnknownFamily g"),
    ],
};

static NO_TABLE: Script = Script {
    title: "no table",
    rows: &[
        Ask(Of("x", Put("f")), "refused TableNotFound"),
        Ask(Of("x", Scan), "refused TableNotFound"),
        Ask(Of("x", Flush), "refused TableNotFound"),
        Ask(Of("x", Compact), "refused TableNotFound"),
        Ask(Of("x", MajorCompact), "refused TableNotFound"),
        Ask(Of("x", Discharge), "refused TableNotFound"),
        Ask(Of("x", Split("m")), "refused TableNotFound"),
        Ask(Of("x", Disable), "refused TableNotFound"),
        Ask(Of("x", Enable), "refused TableNotFound"),
        Ask(Of("x", Drop), "refused TableNotFound"),
        Ask(Of("x", Snapshot("s")), "refused TableNotFound"),
        Ask(Of("x", BulkLoad("d")), "refused TableNotFound"),
        Ask(DeleteSnapshot("s"), "refused SnapshotNotFound"),
        Ask(CloneSnapshot("s", "x"), "refused SnapshotNotFound"),
        Ask(RestoreSnapshot("s"), "refused SnapshotNotFound"),
        Ask(ListSnapshots, "0 snapshots"),
        Ask(Janitor, "ok"),
        Ask(Clean, "ok"),
    ],
};

static ENABLED_AND_DISABLED: Script = Script {
    title: "enabled and disabled",
    rows: &[
        On("t", Creates(&[("f", 1)], &[T])),
        Ask(Of("t", Put("f")), "ok"),
        Ask(Of("t", Scan), "ok"),
        Ask(Of("t", Flush), "ok"),
        Ask(Of("t", Compact), "ok"),
        Ask(Of("t", MajorCompact), "ok"),
        Ask(Of("t", Discharge), "ok"),
        Ask(Of("t", Split("m")), "ok"),
        Ask(Of("t", Disable), "ok"),
        Ask(Of("t", Enable), "refused TableNotDisabled"),
        Ask(Of("t", Drop), "refused TableNotDisabled"),
        Ask(Of("t", Snapshot("s")), "ok"),
        Ask(Of("t", BulkLoad("d")), "ok"),
        By(1, Starts(Of("t", Disable), &[Held::Table("t")])),
        On("t", Disables),
        By(1, Ends),
        Ask(Of("t", Put("g")), "refused TableNotEnabled"),
        Ask(Of("t", Scan), "refused TableNotEnabled"),
        Ask(Of("t", Flush), "refused TableNotEnabled"),
        Ask(Of("t", Compact), "refused TableNotEnabled"),
        Ask(Of("t", MajorCompact), "refused TableNotEnabled"),
        Ask(Of("t", Discharge), "refused TableNotEnabled"),
        Ask(Of("t", Split("")), "refused TableNotEnabled"),
        Ask(Of("t", Disable), "refused TableNotEnabled"),
        Ask(Of("t", Enable), "ok"),
        Ask(Of("t", Drop), "ok"),
        Ask(Of("t", Snapshot("s")), "ok"),
        Ask(Of("t", BulkLoad("d")), "refused TableNotEnabled"),
        Ask(Of("t", Create(&["f"], &[])), "refused TableExists"),
        On("t", Enables),
        Ask(Of("t", Enable), "refused TableNotDisabled"),
        Ask(Of("t", Put("f")), "ok"),
    ],
};

static DISABLE_AND_DROP: Script = Script {
    title: "disable and drop",
    rows: &[
        On("t", Creates(&[("f", 1), ("g", 2)], &[LOW, HIGH])),
        At(LOW, Puts("a", "g", "q", 1, "1")),
        At(HIGH, Puts("z", "f", "q", 2, "2")),
        At(HIGH, Marks("z", "f", "", 2, Kind::DeleteFamily)),
        Shows("t", "a g:q ts=1 value=1, 1 cells"),
        On("t", Disables),
        Shows("t", "refused TableNotEnabled"),
        On("t", Drops),
        Shows("t", "refused TableNotFound"),
        Regions("t", ""),
        On("t", Creates(&[("f", 1)], &[AGAIN])),
        Shows("t", "0 cells"),
        Number(AGAIN, "0"),
    ],
};

static SPLIT: Script = Script {
    title: "split",
    rows: &[
        On("t", Creates(&[("f", 1)], &[T])),
        At(T, Puts("a", "f", "", 1, "1")),
        At(T, Puts("m", "f", "", 1, "m")),
        At(T, Puts("n", "f", "", 2, "2")),
        Ask(Of("t", Split("m")), "ok"),
        By(1, Starts(Of("t", Split("m")), &[Held::Region(T)])),
        At(T, Freezes),
        At(T, Flushes),
        On("t", Splits(T, LOW, HIGH)),
        By(1, Ends),
        Regions("t", ".. split, ..m, m.."),
        Shows(
            "t",
            "a f: ts=1 value=1, m f: ts=1 value=m, n f: ts=2 value=2, 3 cells",
        ),
        Number(LOW, "3"),
        Number(HIGH, "3"),
        // the start of a region, also of the first one
        Ask(Of("t", Split("m")), "refused BadSplitKey"),
        Ask(Of("t", Split("")), "refused BadSplitKey"),
        Ask(Of("t", Split("c")), "ok"),
        By(2, Starts(Of("t", Snapshot("s")), &[Held::Take("s", "t")])),
        By(2, Captures(LOW)),
        By(2, Captures(HIGH)),
        By(2, Completes),
        Copies("s", "..m 1 cells number 3, m.. 2 cells number 3"),
        On("t", Removes(&[T])),
        Regions("t", "..m, m.."),
        Shows(
            "t",
            "a f: ts=1 value=1, m f: ts=1 value=m, n f: ts=2 value=2, 3 cells",
        ),
    ],
};

static SNAPSHOTS: Script = Script {
    title: "snapshots",
    rows: &[
        On("t", Creates(&[("f", 1)], &[T])),
        At(T, Puts("a", "f", "", 1, "1")),
        Ask(Of("t", Snapshot("s")), "ok"),
        By(1, Starts(Of("t", Snapshot("s")), &[Held::Take("s", "t")])),
        At(T, Freezes),
        At(T, Flushes),
        By(1, Captures(T)),
        Ask(ListSnapshots, "0 snapshots"),
        By(1, Completes),
        By(1, Ends),
        Copies("s", ".. 1 cells number 1"),
        Ask(Of("t", Snapshot("s")), "refused SnapshotExists"),
        Ask(Of("x", Snapshot("s")), "refused TableNotFound"),
        Ask(ListSnapshots, "s, 1 snapshots"),
        By(2, Starts(Of("t", Snapshot("r")), &[Held::Take("r", "t")])),
        By(2, Captures(T)),
        By(2, Completes),
        By(2, Ends),
        Ask(ListSnapshots, "r, s, 2 snapshots"),
        Ask(DeleteSnapshot("s"), "ok"),
        Deletes("s"),
        Ask(DeleteSnapshot("s"), "refused SnapshotNotFound"),
        Copies("s", ""),
        Ask(ListSnapshots, "r, 1 snapshots"),
        Ask(Of("t", Snapshot("s")), "ok"),
        Deletes("r"),
        Ask(ListSnapshots, "0 snapshots"),
    ],
};

static CAPTURES_ARE_COPIES: Script = Script {
    title: "captures are copies",
    rows: &[
        On("t", Creates(&[("f", 1)], &[T])),
        At(T, Puts("a", "f", "", 1, "1")),
        At(T, Freezes),
        At(T, Flushes),
        At(T, Puts("b", "f", "", 1, "2")),
        By(1, Starts(Of("t", Snapshot("s")), &[Held::Take("s", "t")])),
        By(1, Captures(T)),
        At(T, Freezes),
        At(T, Flushes),
        At(T, Puts("c", "f", "", 1, "3")),
        By(1, Completes),
        By(1, Ends),
        Copies("s", ".. 1 cells number 1"),
        On("c", Clones("s", &[C])),
        Shows("c", "a f: ts=1 value=1, 1 cells"),
        // what an activity captured goes with it
        By(2, Starts(Of("t", Snapshot("r")), &[Held::Take("r", "t")])),
        By(2, Captures(T)),
        By(2, Ends),
        By(2, Starts(Of("t", Snapshot("r")), &[Held::Take("r", "t")])),
        By(2, Completes),
        Copies("r", ""),
    ],
};

static CLONE_AFTER_DROP: Script = Script {
    title: "clone after drop",
    rows: &[
        On("t", Creates(&[("f", 1)], &[T])),
        At(T, Puts("a", "f", "q", 1, "1")),
        At(T, Freezes),
        At(T, Flushes),
        By(1, Starts(Of("t", Snapshot("s")), &[Held::Take("s", "t")])),
        By(1, Captures(T)),
        By(1, Completes),
        By(1, Ends),
        At(T, Puts("b", "f", "q", 2, "2")),
        Ask(CloneSnapshot("s", "c"), "ok"),
        Ask(CloneSnapshot("x", "t"), "refused SnapshotNotFound"),
        Ask(CloneSnapshot("s", "t"), "refused TableExists"),
        By(
            2,
            Starts(CloneSnapshot("s", "c"), &[Held::Table("c"), Held::Use("s")]),
        ),
        On("c", Clones("s", &[C])),
        By(2, Ends),
        Shows("c", "a f:q ts=1 value=1, 1 cells"),
        Shows("t", "a f:q ts=1 value=1, b f:q ts=2 value=2, 2 cells"),
        Number(C, "1"),
        At(T, Freezes),
        At(T, Flushes),
        On("t", Disables),
        On("t", Drops),
        Shows("c", "a f:q ts=1 value=1, 1 cells"),
        // the snapshot doesn't see what is put into the clone
        At(C, Puts("c", "f", "q", 3, "3")),
        At(C, Freezes),
        At(C, Flushes),
        On("d", Clones("s", &[D])),
        Shows("d", "a f:q ts=1 value=1, 1 cells"),
        Deletes("s"),
        Shows("c", "a f:q ts=1 value=1, c f:q ts=3 value=3, 2 cells"),
        Shows("d", "a f:q ts=1 value=1, 1 cells"),
        Number(C, "2"),
        Stops,
        Shows("c", "a f:q ts=1 value=1, c f:q ts=3 value=3, 2 cells"),
    ],
};

static RESTORE: Script = Script {
    title: "restore",
    rows: &[
        On("t", Creates(&[("f", 1)], &[T])),
        At(T, Puts("a", "f", "q", 1, "1")),
        At(T, Freezes),
        At(T, Flushes),
        By(1, Starts(Of("t", Snapshot("s")), &[Held::Take("s", "t")])),
        By(1, Captures(T)),
        By(1, Completes),
        By(1, Ends),
        At(T, Puts("b", "f", "q", 2, "2")),
        Ask(RestoreSnapshot("s"), "refused TableNotDisabled"),
        On("t", Disables),
        Ask(RestoreSnapshot("s"), "ok"),
        By(
            2,
            Starts(RestoreSnapshot("s"), &[Held::Table("t"), Held::Use("s")]),
        ),
        On("t", Restores("s", &[AGAIN])),
        By(2, Ends),
        Shows("t", "refused TableNotEnabled"),
        On("t", Enables),
        Shows("t", "a f:q ts=1 value=1, 1 cells"),
        Number(AGAIN, "1"),
        Regions("t", ".."),
        Ask(ListSnapshots, "s, 1 snapshots"),
        On("t", Disables),
        On("t", Drops),
        Ask(RestoreSnapshot("s"), "refused TableNotFound"),
    ],
};

static LOAD: Script = Script {
    title: "load",
    rows: &[
        On("t", Creates(&[("f", 1), ("g", 1)], &[LOW, HIGH])),
        Ask(Of("t", BulkLoad("d")), "ok"),
        By(1, Starts(Of("t", BulkLoad("d")), &[Held::Load("t")])),
        At(LOW, Draws),
        At(LOW, Draws),
        Shows("t", "0 cells"),
        At(
            LOW,
            Loads(&[
                ("a", "f", 1, "1", 1),
                ("l", "f", 1, "1", 1),
                ("a", "g", 1, "1", 2),
                ("l", "g", 1, "1", 2),
            ]),
        ),
        Number(LOW, "2"),
        Number(HIGH, "0"),
        At(HIGH, Draws),
        At(HIGH, Draws),
        At(
            HIGH,
            Loads(&[
                ("m", "f", 1, "1", 1),
                ("z", "f", 1, "1", 1),
                ("m", "g", 1, "1", 2),
                ("z", "g", 1, "1", 2),
            ]),
        ),
        By(1, Ends),
        Shows(
            "t",
            "a f:q ts=1 value=1, a g:q ts=1 value=1, l f:q ts=1 value=1, l g:q ts=1 value=1, m f:q ts=1 value=1, m g:q ts=1 value=1, z f:q ts=1 value=1, z g:q ts=1 value=1, 8 cells",
        ),
        At(HIGH, Puts("m", "f", "q", 1, "2")),
        Number(HIGH, "3"),
        Stops,
        Shows(
            "t",
            "a f:q ts=1 value=1, a g:q ts=1 value=1, l f:q ts=1 value=1, l g:q ts=1 value=1, m f:q ts=1 value=1, m g:q ts=1 value=1, z f:q ts=1 value=1, z g:q ts=1 value=1, 8 cells",
        ),
        Number(LOW, "2"),
        Number(HIGH, "2"),
        Ask(Of("t", Put("h")), "refused UnknownFamily h"),
    ],
};

static USED_AND_TAKEN: Script = Script {
    title: "used and taken",
    rows: &[
        On("t", Creates(&[("f", 1)], &[T])),
        On("u", Creates(&[("f", 1)], &[U])),
        By(1, Starts(Of("t", Snapshot("s")), &[Held::Take("s", "t")])),
        By(1, Captures(T)),
        By(1, Completes),
        By(1, Ends),
        By(
            4,
            Starts(CloneSnapshot("s", "c"), &[Held::Table("c"), Held::Use("s")]),
        ),
        By(
            3,
            Starts(CloneSnapshot("s", "d"), &[Held::Table("d"), Held::Use("s")]),
        ),
        By(2, Starts(Of("u", Flush), &[Held::Flush(U)])),
        Ask(DeleteSnapshot("s"), "refused InUse 3"),
        By(3, Ends),
        Ask(DeleteSnapshot("s"), "refused InUse 4"),
        By(4, Ends),
        Ask(DeleteSnapshot("s"), "ok"),
        By(5, Starts(Of("t", Snapshot("v")), &[Held::Take("v", "t")])),
        By(6, Starts(Of("u", Snapshot("u")), &[Held::Take("u", "u")])),
        Ask(Clean, "refused Taking u"),
        By(6, Ends),
        Ask(Clean, "refused Taking v"),
        Stops,
    ],
};

static LIVE_AFTER_A_STOP: Script = Script {
    title: "activities after a stop",
    rows: &[
        On("t", Creates(&[("f", 1)], &[T])),
        By(1, Starts(Of("t", Snapshot("s")), &[Held::Take("s", "t")])),
        By(1, Captures(T)),
        Ask(Clean, "refused Taking s"),
        Stops,
        Ask(Clean, "ok"),
        By(1, Starts(Of("t", Snapshot("s")), &[Held::Take("s", "t")])),
        By(1, Completes),
        Copies("s", ""),
    ],
};

/// A region of a table of many.
const SECOND: Region = Region {
    table: "t",
    id: 1,
    start: "0001",
    end: "0002",
};

static TOO_MANY_REGIONS: Script = Script {
    title: "too many regions",
    rows: &[
        On("t", CreatesMany(998)),
        Ask(Of("t", Split("00010")), "ok"),
        Ask(Of("t", Split("0001")), "refused BadSplitKey"),
        By(1, Starts(Of("t", Split("00010")), &[Held::Region(SECOND)])),
        Ask(Of("t", Split("00020")), "refused TooManyRegions"),
        By(1, Ends),
        Ask(Of("t", Split("00020")), "ok"),
        // of another table, or of a region that isn't open
        By(2, Starts(Of("u", Split("m")), &[Held::Region(U)])),
        By(3, Starts(Of("t", Split("m")), &[Held::Region(AGAIN)])),
        Ask(Of("t", Split("00020")), "ok"),
        On("t", Drops),
        On("t", CreatesMany(999)),
        Ask(Of("t", Split("00020")), "refused TooManyRegions"),
        Ask(Of("t", Split("0002")), "refused BadSplitKey"),
    ],
};

static NUMBERS: Script = Script {
    title: "numbers",
    rows: &[
        On("t", Creates(&[("f", 1)], &[T])),
        At(T, Draws),
        Number(T, "1"),
        At(T, Draws),
        At(T, Puts("a", "f", "q", 1, "1")),
        Number(T, "3"),
        Stops,
        Number(T, "0"),
        At(T, Loads(&[("a", "f", 1, "1", 9223372036854775807)])),
        Number(T, "0"),
        Stops,
        Number(T, "9223372036854775807 the greatest"),
        Shows("t", "a f:q ts=1 value=1, 1 cells"),
    ],
};

pub(crate) fn put_and_scan() -> &'static Script {
    &PUT_AND_SCAN
}

pub(crate) fn flush_and_stop() -> &'static Script {
    &FLUSH_AND_STOP
}

pub(crate) fn markers() -> &'static Script {
    &MARKERS
}

pub(crate) fn markers_are_compacted() -> &'static Script {
    &MARKERS_ARE_COMPACTED
}

pub(crate) fn compaction_and_later_cells() -> &'static Script {
    &COMPACTION_AND_LATER_CELLS
}

pub(crate) fn versions() -> &'static Script {
    &VERSIONS
}

pub(crate) fn create() -> &'static Script {
    &CREATE
}

pub(crate) fn no_table() -> &'static Script {
    &NO_TABLE
}

pub(crate) fn enabled_and_disabled() -> &'static Script {
    &ENABLED_AND_DISABLED
}

pub(crate) fn disable_and_drop() -> &'static Script {
    &DISABLE_AND_DROP
}

pub(crate) fn split() -> &'static Script {
    &SPLIT
}

pub(crate) fn snapshots() -> &'static Script {
    &SNAPSHOTS
}

pub(crate) fn captures_are_copies() -> &'static Script {
    &CAPTURES_ARE_COPIES
}

pub(crate) fn clone_after_drop() -> &'static Script {
    &CLONE_AFTER_DROP
}

pub(crate) fn restore() -> &'static Script {
    &RESTORE
}

pub(crate) fn load() -> &'static Script {
    &LOAD
}

pub(crate) fn used_and_taken() -> &'static Script {
    &USED_AND_TAKEN
}

pub(crate) fn live_after_a_stop() -> &'static Script {
    &LIVE_AFTER_A_STOP
}

pub(crate) fn too_many_regions() -> &'static Script {
    &TOO_MANY_REGIONS
}

pub(crate) fn numbers() -> &'static Script {
    &NUMBERS
}
