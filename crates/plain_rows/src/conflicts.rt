//! Each kind of hold that is asked for, against each kind that a live actor has.

use crate::jobs::hold;
use crate::names::{Made, push};
use crate::rows::{Conflicts, Fault, Held, Region};
use crate::scripts::{T, U};
use crate::views::{line_of, no_text};
use hb_wire::{Blob, Copied};
use plain_model::Hold;
use std::alloc::Global;

/// Another region of the table `t`.
const OTHER: Region = Region {
    table: "t",
    id: 8,
    start: "m",
    end: "",
};

/// The holds of live actors: of each kind on the same things; on others; on another region of the same table; and on the
/// same name alone, or the same table alone.
const LIVE: [&'static [Held]; 4] = [
    &[
        Held::Table("t"),
        Held::Region(T),
        Held::Flush(T),
        Held::Compact(T),
        Held::Load("t"),
        Held::Take("s", "t"),
        Held::Use("s"),
        Held::Erase("s"),
        Held::Pass,
    ],
    &[
        Held::Table("u"),
        Held::Region(U),
        Held::Flush(U),
        Held::Compact(U),
        Held::Load("u"),
        Held::Take("r", "u"),
        Held::Use("r"),
        Held::Erase("r"),
    ],
    &[
        Held::Region(OTHER),
        Held::Flush(OTHER),
        Held::Compact(OTHER),
    ],
    &[Held::Take("s", "u"), Held::Take("r", "t")],
];

/// Each kind that is asked for, with what stands in its way: the four groups of `LIVE`, in their order.
static CONFLICTS: [Conflicts; 9] = [
    Conflicts {
        asked: Held::Table("t"),
        found: "xxxxxx... ........ xxx .x",
    },
    Conflicts {
        asked: Held::Region(T),
        found: "xxxxxx... ........ ... .x",
    },
    Conflicts {
        asked: Held::Flush(T),
        found: "xxx..x... ........ ... .x",
    },
    Conflicts {
        asked: Held::Compact(T),
        found: "xx.x..... ........ ... ..",
    },
    Conflicts {
        asked: Held::Load("t"),
        found: "xx....... ........ x.. ..",
    },
    Conflicts {
        asked: Held::Take("s", "t"),
        found: "xxx..x.x. ........ xx. xx",
    },
    Conflicts {
        asked: Held::Use("s"),
        found: ".......x. ........ ... ..",
    },
    Conflicts {
        asked: Held::Erase("s"),
        found: ".....xrx. ........ ... x.",
    },
    Conflicts {
        asked: Held::Pass,
        found: ".....r..x .....r.. ... rr",
    },
];

/// The mark of two holds.
fn mark(asked: &Hold, live: &Hold) -> u8 {
    if asked.blocks(live) {
        return b'x';
    }
    if asked.conflicts(live) { b'r' } else { b'.' }
}

/// Adds the marks of a group, and a blank.
fn add_group(alloc: Global, text: &mut Blob, asked: &Hold, group: &[Held]) -> Made<()> {
    for held in group {
        text.add(&[mark(asked, &hold(alloc, held)?)])?;
    }
    Ok(text.add(b" ")?)
}

/// The marks of all groups.
fn marks(alloc: Global, asked: &Held) -> Made<Blob> {
    let asked = hold(alloc, asked)?.copy()?;
    let mut text = no_text(alloc);
    for group in LIVE {
        add_group(alloc, &mut text, &asked, group)?;
    }
    text.truncate(text.len().saturating_sub(1));
    Ok(text)
}

/// What each kind that is asked for meets.
pub(crate) fn conflicts() -> &'static [Conflicts] {
    &CONFLICTS
}

/// The rows of the table that are otherwise than they must be.
pub(crate) fn conflict_faults(alloc: Global) -> Made<Vec<Fault>> {
    let mut faults = Vec::new(alloc);
    for (i, row) in conflicts().iter().enumerate() {
        let marks = marks(alloc, &row.asked)?;
        let found = line_of(alloc, marks.as_slice())?;
        if found.as_str() != row.found {
            push(
                &mut faults,
                Fault {
                    row: i.saturating_add(1),
                    found,
                },
            )?;
        }
    }
    Ok(faults)
}
