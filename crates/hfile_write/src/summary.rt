//! What is told of the cells of a file.
ghost use Rattle.std.specs.Prelude.{◌≡◌, ◌+◌, [], length, IfOk};
ghost use Rattle.hb_cell.specs.Limits.{IsCell};
ghost use Rattle.hb_cell.specs.Stored.{key};
ghost use Rattle.hfile_write.specs.Summary.{summary_of, with_summary, average};

use hb_cell::Cell;
use hb_wire::NoMemory;
use std::alloc::AllocError;

/// What the file info and the trailer tell of the cells of a file. Source: HBase `HFileWriterImpl`.
#[derive(Clone, Copy, Debug, PartialEq, Eq)]
pub struct Summary {
    /// How many there are.
    pub cells: u64,
    /// How many bytes their keys have.
    pub key_bytes: u64,
    /// How many bytes their values have.
    pub value_bytes: u64,
    /// Their greatest sequence number.
    pub greatest: u64,
}

/// So many more. What 64 bits do not count would not fit memory.
pub fn more(count: u64, by: usize) -> Result<u64, NoMemory>
    ensures { IfOk result (λ sum. sum ≡ count + by) }
{
    match count.checked_add(by as u64) {
        Some(sum) => Ok(sum),
        None => Err(AllocError),
    }
}

/// How many bytes a cell's key has.
fn key_len(cell: &Cell) -> usize
    requires { IsCell cell.now }
    ensures { result ≡ length (key cell.now) }
{
    12 + cell.row.len() + cell.family.len() + cell.qualifier.len()
}

impl Summary {
    /// What is told of no cells.
    #[tactic(auto, unfolding(crate::specs::Summary::summary_of))]
    pub fn new() -> Summary
        ensures { result ≡ summary_of [] }
    {
        Summary {
            cells: 0,
            key_bytes: 0,
            value_bytes: 0,
            greatest: 0,
        }
    }

    /// What is told with one more cell.
    pub fn with_cell(&self, cell: &Cell) -> Result<Summary, NoMemory>
        requires { IsCell cell.now }
        ensures { IfOk result (λ summary. summary ≡ with_summary self.now cell.now) }
    {
        Ok(Summary {
            cells: more(self.cells, 1)?,
            key_bytes: more(self.key_bytes, key_len(cell))?,
            value_bytes: more(self.value_bytes, cell.value.len())?,
            greatest: self.greatest.max(cell.seq),
        })
    }
}

/// The average, rounded down, 0 of none.
pub fn average(total: u64, count: u64) -> u64
    ensures { result ≡ average total count }
{
    if count == 0 { 0 } else { total / count }
}
