//! What steps have for contracts alone.

ghost use Rattle.std.specs.Prelude.{◌≡◌, []};
ghost use Rattle.core_model.specs.State.{no_plan};

use core_model::Plan;
use hb_cell::Cell;
use hb_ghost::{Ghost, Reads};
use hb_names::FamilyName;
use hb_wire::{Blob, Items};

struct BytesOf;

impl Reads<&[u8], Blob> for BytesOf {
    ghost reads = { λ bytes. bytes.now };
}

/// The bytes that are written.
pub(crate) fn bytes_of(bytes: &[u8]) -> Ghost<Blob>
    ensures { result ≡ bytes.now }
{
    Ghost::<Blob>::of::<&[u8], BytesOf>(&bytes)
}

struct NoCells;

impl Reads<(), Items<Cell>> for NoCells {
    ghost reads = { λ _. [] };
}

/// No cells.
pub(crate) fn no_cells() -> Ghost<Items<Cell>>
    ensures { result ≡ [] }
{
    Ghost::<Items<Cell>>::of::<(), NoCells>(&())
}

struct NoPlan;

impl Reads<(), Plan> for NoPlan {
    ghost reads = { λ _. no_plan };
}

/// Nothing that is built.
pub(crate) fn no_plan() -> Ghost<Plan>
    ensures { result ≡ no_plan }
{
    Ghost::<Plan>::of::<(), NoPlan>(&())
}

struct NothingStaged;

impl Reads<(), Items<(FamilyName, Blob)>> for NothingStaged {
    ghost reads = { λ _. [] };
}

/// No files in a folder of a bulk load.
pub(crate) fn nothing_staged() -> Ghost<Items<(FamilyName, Blob)>>
    ensures { result ≡ [] }
{
    Ghost::<Items<(FamilyName, Blob)>>::of::<(), NothingStaged>(&())
}

struct Itself;

impl<T> Reads<T, T> for Itself {
    ghost reads = { λ x. x };
}

/// A value as contracts see it.
pub(crate) fn as_seen<T>(value: &T) -> Ghost<T>
    ensures { result ≡ value.now }
{
    Ghost::<T>::of::<T, Itself>(value)
}
