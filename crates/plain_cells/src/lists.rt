//! Lists of copies.

ghost use Rattle.std.specs.Prelude.{◌≡◌, ◌++◌, IfOk, take, drop};

use hb_wire::{Copied, Items, NoMemory};
use std::alloc::Global;

/// A list with copies of some values behind it.
pub fn joined<T: Copied>(front: Items<T>, back: &[T]) -> Result<Items<T>, NoMemory>
    ensures { IfOk result (λ all. all ≡ front ++ back.now) }
{
    let mut all = front.into_vec();
    for value in back {
        all.push(value.copy()?)?;
    }
    Ok(Items::from_vec(all))
}

/// Copies of the first so many values.
pub fn front<T: Copied>(alloc: Global, values: &[T], count: usize) -> Result<Items<T>, NoMemory>
    ensures { IfOk result (λ some. some ≡ take count values.now) }
{
    let end = count.min(values.len());
    joined(Items::new(alloc), &values[..end])
}

/// Copies of all but the first so many values.
pub fn back<T: Copied>(alloc: Global, values: &[T], count: usize) -> Result<Items<T>, NoMemory>
    ensures { IfOk result (λ some. some ≡ drop count values.now) }
{
    let begin = count.min(values.len());
    joined(Items::new(alloc), &values[begin..])
}
