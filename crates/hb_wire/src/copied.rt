//! Copies of values.
ghost use Rattle.std.specs.Prelude.{◌≡◌, IfOk};

use crate::{Blob, Items, NoMemory};

/// A value that can be kept twice.
pub trait Copied: Drop {
    /// An equal value. It takes memory only where the value holds a collection.
    fn copy(&self) -> Result<Self, NoMemory>
        ensures { IfOk result (λ copy. copy ≡ self.now) };
}

impl Copied for Blob {
    fn copy(&self) -> Result<Blob, NoMemory> {
        Blob::copy_of(self.allocator(), self.as_slice())
    }
}

impl<T: Copied> Copied for Items<T> {
    fn copy(&self) -> Result<Items<T>, NoMemory> {
        let mut items = Vec::with_capacity(self.allocator(), self.len())?;
        for item in self.as_slice() {
            items.push(item.copy()?)?;
        }
        Ok(Items::from_vec(items))
    }
}

impl<T: Copied> Copied for Option<T> {
    fn copy(&self) -> Result<Option<T>, NoMemory> {
        match self {
            Some(value) => Ok(Some(value.copy()?)),
            None => Ok(None),
        }
    }
}

impl<A: Copied, B: Copied> Copied for (A, B) {
    fn copy(&self) -> Result<(A, B), NoMemory> {
        Ok((self.0.copy()?, self.1.copy()?))
    }
}

impl<A: Copied, B: Copied, C: Copied> Copied for (A, B, C) {
    fn copy(&self) -> Result<(A, B, C), NoMemory> {
        Ok((self.0.copy()?, self.1.copy()?, self.2.copy()?))
    }
}

impl<A: Copied, B: Copied, C: Copied, D: Copied> Copied for (A, B, C, D) {
    fn copy(&self) -> Result<(A, B, C, D), NoMemory> {
        Ok((
            self.0.copy()?,
            self.1.copy()?,
            self.2.copy()?,
            self.3.copy()?,
        ))
    }
}

impl Copied for bool {
    fn copy(&self) -> Result<bool, NoMemory> {
        Ok(*self)
    }
}

impl Copied for u8 {
    fn copy(&self) -> Result<u8, NoMemory> {
        Ok(*self)
    }
}

impl Copied for u16 {
    fn copy(&self) -> Result<u16, NoMemory> {
        Ok(*self)
    }
}

impl Copied for u32 {
    fn copy(&self) -> Result<u32, NoMemory> {
        Ok(*self)
    }
}

impl Copied for u64 {
    fn copy(&self) -> Result<u64, NoMemory> {
        Ok(*self)
    }
}

impl Copied for u128 {
    fn copy(&self) -> Result<u128, NoMemory> {
        Ok(*self)
    }
}

impl Copied for usize {
    fn copy(&self) -> Result<usize, NoMemory> {
        Ok(*self)
    }
}

impl Copied for i8 {
    fn copy(&self) -> Result<i8, NoMemory> {
        Ok(*self)
    }
}

impl Copied for i16 {
    fn copy(&self) -> Result<i16, NoMemory> {
        Ok(*self)
    }
}

impl Copied for i32 {
    fn copy(&self) -> Result<i32, NoMemory> {
        Ok(*self)
    }
}

impl Copied for i64 {
    fn copy(&self) -> Result<i64, NoMemory> {
        Ok(*self)
    }
}

impl Copied for i128 {
    fn copy(&self) -> Result<i128, NoMemory> {
        Ok(*self)
    }
}

impl Copied for isize {
    fn copy(&self) -> Result<isize, NoMemory> {
        Ok(*self)
    }
}
