//! Values that only contracts see.
//!
//! A history, or the contents of a store, is often what a contract speaks of, where the program itself
//! has no use for it. A [`Ghost`] is such a value: it takes no bytes and owns nothing, and contracts see
//! the value that it stands for.
#![tactic(auto)]

ghost use Rattle.std.specs.Prelude.{◌≡◌};
ghost use base.Fml.{ftrue};

use std::marker::{Model, PhantomData};

/// A way to read a value of type `T` off one of type `X`. Write a struct of its own for each way.
pub trait Reads<X, T> {
    /// What is read.
    ghost reads: { X → T };
}

/// A value of type `T` as contracts see it.
pub struct Ghost<T> {
    marker: PhantomData<T>,
    ghost value: { T },
}

impl<T> Model for Ghost<T> {
    ghost Value = { T };

    ghost view = { λ a. a.value };

    ghost also_owns = { λ _. ftrue };
}

impl<T> Ghost<T> {
    /// What `M` reads off `x`. Takes no memory, and does nothing when it runs.
    pub fn of<X, M: Reads<X, T>>(x: &X) -> Ghost<T>
        ensures { result ≡ M.reads x.now }
    {
        let _ = x;
        Ghost {
            marker: PhantomData,
        }
    }
}

impl<T> Drop for Ghost<T> {
    fn drop(self) {
        let Self { marker: _ } = self;
    }
}

unsafe impl<T> Send for Ghost<T> {}

unsafe impl<T> Sync for Ghost<T> {}

/// Reads the value that a ghost stands for.
pub struct Same;

impl<T> Reads<Ghost<T>, T> for Same {
    ghost reads = { λ x. x };
}

impl<T> Ghost<T> {
    /// A second ghost of the same value.
    pub fn copy(&self) -> Ghost<T>
        ensures { result ≡ self.now }
    {
        Ghost::<T>::of::<Ghost<T>, Same>(self)
    }
}

#[cfg(test)]
mod tests {
    use super::*;
    use std::thread;

    struct Itself;

    impl<T> Reads<T, T> for Itself {
        ghost reads = { λ x. x };
    }

    // A ghost goes to another thread, and is shared with one.
    #[test]
    fn crosses_threads(rt: HostRuntime) {
        let seven = Ghost::<u32>::of::<u32, Itself>(&7);
        let (one, two) = thread::join(&rt, || seven.copy(), || seven.copy());
        assert_eq!(rt; size_of::<Ghost<u32>>(), 0);
        drop((one, two));
    }
}
