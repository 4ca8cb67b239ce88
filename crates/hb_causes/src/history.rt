//! The moments that a clock has given, which only contracts see: a program would keep no list that
//! grows with each call.
ghost use Rattle.std.specs.Prelude.{◌≡◌, [], ◌∷◌, ◌++◌};

use hb_ghost::{Ghost, Reads};
use std::marker::Model;

/// A list of moments, as contracts see it.
#[derive(Drop)]
struct Moments {
    items: Vec<u64>,
}

impl Model for Moments {
    ghost use Rattle.std.specs.Prelude.{ℕ, List};

    ghost Value = { List ℕ };

    ghost view = { λ m. m.items.items };
}

/// The list without moments.
struct NoMoments;

impl Reads<(), Moments> for NoMoments {
    ghost reads = { λ _. [] };
}

/// A list with one more moment at its end.
struct OneMore;

impl Reads<(Ghost<Moments>, u64), Moments> for OneMore {
    ghost reads = { λ p. p.0 ++ p.1 ∷ [] };
}

/// The moments that a clock has given, oldest first. It takes no bytes.
#[derive(Drop)]
pub(crate) struct History {
    given: Ghost<Moments>,
}

impl Model for History {
    ghost use Rattle.std.specs.Prelude.{ℕ, List};

    ghost Value = { List ℕ };

    ghost view = { λ h. h.given };
}

impl History {
    /// The history of a clock that has given nothing.
    pub(crate) fn new() -> History
        ensures { result ≡ [] }
    {
        History {
            given: Ghost::<Moments>::of::<(), NoMoments>(&()),
        }
    }

    /// Adds a moment that was given.
    pub(crate) fn add(&mut self, moment: u64)
        ensures { self.new ≡ self.old ++ moment ∷ [] }
    {
        let more = (self.given.copy(), moment);
        self.given = Ghost::<Moments>::of::<(Ghost<Moments>, u64), OneMore>(&more);
    }
}
