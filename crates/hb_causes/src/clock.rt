//! What time it is.
ghost use Rattle.std.specs.Prelude.{◌≡◌, ℕ, List, Option};
ghost use Rattle.hb_causes.specs.Clock.{with_moment};

/// What gives moments, in milliseconds since 1970. It cannot fail, and it may go back.
pub trait Clock {
    /// The moments that it has given, oldest first, where it tells them.
    ghost moments: { Self → Option (List ℕ) };

    /// The moment that it is now.
    fn now(&mut self) -> u64
        ensures { moments self.new ≡ with_moment result (moments self.old) };
}
