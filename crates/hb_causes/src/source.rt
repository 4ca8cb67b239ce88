//! Where bytes come from.
ghost use Rattle.std.specs.Prelude.{◌≡◌, ◌<◌, ◌≤◌, ℕ, List, [], length, drop, Option, Ok, IfOk, OnErr, IfSome, option_map};
ghost use Rattle.hb_causes.specs.Faults.{Rose};
ghost use Rattle.hb_causes.specs.Source.{Moves};

use crate::failed::Failed;

/// What gives bytes, some at a time.
pub trait Source {
    /// The bytes that it has left, where it tells them.
    ghost left: { Self → Option (List ℕ) };

    /// How many of its calls have failed, up to the last value of a `u64`.
    ghost faults: { Self → ℕ };

    /// Moves bytes into the front of `buf` and says how many: 0 for a buffer that is not empty only
    /// at the end of the input. A failed call takes nothing, and may leave anything in `buf`.
    fn read(&mut self, buf: &mut [u8]) -> Result<usize, Failed>
        ensures within { IfOk result (λ n. n ≤ length buf.old) }

        // Where it tells, the bytes moved are the front of those that were left.
        ensures moved { IfOk result (λ n. IfSome (left self.old) (λ bytes. Moves n bytes buf.old buf.new)) }
        ensures rest { IfOk result (λ n. left self.new ≡ option_map (drop n) (left self.old)) }
        ensures end { result ≡ Ok 0 → 0 < length buf.old → IfSome (left self.old) (λ bytes. bytes ≡ []) }

        ensures failed { OnErr result (left self.new ≡ left self.old) }
        ensures rose { OnErr result (Rose (faults self.old) (faults self.new)) }
        ensures later { faults self.old ≤ faults self.new };

    /// How many of its calls have failed.
    fn faults(&self) -> u64
        ensures { result ≡ faults self.now };
}
