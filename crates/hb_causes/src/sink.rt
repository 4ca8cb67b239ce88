//! Where bytes go to.
ghost use Rattle.std.specs.Prelude.{◌≡◌, ◌<◌, ◌≤◌, ℕ, List, length, take, Option, IfOk, OnErr};
ghost use Rattle.hb_causes.specs.Faults.{Rose};
ghost use Rattle.hb_causes.specs.Sink.{with_bytes};

use crate::failed::Failed;

/// What takes bytes, some at a time.
pub trait Sink {
    /// The bytes written so far, where it tells them.
    ghost written: { Self → Option (List ℕ) };

    /// How many of its calls have failed, up to the last value of a `u64`.
    ghost faults: { Self → ℕ };

    /// Takes bytes from the front of `bytes` and says how many: at least one, where there is one.
    /// A failed call takes nothing.
    fn write(&mut self, bytes: &[u8]) -> Result<usize, Failed>
        ensures within { IfOk result (λ n. n ≤ length bytes.now) }
        ensures some { 0 < length bytes.now → IfOk result (λ n. 0 < n) }
        ensures added { IfOk result (λ n. written self.new ≡ with_bytes (take n bytes.now) (written self.old)) }

        ensures failed { OnErr result (written self.new ≡ written self.old) }
        ensures rose { OnErr result (Rose (faults self.old) (faults self.new)) }
        ensures later { faults self.old ≤ faults self.new };

    /// How many of its calls have failed.
    fn faults(&self) -> u64
        ensures { result ≡ faults self.now };
}
