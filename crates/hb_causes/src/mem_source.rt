//! A source in memory.
ghost use Rattle.std.specs.Prelude.{◌≡◌, ◌<◌, ◌≤◌, [], length, Some, Ok, is_err, IfOk, OnErr};
ghost use Rattle.hb_causes.specs.Source.{Moves};
ghost use Rattle.hb_causes.specs.Calls.{is_due};
ghost use Rattle.hb_causes.specs.MemSource.{new_source, read_count, after_read, after_failed_read};

use crate::calls::CallLog;
use crate::failed::Failed;
use crate::source::Source;
use std::marker::Model;

/// Gives the bytes that it was made with, in pieces of a bounded length, and fails at the calls that
/// are listed.
#[derive(Drop)]
pub struct MemSource {
    bytes: Vec<u8>,
    at: usize,
    most: usize,
    calls: CallLog,
}

impl Model for MemSource {
    ghost use Rattle.std.specs.Prelude.{ℕ, ◌<◌, ◌≤◌, drop, length};
    ghost use Rattle.hb_causes.specs.MemSource.{MemSourceState};

    ghost Value = { MemSourceState };

    ghost view = { λ s. record { left = drop s.at s.bytes.items; most = s.most; calls = s.calls } };

    ghost invariant = { λ s. (s.at ≤ length s.bytes.items) × (0 < s.most) };
}

impl MemSource {
    /// A source of `bytes`, at most `most` of them a call. Calls are counted from 1, and those whose
    /// numbers stand in `fails` fail.
    pub fn new(bytes: Vec<u8>, most: usize, fails: Vec<u64>) -> MemSource
        requires { 0 < most }
        ensures { result ≡ new_source bytes.items most fails.items }
    {
        MemSource {
            bytes,
            at: 0,
            most,
            calls: CallLog::new(fails),
        }
    }
}

impl Source for MemSource {
    ghost left = { λ s. Some s.left };

    ghost faults = { λ s. s.calls.faults };

    /// Takes no memory. A failed call leaves `buf` as it was.
    fn read(&mut self, buf: &mut [u8]) -> Result<usize, Failed>
        ensures within { IfOk result (λ n. n ≤ length buf.old) }
        ensures moved { IfOk result (λ n. Moves n self.old.left buf.old buf.new) }
        ensures end { result ≡ Ok 0 → 0 < length buf.old → self.old.left ≡ [] }
        ensures later { self.old.calls.faults ≤ self.new.calls.faults }

        // Exactly when it fails, how much it moves, and what stands after it.
        ensures fails { is_err result ≡ is_due self.old.calls }
        ensures count { IfOk result (λ n. n ≡ read_count self.old (length buf.old)) }
        ensures ok { IfOk result (λ n. self.new ≡ after_read n self.old) }
        ensures err { OnErr result (self.new ≡ after_failed_read self.old) }
        ensures unchanged { OnErr result (buf.new ≡ buf.old) }
    {
        if self.calls.is_due() {
            self.calls.fail();
            return Err(Failed);
        }
        let left = &self.bytes[self.at..];
        let n = self.most.min(left.len().min(buf.len()));
        buf[..n].copy_from_slice(&left[..n]);
        self.at += n;
        self.calls.succeed();
        Ok(n)
    }

    fn faults(&self) -> u64 {
        self.calls.faults()
    }
}

#[cfg(test)]
mod tests {
    use super::*;
    use std::test::Fail;

    // Pieces of at most three bytes, a failing call in the middle, and the end again and again.
    #[test]
    fn gives_its_bytes_in_pieces(rt: HostRuntime) -> Result<(), Fail> {
        let bytes = Vec::from_slice(rt.alloc(), b"abcdefgh")?;
        let fails = Vec::from_slice(rt.alloc(), &[2])?;
        let mut source = MemSource::new(bytes, 3, fails);
        let answers = [
            (4, Ok(3), b"abc."),
            (4, Err(Failed), b"...."),
            (2, Ok(2), b"de.."),
            (4, Ok(3), b"fgh."),
            (4, Ok(0), b"...."),
            (4, Ok(0), b"...."),
        ];
        for (room, answer, after) in answers {
            let mut buf = *b"....";
            let moved = source.read(&mut buf[..room]);
            assert_eq!(rt; moved, answer);
            assert_eq!(rt; buf, *after);
        }
        assert_eq!(rt; source.faults(), 1);
        Ok(())
    }
}
