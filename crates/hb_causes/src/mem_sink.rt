//! A sink in memory.
ghost use Rattle.std.specs.Prelude.{◌≡◌, ◌<◌, ◌≤◌, length, take, Some, is_err, IfOk, OnErr};
ghost use Rattle.hb_causes.specs.MemSink.{new_sink, is_refusing, write_count, after_write, after_failed_write};

use crate::calls::CallLog;
use crate::failed::Failed;
use crate::sink::Sink;
use std::alloc::{AllocError, Global};
use std::marker::Model;

/// Takes up to a given number of bytes, in pieces of a bounded length, and fails when it is full and at
/// the calls that are listed.
#[derive(Drop)]
pub struct MemSink {
    bytes: Vec<u8>,
    room: usize,
    most: usize,
    calls: CallLog,
}

impl Model for MemSink {
    ghost use Rattle.std.specs.Prelude.{ℕ, ◌<◌, ◌≤◌, vec_len, vec_capacity};
    ghost use Rattle.hb_causes.specs.MemSink.{MemSinkState};

    ghost Value = { MemSinkState };

    ghost view = { λ s. record { written = s.bytes.items; room = s.room; most = s.most; calls = s.calls } };

    ghost invariant = { λ s. (vec_len s.bytes ≤ s.room) × (s.room ≤ vec_capacity s.bytes) × (0 < s.most) };
}

impl MemSink {
    /// A sink for `room` bytes, whose memory is taken here, at most `most` of them a call. Calls are
    /// counted from 1, and those whose numbers stand in `fails` fail.
    pub fn new(
        alloc: Global,
        room: usize,
        most: usize,
        fails: Vec<u64>,
    ) -> Result<MemSink, AllocError>
        requires { 0 < most }
        ensures { IfOk result (λ s. s ≡ new_sink room most fails.items) }
    {
        Ok(MemSink {
            bytes: Vec::with_capacity(alloc, room)?,
            room,
            most,
            calls: CallLog::new(fails),
        })
    }

    /// What was written.
    pub fn into_bytes(self) -> Vec<u8>
        ensures { result.items ≡ self.written }
    {
        self.bytes
    }
}

impl Sink for MemSink {
    ghost written = { λ s. Some s.written };

    ghost faults = { λ s. s.calls.faults };

    /// Takes no memory. A write to a full sink fails, also one of no bytes.
    fn write(&mut self, bytes: &[u8]) -> Result<usize, Failed>
        ensures within { IfOk result (λ n. n ≤ length bytes.now) }
        ensures some { 0 < length bytes.now → IfOk result (λ n. 0 < n) }
        ensures later { self.old.calls.faults ≤ self.new.calls.faults }

        // Exactly when it fails, how much it takes, and what stands after it.
        ensures fails { is_err result ≡ is_refusing self.old }
        ensures count { IfOk result (λ n. n ≡ write_count self.old (length bytes.now)) }
        ensures ok { IfOk result (λ n. self.new ≡ after_write (take n bytes.now) self.old) }
        ensures err { OnErr result (self.new ≡ after_failed_write self.old) }
    {
        if self.calls.is_due() || self.bytes.len() == self.room {
            self.calls.fail();
            return Err(Failed);
        }
        let room = self.room - self.bytes.len();
        let n = self.most.min(bytes.len().min(room));
        self.bytes.extend_from_slice(&bytes[..n]).unwrap();
        self.calls.succeed();
        Ok(n)
    }

    fn faults(&self) -> u64 {
        self.calls.faults()
    }
}

#[cfg(test)]
mod tests {
    use super::*;
    use std::test::Fail;

    // Pieces of at most three bytes, a failing call, and a full sink.
    #[test]
    fn takes_bytes_up_to_its_room(rt: HostRuntime) -> Result<(), Fail> {
        let fails = Vec::from_slice(rt.alloc(), &[2])?;
        let mut sink = MemSink::new(rt.alloc(), 5, 3, fails)?;
        let answers = [
            (b"abcd", Ok(3)),
            (b"defg", Err(Failed)),
            (b"defg", Ok(2)),
            (b"fghi", Err(Failed)),
        ];
        for (piece, answer) in answers {
            assert_eq!(rt; sink.write(piece), answer);
        }
        assert_eq!(rt; sink.write(b""), Err(Failed));
        assert_eq!(rt; sink.faults(), 3);
        assert_eq!(rt; sink.into_bytes().as_slice(), b"abcde".as_slice());
        Ok(())
    }
}
