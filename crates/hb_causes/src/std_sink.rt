//! Standard output as a sink.
ghost use Rattle.std.specs.Prelude.{◌≡◌, ◌<◌, ◌≤◌, length, None, IfOk, OnOk, OnErr, IfSome};
ghost use Rattle.hb_causes.specs.Faults.{next};

use crate::failed::Failed;
use crate::sink::Sink;
use std::io::ErrorKind;
use std::marker::Model;

/// Standard output. It doesn't tell what was written; a contract sees how many of its calls have failed.
#[derive(Drop)]
pub struct StdSink<R> {
    rt: R,
    faults: u64,
}

impl<R> Model for StdSink<R> {
    ghost use Rattle.std.specs.Prelude.{ℕ};

    ghost Value = { ℕ };

    ghost view = { λ s. s.faults };
}

impl<R> StdSink<R> {
    /// The standard output of this runtime.
    pub fn new(rt: R) -> StdSink<R>
        ensures { result ≡ 0 }
    {
        StdSink { rt, faults: 0 }
    }
}

impl<R: Print> Sink for StdSink<R> {
    ghost written = { λ _. None };

    ghost faults = { λ s. s };

    /// Writes once, with no buffer, and again where a signal interrupted it: what it takes is handed to the
    /// system. A system that takes nothing of a piece that is not empty has failed. No clause says what the
    /// system does with the bytes.
    fn write(&mut self, bytes: &[u8]) -> Result<usize, Failed>
        ensures within { IfOk result (λ n. n ≤ length bytes.now) }
        ensures some { 0 < length bytes.now → IfOk result (λ n. 0 < n) }
        ensures later { self.old ≤ self.new }

        // The count moves with each failure, and with nothing else.
        ensures same { OnOk result (self.new ≡ self.old) }
        ensures counted { OnErr result (self.new ≡ next self.old) }
    {
        match write_retrying(&self.rt, bytes) {
            Some(n) if n > 0 || bytes.is_empty() => Ok(n),
            _ => {
                self.faults = self.faults.saturating_add(1);
                Err(Failed)
            }
        }
    }

    fn faults(&self) -> u64 {
        self.faults
    }
}

// One write that no signal interrupted, or none where it failed.
fn write_retrying<R: Print>(rt: &R, bytes: &[u8]) -> Option<usize>
    ensures { IfSome result (λ n. n ≤ length bytes.now) }
{
    for _ in 0..u64::MAX {
        match rt.write_some(bytes) {
            Ok(n) => return Some(n),
            Err(error) if error.kind() == ErrorKind::Interrupted => {}
            Err(_) => return None,
        }
    }
    None
}

#[cfg(test)]
mod tests {
    use super::*;
    use std::cell::Cell;
    use std::fmt::Display;
    use std::io;

    // What a system does at one call: it takes so many bytes at most, or is interrupted, or fails.
    #[derive(Clone, Copy)]
    enum Turn {
        Takes(usize),
        IsInterrupted,
        Fails,
    }

    // A system that takes these turns in their order, and fails behind them.
    #[derive(Drop)]
    struct System {
        turns: [Turn; 7],
        made: Cell<usize>,
    }

    impl Print for System {
        fn print<D: Display + Drop>(&self, _value: D) -> io::Result<()> {
            Ok(())
        }

        fn println<D: Display + Drop>(&self, _value: D) -> io::Result<()> {
            Ok(())
        }

        fn write_all(&self, _bytes: &[u8]) -> io::Result<()> {
            Ok(())
        }

        fn write_some(&self, bytes: &[u8]) -> io::Result<usize> {
            let number = self.made.get();
            self.made.set(number.saturating_add(1));
            match self.turns.get(number) {
                Some(Turn::Takes(most)) => Ok(bytes.len().min(*most)),
                Some(Turn::IsInterrupted) => Err(ErrorKind::Interrupted.into()),
                Some(Turn::Fails) | None => Err(ErrorKind::Other.into()),
            }
        }
    }

    // An interrupted call is tried again; a short write is answered by its count, and a fault as one.
    #[test]
    fn writes_past_a_fault(rt: HostRuntime) {
        let system = System {
            turns: [
                Turn::Takes(2),
                Turn::IsInterrupted,
                Turn::IsInterrupted,
                Turn::Takes(9),
                Turn::Fails,
                Turn::Takes(0),
                Turn::Takes(1),
            ],
            made: Cell::new(0),
        };
        let mut sink = StdSink::new(&system);
        let calls = [
            (Ok(2), 0, 1),
            (Ok(5), 0, 4),
            (Err(Failed), 1, 5),
            (Err(Failed), 2, 6),
            (Ok(1), 2, 7),
        ];
        for (answer, faults, made) in calls {
            assert_eq!(rt; sink.write(b"abcde"), answer);
            assert_eq!(rt; sink.faults(), faults);
            assert_eq!(rt; system.made.get(), made);
        }
    }

    #[test]
    fn sends_a_line_end(rt: HostRuntime) {
        let mut sink = StdSink::new(rt);
        assert_eq!(rt; sink.write(b""), Ok(0));
        assert_eq!(rt; sink.write(b"\n"), Ok(1));
        assert_eq!(rt; sink.faults(), 0);
    }
}
