//! Standard input as a source.
ghost use Rattle.std.specs.Prelude.{◌≡◌, ◌≤◌, length, None, IfOk, OnOk, OnErr, IfSome};
ghost use Rattle.hb_causes.specs.Faults.{next};

use crate::failed::Failed;
use crate::source::Source;
use std::io::{ErrorKind, Read};
use std::marker::Model;

/// Standard input. It doesn't tell the bytes that it has left; a contract sees how many of its calls
/// have failed.
#[derive(Drop)]
pub struct StdSource<S> {
    reader: S,
    faults: u64,
}

impl<S> Model for StdSource<S> {
    ghost use Rattle.std.specs.Prelude.{ℕ};

    ghost Value = { ℕ };

    ghost view = { λ s. s.faults };
}

impl<S: Read> StdSource<S> {
    /// The standard input of this runtime. Its reader is asked for here, once.
    pub fn new<R: Input<Reader = S>>(rt: &R) -> StdSource<S>
        ensures { result ≡ 0 }
    {
        StdSource {
            reader: rt.reader(),
            faults: 0,
        }
    }
}

impl<S: Read> Source for StdSource<S> {
    ghost left = { λ _. None };

    ghost faults = { λ s. s };

    /// Reads once from the system, and again where a signal interrupted it. No clause says which bytes the
    /// system gives.
    fn read(&mut self, buf: &mut [u8]) -> Result<usize, Failed>
        ensures within { IfOk result (λ n. n ≤ length buf.old) }
        ensures later { self.old ≤ self.new }

        // The count moves with each failure, and with nothing else.
        ensures same { OnOk result (self.new ≡ self.old) }
        ensures counted { OnErr result (self.new ≡ next self.old) }
    {
        if let Some(n) = read_retrying(&mut self.reader, buf) {
            return Ok(n);
        }
        self.faults = self.faults.saturating_add(1);
        Err(Failed)
    }

    fn faults(&self) -> u64 {
        self.faults
    }
}

// One read that no signal interrupted, or none where it failed.
fn read_retrying<S: Read>(reader: &mut S, buf: &mut [u8]) -> Option<usize>
    ensures { IfSome result (λ n. n ≤ length buf.old) }
{
    for _ in 0..u64::MAX {
        match reader.read(buf) {
            Ok(n) => return Some(n),
            Err(error) if error.kind() == ErrorKind::Interrupted => {}
            Err(_) => return None,
        }
    }
    None
}

#[cfg(test)]
mod tests {
    use super::*;
    use std::alloc::Allocator;
    use std::io;
    use std::io::{BufRead, Lines};

    // What a reader does at one call.
    #[derive(Clone, Copy)]
    enum Turn {
        Gives(&'static [u8]),
        Ends,
        IsInterrupted,
        Fails,
    }

    // A system whose reader takes these turns, and is at its end behind them.
    #[derive(Drop)]
    struct Turns {
        turns: &'static [Turn],
    }

    struct System;

    impl Read for Turns {
        fn read(&mut self, buf: &mut [u8]) -> io::Result<usize> {
            let Some((turn, rest)) = self.turns.split_first() else {
                return Ok(0);
            };
            self.turns = rest;
            match turn {
                Turn::Gives(bytes) => {
                    let n = bytes.len().min(buf.len());
                    buf[..n].copy_from_slice(&bytes[..n]);
                    Ok(n)
                }
                Turn::Ends => Ok(0),
                Turn::IsInterrupted => Err(ErrorKind::Interrupted.into()),
                Turn::Fails => Err(ErrorKind::Other.into()),
            }
        }
    }

    impl BufRead for Turns {
        fn fill_buf(&mut self) -> io::Result<&[u8]> {
            Ok(&[])
        }

        fn consume(&mut self, _amount: usize) {}
    }

    const TURNS: &[Turn] = &[
        Turn::Gives(b"abc"),
        Turn::IsInterrupted,
        Turn::IsInterrupted,
        Turn::Gives(b"de"),
        Turn::Fails,
        Turn::Gives(b"f"),
        Turn::Ends,
    ];

    impl Input for System {
        type Reader = Turns;

        fn read_line<A: Allocator + Clone>(&self, _line: &mut String<A>) -> io::Result<usize> {
            Ok(0)
        }

        fn lines<A: Allocator>(&self, alloc: A) -> Lines<Turns, A> {
            self.reader().lines(alloc)
        }

        fn reader(&self) -> Turns {
            Turns { turns: TURNS }
        }
    }

    // An interrupted call is tried again; a fault is no end of the input; the reader goes on where it was.
    #[test]
    fn reads_past_a_fault(rt: HostRuntime) {
        let mut source = StdSource::new(&System);
        let calls = [
            (Ok(3), b"abc", 0),
            (Ok(2), b"de-", 0),
            (Err(Failed), b"---", 1),
            (Ok(1), b"f--", 1),
            (Ok(0), b"---", 1),
        ];
        for (answer, moved, faults) in calls {
            let mut buf = [b'-'; 3];
            assert_eq!(rt; source.read(&mut buf), answer);
            assert_eq!(rt; &buf, moved);
            assert_eq!(rt; source.faults(), faults);
        }
    }

    #[test]
    fn asks_the_system_for_nothing(rt: HostRuntime) {
        let mut source = StdSource::new(&rt);
        assert_eq!(rt; source.read(&mut []), Ok(0));
        assert_eq!(rt; source.faults(), 0);
    }
}
