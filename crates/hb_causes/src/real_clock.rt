//! The system's clock.
ghost use Rattle.std.specs.Prelude.{◌≡◌, None};

use crate::clock::Clock;
use std::marker::Model;
use std::rt;
use std::time::{SystemTime, UNIX_EPOCH};

/// The system's clock. It doesn't tell the moments that it has given; a contract sees the runtime that it
/// asks.
#[derive(Drop)]
pub struct RealClock<R> {
    rt: R,
}

impl<R> Model for RealClock<R> {
    ghost Value = { R };

    ghost view = { λ c. c.rt };
}

impl<R> RealClock<R> {
    /// The clock of this runtime.
    pub fn new(rt: R) -> RealClock<R>
        ensures { result ≡ rt }
    {
        RealClock { rt }
    }
}

impl<R: rt::Clock> Clock for RealClock<R> {
    ghost moments = { λ _. None };

    /// The milliseconds since 1970, up to the last value of a `u64`; 0 where the clock cannot be read or
    /// stands before 1970.
    fn now(&mut self) -> u64 {
        let Ok(time) = SystemTime::now(&self.rt) else {
            return 0;
        };
        let Ok(since_1970) = time.duration_since(UNIX_EPOCH) else {
            return 0;
        };
        u64::try_from(since_1970.as_millis()).unwrap_or(u64::MAX)
    }
}

#[cfg(test)]
mod tests {
    use super::*;
    use std::io;
    use std::io::ErrorKind;
    use std::time::Duration;

    // A system whose clock stands at a moment, or cannot be read.
    #[derive(Drop)]
    struct System {
        stands_at: Option<Duration>,
    }

    impl rt::Clock for System {
        fn monotonic(&self) -> io::Result<Duration> {
            Ok(Duration::from_secs(1))
        }

        fn since_1970(&self) -> io::Result<Duration> {
            match self.stands_at {
                Some(moment) => Ok(moment),
                None => Err(ErrorKind::Other.into()),
            }
        }
    }

    #[test]
    fn gives_whole_milliseconds(rt: HostRuntime) {
        let moments = [
            (Some(Duration::from_nanos(1_999_999)), 1),
            (Some(Duration::new(86_400, 5_000_000)), 86_400_005),
            (None, 0),
        ];
        for (stands_at, milliseconds) in moments {
            let mut clock = RealClock::new(System { stands_at });
            assert_eq!(rt; clock.now(), milliseconds);
        }
    }

    // After September 2020, and before the year 2286.
    #[test]
    fn counts_milliseconds(rt: HostRuntime) {
        let mut clock = RealClock::new(rt);
        let now = clock.now();
        assert!(rt; 1_600_000_000_000 < now && now < 10_000_000_000_000);
    }
}
