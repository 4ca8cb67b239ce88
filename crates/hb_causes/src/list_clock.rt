//! A clock with a list of moments.
ghost use Rattle.std.specs.Prelude.{◌≡◌, [], Some};
ghost use Rattle.hb_causes.specs.ListClock.{next_moment, after_moment};

use crate::clock::Clock;
use crate::history::History;
use std::marker::Model;

/// Gives the moments that it was made with in their order, then the last one again and again, and 0 where
/// there is none.
#[derive(Drop)]
pub struct ListClock {
    moments: Vec<u64>,
    at: usize,
    given: History,
}

impl Model for ListClock {
    ghost use Rattle.std.specs.Prelude.{◌≡◌, ◌-◌, min, length};
    ghost use Rattle.hb_causes.specs.ListClock.{ListClockState};

    ghost Value = { ListClockState };

    ghost view = { λ c. record { moments = c.moments.items; given = c.given } };

    ghost invariant = { λ c. c.at ≡ min (length c.given) (length c.moments.items - 1) };
}

impl ListClock {
    /// A clock that has given nothing yet.
    pub fn new(moments: Vec<u64>) -> ListClock
        ensures { result ≡ record { moments = moments.items; given = [] } }
    {
        ListClock {
            moments,
            at: 0,
            given: History::new(),
        }
    }
}

impl Clock for ListClock {
    ghost moments = { λ c. Some c.given };

    fn now(&mut self) -> u64
        ensures moment { result ≡ next_moment self.old }
        ensures after { self.new ≡ after_moment result self.old }
    {
        let moment = self.moments.get(self.at).copied().unwrap_or(0);
        if self.at + 1 < self.moments.len() {
            self.at += 1;
        }
        self.given.add(moment);
        moment
    }
}

#[cfg(test)]
mod tests {
    use super::*;
    use std::test::Fail;

    #[test]
    fn keeps_to_its_last_moment(rt: HostRuntime) -> Result<(), Fail> {
        let mut clock = ListClock::new(Vec::from_slice(rt.alloc(), &[5, 3])?);
        for moment in [5, 3, 3, 3] {
            assert_eq!(rt; clock.now(), moment);
        }
        assert_eq!(rt; ListClock::new(Vec::new(rt.alloc())).now(), 0);
        Ok(())
    }
}
