//! A clock that ticks, or asks another clock.
ghost use Rattle.std.specs.Prelude.{◌≡◌, ◌+◌, [], length, IfSome, OnSome, IfNone};
ghost use Rattle.hb_causes.specs.Clock.{with_moment};
ghost use Rattle.hb_causes.specs.Ticker.{tick_at, told_moments, after_tick, after_asking};

use crate::clock::Clock;
use crate::history::History;
use std::marker::Model;

/// With a tick, a clock that goes on by one tick at each call; without one, the clock that it was made with.
#[derive(Drop)]
pub struct Ticker<C> {
    inner: C,
    tick: Option<u64>,
    calls: u64,
    given: History,
}

impl<C> Model for Ticker<C> {
    ghost use Rattle.std.specs.Prelude.{◌≡◌, min, length};
    ghost use Rattle.std.specs.Coded.{codes};
    ghost use Rattle.hb_causes.specs.Faults.{last_count};
    ghost use Rattle.hb_causes.specs.Ticker.{TickerState};

    ghost Value = { TickerState C };

    ghost coded = { Prim.hlevel (codes, C.code) };

    ghost view = { λ t. record { inner = t.inner; tick = t.tick; given = t.given } };

    ghost invariant = { λ t. t.calls ≡ min (length t.given) last_count };
}

impl<C> Ticker<C> {
    /// With a tick, a clock that gives one tick at its first call; without one, `inner` itself.
    pub fn new(inner: C, tick: Option<u64>) -> Ticker<C>
        ensures { result ≡ record { inner = inner; tick = tick; given = [] } }
    {
        Ticker {
            inner,
            tick,
            calls: 0,
            given: History::new(),
        }
    }

    /// The clock that it was made with.
    pub fn into_inner(self) -> C
        ensures { result ≡ self.inner }
    {
        let Self {
            inner,
            tick: _,
            calls: _,
            given: _,
        } = self;
        inner
    }
}

#[tactic(auto, using(crate::proofs::Saturating::counted_product))]
impl<C: Clock> Clock for Ticker<C> {
    ghost moments = { λ t. told_moments t.tick t.given (C.moments t.inner) };

    /// With a tick, does not ask the inner clock.
    fn now(&mut self) -> u64
        ensures ticks { IfSome self.old.tick (λ tick. result ≡ tick_at tick (length self.old.given + 1)) }
        ensures after { OnSome self.old.tick (self.new ≡ after_tick result self.old) }
        ensures asks { IfNone self.old.tick (C.moments self.new.inner ≡ with_moment result (C.moments self.old.inner)) }
        ensures same { IfNone self.old.tick (self.new ≡ after_asking self.new.inner self.old) }
    {
        let Some(tick) = self.tick else {
            return self.inner.now();
        };
        self.calls = self.calls.saturating_add(1);
        let moment = self.calls.saturating_mul(tick);
        self.given.add(moment);
        moment
    }
}

#[cfg(test)]
mod tests {
    use super::*;
    use crate::list_clock::ListClock;
    use std::test::Fail;
    use std::thread;

    // A tick, a tick too long for a second one, no tick, and the inner clock afterwards.
    #[test]
    fn ticks_or_asks(rt: HostRuntime) -> Result<(), Fail> {
        let cases = [
            (Some(10), [10, 20, 30], 7),
            (Some(u64::MAX), [u64::MAX; 3], 7),
            (None, [7, 8, 9], 9),
        ];
        for (tick, moments, inner) in cases {
            let list = ListClock::new(Vec::from_slice(rt.alloc(), &[7, 8, 9])?);
            let mut clock = Ticker::new(list, tick);
            for moment in moments {
                assert_eq!(rt; clock.now(), moment, "with {tick:?}");
            }
            assert_eq!(rt; clock.into_inner().now(), inner, "after {tick:?}");
        }
        Ok(())
    }
}
