//! The machine's clock.

ghost use Rattle.std.specs.Prelude.{◌≡◌, ◌-◌, ◌/◌, ◌<◌, ◌≤◌, ◌^◌, None, min};
ghost use Rattle.std.specs.Time.{instant_nanos};

use crate::clock::{Clock, LAST_MOMENT};
use crate::failed::Failed;
use crate::faults::Faults;
use std::time;
use std::time::Instant;

/// The runtime's clock. Its moments are the milliseconds since its first call. It tells none of them.
#[derive(Drop)]
pub struct RealClock<'a, R> {
    rt: &'a R,
    start: Option<Instant>,
    faults: Faults,
}

impl<'a, R: time::Clock> RealClock<'a, R> {
    pub fn new(rt: &'a R) -> RealClock<'a, R>
        ensures { ⟦<RealClock<'a, R> as Clock>⟧.faults result ≡ 0 }
    {
        RealClock {
            rt,
            start: None,
            faults: Faults::new(),
        }
    }
}

impl<R: time::Clock> Clock for RealClock<'_, R> {
    ghost faults = { λ s. s.faults.count };

    ghost moments = { λ _. None };

    ghost stays = { λ _ _. Unit {0} };

    fn now(&mut self) -> Result<u64, Failed> {
        let Ok(now) = Instant::now(self.rt) else {
            return Err(self.faults.raise());
        };
        let start = *self.start.get_or_insert(now);
        Ok(moment_of(start, now))
    }

    ghost stays_same = { λ _. tt };

    ghost stays_on = { λ _ _ _ _ _. tt };
}

/// The whole milliseconds from the one to the other, and at most the last moment.
fn moment_of(start: Instant, now: Instant) -> u64
    ensures { result ≡ min ((instant_nanos now - instant_nanos start) / 1_000_000) (2 ^ 62 - 1) }
{
    let passed = now.duration_since(start).as_millis();
    passed.min(u128::from(LAST_MOMENT)) as u64
}
