//! The machine's source of random bytes.

ghost use Rattle.std.specs.Prelude.{◌≡◌, ◌≤◌, None};

use crate::chance::Chance;
use crate::failed::Failed;
use crate::faults::Faults;
use std::random::RandomSource;

/// The runtime's random bytes. It tells none of them.
#[derive(Drop)]
pub struct RealChance<'a, R> {
    rt: &'a R,
    faults: Faults,
}

impl<'a, R: RandomSource> RealChance<'a, R> {
    pub fn new(rt: &'a R) -> RealChance<'a, R>
        ensures { ⟦<RealChance<'a, R> as Chance>⟧.faults result ≡ 0 }
    {
        RealChance {
            rt,
            faults: Faults::new(),
        }
    }
}

impl<R: RandomSource> Chance for RealChance<'_, R> {
    ghost faults = { λ s. s.faults.count };

    ghost words = { λ _. None };

    ghost stays = { λ _ _. Unit {0} };

    fn sixteen(&mut self, out: &mut [u8; 16]) -> Result<(), Failed> {
        let Ok(()) = self.rt.fill_bytes(out) else {
            return Err(self.faults.raise());
        };
        Ok(())
    }

    ghost stays_same = { λ _. tt };

    ghost stays_on = { λ _ _ _ _ _. tt };
}
