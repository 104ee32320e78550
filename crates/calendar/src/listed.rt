ghost use Rattle.std.specs.Prelude.{◌≡◌, ℕ, find};
ghost use Rattle.calendar.specs.declared.phase.Phase.{Phase};
ghost use Rattle.calendar.specs.Hours.{holds, listed};

use crate::Calendar;
use crate::phase::{Phase, Stretch};

// The first stretch of a given list that holds the minute answers.
#[derive(Clone, Copy)]
pub struct Listed<'a> {
    stretches: &'a [Stretch],
}

impl<'a> Listed<'a> {
    pub fn new(stretches: &'a [Stretch]) -> Self
        ensures { result.stretches.now ≡ stretches.now }
    {
        Listed { stretches }
    }
}

// The first stretch that holds the minute.
fn first_holding(stretches: &[Stretch], minute: u32) -> Option<Stretch>
    ensures { result ≡ find (λ s. holds s minute) stretches.now }
{
    stretches.iter().copied().find(|s| s.holds(minute))
}

impl Calendar for Listed<'_> {
    ghost hours = { λ c. listed c.stretches.now };

    #[tactic(auto, using(crate::proofs::Stretches::listed_is))]
    fn phase(&self, minute: u32) -> Phase {
        first_holding(self.stretches, minute).map_or(Phase::Closed, |s| s.answer())
    }
}
