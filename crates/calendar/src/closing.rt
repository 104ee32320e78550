ghost use Rattle.std.specs.Prelude.{◌≡◌, ℕ};
ghost use Rattle.calendar.specs.declared.phase.Phase.{Phase};
ghost use Rattle.calendar.specs.Hours.{closing};

use crate::Calendar;
use crate::phase::Phase;

// Closed where the calendar below answers one given day, else what that one answers.
#[derive(Drop)]
pub struct Closing<C> {
    below: C,
    day: u32,
}

impl<C: Calendar> Closing<C> {
    pub fn new(below: C, day: u32) -> Self
        ensures below { result.below ≡ below }
        ensures day { result.day ≡ day }
    {
        Closing { below, day }
    }
}

impl<C: Calendar> Calendar for Closing<C> {
    ghost hours = { λ c. closing (C.Calendar.hours c.below) c.day };

    fn phase(&self, minute: u32) -> Phase {
        match self.below.phase(minute) {
            Phase::PreOpen(day) | Phase::Matching(day) if day == self.day => Phase::Closed,
            phase => phase,
        }
    }
}
