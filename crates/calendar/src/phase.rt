ghost use Rattle.std.specs.Prelude.{◌≡◌};
ghost use Rattle.calendar.specs.Hours.{phase_number, session_day, phase_of, holds};

// What a calendar answers for a minute. A session's day is the day on which it starts.
#[derive(Clone, Copy, Debug, PartialEq, Eq)]
pub enum Phase {
    Closed,
    PreOpen(u32),
    Matching(u32),
}

impl Phase {
    // The number by which a line of the tape shows it. No cast: two of the cases carry a day.
    pub fn number(&self) -> u32
        ensures { result ≡ phase_number self.now }
    {
        match self {
            Phase::Closed => 0,
            Phase::PreOpen(_) => 1,
            Phase::Matching(_) => 2,
        }
    }

    // The session day, and 0 if closed, as a market shows it.
    pub fn day(&self) -> u32
        ensures { result ≡ session_day self.now }
    {
        match self {
            Phase::Closed => 0,
            Phase::PreOpen(day) | Phase::Matching(day) => *day,
        }
    }
}

// A stretch of minutes with the phase and the session day that hold in it: `from` is inside, `until` outside.
#[derive(Clone, Copy, Debug, PartialEq, Eq)]
pub struct Stretch {
    pub from: u32,
    pub until: u32,
    // A number, as a listed calendar is given it: any other than 1 or 2 means closed.
    pub phase: u32,
    pub day: u32,
}

impl Stretch {
    pub fn holds(&self, minute: u32) -> bool
        ensures { result ≡ holds self.now minute }
    {
        (self.from..self.until).contains(&minute)
    }

    // What it answers for the minutes that it holds: a phase number other than 1 or 2 means closed.
    // No `From`: for any other minute a stretch means no phase.
    pub fn answer(&self) -> Phase
        ensures { result ≡ phase_of self.now.phase self.now.day }
    {
        match self.phase {
            1 => Phase::PreOpen(self.day),
            2 => Phase::Matching(self.day),
            _ => Phase::Closed,
        }
    }
}
