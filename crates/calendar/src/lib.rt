// The hours of a venue: for each minute since 00:00 Tokyo time on Monday 1 January 2024, the phase and the session day.
#![tactic(auto)]

ghost use Rattle.std.specs.Prelude.{◌≡◌, ℕ};
ghost use Rattle.calendar.specs.declared.phase.Phase.{Phase};

pub mod civil;
pub mod closing;
pub mod listed;
pub mod phase;
#[cfg(test)]
mod tests;
pub mod timetable;

pub use civil::Weekday;
pub use closing::Closing;
pub use listed::Listed;
pub use phase::{Phase, Stretch};
pub use timetable::{Group, Timetable, known_minutes};

pub trait Calendar {
    // The whole meaning of a calendar: what it answers for each minute.
    ghost hours: { Self → ℕ → Phase };

    fn phase(&self, minute: u32) -> Phase
        ensures { result ≡ hours self.now minute };
}
