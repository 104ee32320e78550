// A market over any calendar. Each call does what the step of the machine does.
#![tactic(auto)]

ghost use Rattle.std.specs.Prelude.{◌≡◌, length, Some, None, MatchResult};
ghost use Rattle.machine.specs.Laws.{TurnLaw};
ghost use Rattle.machine.specs.Machine.{start, step, turn_refusal};
ghost use Rattle.machine.specs.declared.words.Call.TheVariants.{Turn};
ghost use Rattle.market.specs.Plays.{state_of, held_of, Plays};

use calendar::{Calendar, Phase};
use machine::{Call, Line, Refusal};
use terms::{LAST_MINUTE, LEAST_ROOM, MOMENT_LIMIT};

#[cfg(test)]
mod tests;

// What a market holds between calls: the minute and phase of the last turn, the session day (0 if closed),
// and the moment, which each accepted call raises by one. The day stands in the phase too: a caller is spared to look.
#[derive(Clone, Copy)]
pub struct Held {
    pub minute: u32,
    pub phase: Phase,
    pub day: u32,
    pub moment: u32,
}

// Flat, as `Held` without its day: a struct for the three fields would only lengthen each use.
#[derive(Drop)]
pub struct Market<C> {
    calendar: C,
    minute: u32,
    phase: Phase,
    moment: u32,
}

impl<C: Calendar> Market<C> {
    // Closed at minute 0, before the first moment.
    pub fn new(calendar: C) -> Self
        ensures state { state_of result ≡ start }
        ensures calendar { result.calendar ≡ calendar }
    {
        Market {
            calendar,
            minute: 0,
            phase: Phase::Closed,
            moment: 0,
        }
    }

    pub fn held(&self) -> Held
        ensures { result ≡ held_of (state_of self.now) }
    {
        Held {
            minute: self.minute,
            phase: self.phase,
            day: self.phase.day(),
            moment: self.moment,
        }
    }

    // Plays one call on a tape: how many lines it wrote, from the front, or why it is refused.
    pub fn apply(&mut self, call: Call, tape: &mut [Line]) -> Result<usize, Refusal>
        ensures { Plays (step (C.Calendar.hours self.old.calendar) (length tape.old) call (state_of self.old)) self.old tape.old result self.new tape.new }
    {
        match call {
            Call::Turn { minute } => self.turn(minute, tape),
        }
    }

    // The tests of a turn on a tape with room for so many lines, in their order.
    fn may_turn(&self, minute: u32, room: usize) -> Result<(), Refusal>
        ensures { MatchResult result (λ _. turn_refusal room minute (state_of self.now) ≡ None) (λ why. turn_refusal room minute (state_of self.now) ≡ Some why) }
    {
        if room < LEAST_ROOM {
            return Err(Refusal::TapeTooShort);
        }
        if self.moment >= MOMENT_LIMIT {
            return Err(Refusal::MomentsSpent);
        }
        if minute > LAST_MINUTE {
            return Err(Refusal::MinuteTooLate);
        }
        if minute < self.minute {
            return Err(Refusal::MinuteBeforeHeld);
        }
        Ok(())
    }

    // Asks the calendar for the minute, writes T, and holds the minute with the answer.
    pub fn turn(&mut self, minute: u32, tape: &mut [Line]) -> Result<usize, Refusal>
        ensures step { Plays (step (C.Calendar.hours self.old.calendar) (length tape.old) (Turn minute) (state_of self.old)) self.old tape.old result self.new tape.new }
        ensures law { TurnLaw (C.Calendar.hours self.old.calendar) (length tape.old) minute (state_of self.old) (step (C.Calendar.hours self.old.calendar) (length tape.old) (Turn minute) (state_of self.old)) }
    {
        self.may_turn(minute, tape.len())?;
        // by case, as what a turn does to orders goes by both phases; a market without orders only holds the answer
        match (self.phase, self.calendar.phase(minute)) {
            // nothing to close
            (Phase::Closed, Phase::Closed) => {}
            // the session has ended
            (_, Phase::Closed) => self.phase = Phase::Closed,
            // a session opens, goes on, or follows on another
            (_, next) => self.phase = next,
        }
        self.minute = minute;
        self.moment += 1;
        tape[0] = Line::turn(self.phase, self.moment);
        Ok(1)
    }
}
