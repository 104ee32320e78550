ghost use Rattle.std.specs.Prelude.{◌≡◌, ◌<◌, length};
ghost use Rattle.calendar.specs.Civil.{year_of};
ghost use Rattle.calendar.specs.KnownHours.{known_hours, KnownHoursHold};
ghost use Rattle.calendar.specs.Sessions.{HoursLaw};
ghost use Rattle.calendar.specs.Timetable.{summer, starts_session, starts_on, hours_of, session_of, phase_in, session_phase, timetable};

use crate::Calendar;
use crate::civil::{Weekday, Year};
use crate::phase::Phase;
use terms::{LAST_MINUTE, MINUTES_A_DAY};

// The two groups of products, whose sessions start together and end at different times.
#[derive(Clone, Copy, Debug, PartialEq, Eq)]
pub enum Group {
    Yen,
    Cross,
}

// A day that the timetable covers, with its year.
#[derive(Clone, Copy)]
struct SessionDay {
    day: u32,
    year: Year,
    ghost covered: { day < 7305 },
    ghost dated: { year.number ≡ year_of day },
}

impl SessionDay {
    fn of(day: u32) -> Self
        requires { day < 7305 }
        ensures { result.day ≡ day }
    {
        SessionDay {
            day,
            year: Year::of(day),
        }
    }

    // Summer lies strictly between the second Sunday of March and the first Sunday of November, 34 weeks later:
    // March to October have 245 days, which is 35 weeks.
    #[tactic(auto, using(crate::proofs::Seasons::summer_from))]
    fn is_summer(self) -> bool
        ensures { result ≡ summer self.day }
    {
        let spring = self.year.second_sunday_of_march();
        spring < self.day && self.day < spring + 34 * 7
    }

    #[tactic(auto, unfolding(crate::specs::Timetable::starts_session))]
    fn starts_session(self) -> bool
        ensures { result ≡ starts_session self.day }
    {
        starts_on(Weekday::of(self.day), self.day, self.year.first_day())
    }

    // What the minute is in the session of the day. Never inlined, so that a minute above the last costs a caller no more than its test.
    #[inline(never)]
    #[tactic(auto, unfolding(crate::specs::Timetable::session_phase))]
    fn phase(self, group: Group, minute: u32) -> Phase
        ensures { result ≡ session_phase group self.day minute }
    {
        if self.starts_session() {
            Session::of(group, self).phase(minute)
        } else {
            Phase::Closed
        }
    }
}

// A Monday is 2 January after a Sunday. By what decides and not by `SessionDay`, as the definition has it.
fn starts_on(weekday: Weekday, day: u32, new_year: u32) -> bool
    requires { new_year < 7305 }
    ensures { result ≡ starts_on weekday day new_year }
{
    match weekday {
        Weekday::Saturday | Weekday::Sunday => false,
        Weekday::Monday => day != new_year && day != new_year + 1,
        _ => day != new_year,
    }
}

// A session's hours, in minutes after 00:00: `pre_open` and `matching` start on its own day, and it ends on the next.
#[derive(Clone, Copy)]
struct SessionHours {
    pre_open: u32,
    matching: u32,
    end: u32,
}

// In summer all but Monday's start is an hour earlier. No session starts at the weekend, whose hours nothing reads.
fn hours_of(group: Group, weekday: Weekday, summer: bool) -> SessionHours
    ensures { result ≡ hours_of group weekday summer }
{
    let earlier = if summer { 60 } else { 0 };
    let (end, friday_end) = match group {
        Group::Yen => (6 * 60 + 55, 6 * 60),
        Group::Cross => (6 * 60 + 25, 5 * 60 + 30),
    };
    let end = match weekday {
        Weekday::Friday => friday_end - earlier,
        _ => end - earlier,
    };
    match weekday {
        Weekday::Saturday | Weekday::Sunday => SessionHours {
            pre_open: 0,
            matching: 0,
            end: 0,
        },
        Weekday::Monday => SessionHours {
            pre_open: 6 * 60 + 10,
            matching: 7 * 60 + 10,
            end,
        },
        _ => SessionHours {
            pre_open: 7 * 60 + 45 - earlier,
            matching: 7 * 60 + 55 - earlier,
            end,
        },
    }
}

// A session in minutes, counted as the days are: no `SessionHours`, which counts from 00:00 and knows no day.
#[derive(Clone, Copy)]
struct Session {
    day: u32,
    pre_open: u32,
    matching: u32,
    end: u32,
}

impl Session {
    // The hours of a session that starts on the day.
    #[tactic(auto, unfolding(crate::specs::Timetable::pre_open_start, crate::specs::Timetable::matching_start, crate::specs::Timetable::session_end))]
    fn of(group: Group, start: SessionDay) -> Self
        ensures { result ≡ session_of group start.day }
    {
        let hours = hours_of(group, Weekday::of(start.day), start.is_summer());
        let midnight = start.day * MINUTES_A_DAY;
        Session {
            day: start.day,
            pre_open: midnight + hours.pre_open,
            matching: midnight + hours.matching,
            end: midnight + MINUTES_A_DAY + hours.end,
        }
    }

    fn phase(&self, minute: u32) -> Phase
        ensures { result ≡ phase_in self.now minute }
    {
        if minute < self.pre_open {
            Phase::Closed
        } else if minute < self.matching {
            Phase::PreOpen(self.day)
        } else if minute < self.end {
            Phase::Matching(self.day)
        } else {
            Phase::Closed
        }
    }
}

// What the session of the minute's own day says, else what that of the day before says.
fn timetable_phase(group: Group, minute: u32) -> Phase
    ensures { result ≡ timetable group minute }
{
    if minute > LAST_MINUTE {
        return Phase::Closed;
    }
    let day = minute / MINUTES_A_DAY;
    match SessionDay::of(day).phase(group, minute) {
        Phase::Closed if day > 0 => SessionDay::of(day - 1).phase(group, minute),
        phase => phase,
    }
}

// The regular hours of a group, from 1 January 2024 to minute 9,999,999, in January 2043.
#[derive(Clone, Copy)]
pub struct Timetable {
    group: Group,
}

impl Timetable {
    pub fn new(group: Group) -> Self
        ensures { result.group ≡ group }
    {
        Timetable { group }
    }
}

impl Calendar for Timetable {
    ghost hours = { λ t. timetable t.group };

    #[tactic(auto, using(crate::proofs::HoursLaw::hours_law))]
    fn phase(&self, minute: u32) -> Phase
        ensures hours { result ≡ timetable self.now.group minute }
        ensures sessions { HoursLaw self.now.group minute result }
    {
        timetable_phase(self.group, minute)
    }
}

// How many minutes the table of known hours has.
#[tactic(auto, using(crate::proofs::Computed::known_hours_hold))]
pub fn known_minutes() -> u32
    ensures hold { KnownHoursHold }
    ensures count { result ≡ length known_hours }
{
    112
}
