// The civil calendar, from Monday 1 January 2024 on, which is day 0.
ghost use Rattle.std.specs.Prelude.{◌≡◌, ◌+◌, ◌<◌, ◌≤◌};
ghost use Rattle.calendar.specs.Civil.{weekday, year_of, first_day_of_year, first_day_of_month, march, first_sunday_from, nth_sunday};

#[derive(Clone, Copy, Debug, PartialEq, Eq)]
pub enum Weekday {
    Monday,
    Tuesday,
    Wednesday,
    Thursday,
    Friday,
    Saturday,
    Sunday,
}

impl Weekday {
    pub fn of(day: u32) -> Weekday
        ensures { result ≡ weekday day }
    {
        // No table of the seven: it would need a cast and an index besides.
        match day % 7 {
            0 => Weekday::Monday,
            1 => Weekday::Tuesday,
            2 => Weekday::Wednesday,
            3 => Weekday::Thursday,
            4 => Weekday::Friday,
            5 => Weekday::Saturday,
            _ => Weekday::Sunday,
        }
    }
}

// A year from 2024 to 2043.
#[derive(Clone, Copy)]
pub(crate) struct Year {
    number: u32,
    ghost from: { 2024 ≤ number },
    ghost until: { number < 2044 },
}

impl Year {
    // The year of a day. Day 7305 is 1 January 2044.
    #[tactic(auto, using(crate::proofs::Years::year_by_division))]
    pub(crate) fn of(day: u32) -> Self
        requires { day < 7305 }
        ensures { result.number ≡ year_of day }
    {
        Year {
            number: 2024 + 4 * (day / 1461) + (day % 1461).saturating_sub(1) / 365,
        }
    }

    // 1 January.
    #[tactic(auto, using(crate::proofs::Years::first_day_is))]
    pub(crate) fn first_day(self) -> u32
        ensures low { result < 7305 }
        ensures first { result ≡ first_day_of_year self.number }
    {
        let years = self.number - 2024;
        365 * years + (years + 3) / 4
    }

    #[tactic(auto, using(crate::proofs::Seasons::march_is))]
    fn first_of_march(self) -> u32
        ensures low { result < 7400 }
        ensures first { result ≡ first_day_of_month self.number march }
    {
        self.first_day() + 31 + 28 + u32::from(self.number % 4 == 0)
    }

    pub(crate) fn second_sunday_of_march(self) -> u32
        ensures low { result < 8000 + 14 }
        ensures sunday { result ≡ nth_sunday 2 self.number march }
    {
        sunday_from(self.first_of_march()) + 7
    }
}

// The first Sunday that is not before the day.
#[tactic(auto, unfolding(crate::specs::Civil::first_sunday_from))]
fn sunday_from(day: u32) -> u32
    requires { day < 8000 }
    ensures low { result < 8000 + 7 }
    ensures sunday { result ≡ first_sunday_from day }
{
    day + (6 - day % 7)
}
