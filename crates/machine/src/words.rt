// The words of the market.
ghost use Rattle.std.specs.Prelude.{◌≡◌};

use calendar::Phase;

// One call of a venue.
#[derive(Clone, Copy, Debug, PartialEq, Eq)]
pub enum Call {
    Turn { minute: u32 },
}

// Why a call is refused, by its number.
#[derive(Clone, Copy, Debug, PartialEq, Eq)]
pub enum Refusal {
    TapeTooShort = 1,
    MomentsSpent = 2,
    MinuteTooLate = 3,
    MinuteBeforeHeld = 4,
}

impl Refusal {
    ghost use Rattle.machine.specs.Words.{refusal_number};

    pub fn number(&self) -> u32
        ensures { result ≡ refusal_number self.now }
    {
        *self as u32
    }
}

// One line of the tape. A field that its kind does not name is 0.
// `kind` and `side` are numbers, as a line is kept: a kind may be one that has no letter, and a side 0, where there is none.
#[derive(Clone, Copy, Debug, PartialEq, Eq)]
pub struct Line {
    pub kind: u8,
    pub number: u32,
    pub party: u32,
    pub side: u8,
    pub price: u32,
    pub size: u32,
    pub moment: u32,
}

impl Line {
    ghost use Rattle.machine.specs.Words.{turn_line};

    // The kind of a line that a turn writes.
    pub const TURN: u8 = 1;

    // A line that nothing is written on.
    pub const BLANK: Line = Line {
        kind: 0,
        number: 0,
        party: 0,
        side: 0,
        price: 0,
        size: 0,
        moment: 0,
    };

    // The line of a turn: T with the number of the new phase.
    pub fn turn(phase: Phase, moment: u32) -> Line
        ensures { result ≡ turn_line phase moment }
    {
        Line {
            kind: Line::TURN,
            number: phase.number(),
            moment,
            ..Line::BLANK
        }
    }
}
