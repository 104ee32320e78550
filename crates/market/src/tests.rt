// Turns over a short listed calendar, worked out by hand.
use crate::Market;
use calendar::{Calendar, Listed, Phase, Stretch};
use machine::{Call, Line, Refusal};
use std::process::Abort;

// Pre-open from minute 10, matching from 20, closed from 30, all of day 3.
const HOURS: [Stretch; 2] = [
    Stretch {
        from: 10,
        until: 20,
        phase: 1,
        day: 3,
    },
    Stretch {
        from: 20,
        until: 30,
        phase: 2,
        day: 3,
    },
];

fn turned(number: u32, moment: u32) -> Line {
    Line {
        kind: 1,
        number,
        party: 0,
        side: 0,
        price: 0,
        size: 0,
        moment,
    }
}

#[test]
fn a_session(rt: HostRuntime) {
    let mut tape = [Line::BLANK; 1024];
    let mut market = Market::new(Listed::new(&HOURS));
    assert_eq!(rt; market.apply(Call::Turn { minute: 10 }, &mut tape), Ok(1));
    assert_eq!(rt; tape[0], turned(1, 1));
    assert_eq!(rt; tape[1], Line::BLANK);
    assert_eq!(rt; market.turn(29, &mut tape), Ok(1));
    assert_eq!(rt; tape[0], turned(2, 2));
    assert_eq!(rt; market.held().phase, Phase::Matching(3));
    assert_eq!(rt; market.held().day, 3);
    assert_eq!(rt; market.turn(30, &mut tape), Ok(1));
    assert_eq!(rt; tape[0], turned(0, 3));
    assert_eq!(rt; market.held().phase, Phase::Closed);
    assert_eq!(rt; market.held().day, 0);
    assert_eq!(rt; market.held().minute, 30);
}

#[test]
fn refusals(rt: HostRuntime) {
    let mut tape = [Line::BLANK; 1024];
    let mut short = [Line::BLANK; 1023];
    let mut market = Market::new(Listed::new(&HOURS));
    assert_eq!(rt; market.turn(25, &mut tape), Ok(1));
    assert_eq!(rt;
        market.turn(10_000_000, &mut short),
        Err(Refusal::TapeTooShort)
    );
    assert_eq!(rt;
        market.turn(10_000_000, &mut tape),
        Err(Refusal::MinuteTooLate)
    );
    assert_eq!(rt; market.turn(24, &mut tape), Err(Refusal::MinuteBeforeHeld));
    assert_eq!(rt; short[0], Line::BLANK);
    assert_eq!(rt; tape[0], turned(2, 1));
    assert_eq!(rt; market.held().minute, 25);
    assert_eq!(rt; market.held().moment, 1);
    assert_eq!(rt; market.turn(9_999_999, &mut tape), Ok(1));
}

fn turn_often<C: Calendar>(rt: &impl Abort, market: &mut Market<C>, tape: &mut [Line], times: u32) {
    for _ in 0..times {
        assert_eq!(rt; market.turn(25, tape), Ok(1));
    }
}

#[test]
fn last_moment(rt: HostRuntime) {
    let mut tape = [Line::BLANK; 1024];
    let mut market = Market::new(Listed::new(&HOURS));
    turn_often(&rt, &mut market, &mut tape, 4_000_000);
    assert_eq!(rt;
        market.turn(10_000_000, &mut tape),
        Err(Refusal::MomentsSpent)
    );
    assert_eq!(rt; market.held().moment, 4_000_000);
}
