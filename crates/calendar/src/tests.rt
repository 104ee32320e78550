use crate::Calendar;
use crate::closing::Closing;
use crate::listed::Listed;
use crate::phase::{Phase, Stretch};
use crate::timetable::{Group, Timetable};

// The known minutes of specs/KnownHours.antt: a group, a minute, and its phase.
const KNOWN: [(Group, u32, Phase); 112] = [
    // Tuesday 2 January 2024, and its end on Wednesday.
    (Group::Yen, 1 * 1440 + 7 * 60 + 44, Phase::Closed),
    (Group::Yen, 1 * 1440 + 7 * 60 + 45, Phase::PreOpen(1)),
    (Group::Yen, 1 * 1440 + 7 * 60 + 55, Phase::Matching(1)),
    (Group::Yen, 2 * 1440 + 6 * 60 + 54, Phase::Matching(1)),
    (Group::Yen, 2 * 1440 + 6 * 60 + 55, Phase::Closed),
    (Group::Cross, 2 * 1440 + 6 * 60 + 24, Phase::Matching(1)),
    (Group::Cross, 2 * 1440 + 6 * 60 + 25, Phase::Closed),
    // Monday 11 March 2024, the first summer day of its year.
    (Group::Yen, 70 * 1440 + 6 * 60 + 9, Phase::Closed),
    (Group::Yen, 70 * 1440 + 6 * 60 + 10, Phase::PreOpen(70)),
    (Group::Yen, 71 * 1440 + 5 * 60 + 55, Phase::Closed),
    (Group::Cross, 71 * 1440 + 5 * 60 + 24, Phase::Matching(70)),
    (Group::Cross, 71 * 1440 + 5 * 60 + 25, Phase::Closed),
    // Noon of 1 January, on which no session starts, and of 2 January, on which one starts unless it is a Saturday (2027, 2038), a Sunday (2028, 2033, 2039) or follows a Sunday (2034, 2040).
    (Group::Yen, 0 * 1440 + 12 * 60, Phase::Closed),
    (Group::Yen, 1 * 1440 + 12 * 60, Phase::Matching(1)),
    (Group::Yen, 366 * 1440 + 12 * 60, Phase::Closed),
    (Group::Yen, 367 * 1440 + 12 * 60, Phase::Matching(367)),
    (Group::Yen, 731 * 1440 + 12 * 60, Phase::Closed),
    (Group::Yen, 732 * 1440 + 12 * 60, Phase::Matching(732)),
    (Group::Yen, 1096 * 1440 + 12 * 60, Phase::Closed),
    (Group::Yen, 1097 * 1440 + 12 * 60, Phase::Closed),
    (Group::Yen, 1461 * 1440 + 12 * 60, Phase::Closed),
    (Group::Yen, 1462 * 1440 + 12 * 60, Phase::Closed),
    (Group::Yen, 1827 * 1440 + 12 * 60, Phase::Closed),
    (Group::Yen, 1828 * 1440 + 12 * 60, Phase::Matching(1828)),
    (Group::Yen, 2192 * 1440 + 12 * 60, Phase::Closed),
    (Group::Yen, 2193 * 1440 + 12 * 60, Phase::Matching(2193)),
    (Group::Yen, 2557 * 1440 + 12 * 60, Phase::Closed),
    (Group::Yen, 2558 * 1440 + 12 * 60, Phase::Matching(2558)),
    (Group::Yen, 2922 * 1440 + 12 * 60, Phase::Closed),
    (Group::Yen, 2923 * 1440 + 12 * 60, Phase::Matching(2923)),
    (Group::Yen, 3288 * 1440 + 12 * 60, Phase::Closed),
    (Group::Yen, 3289 * 1440 + 12 * 60, Phase::Closed),
    (Group::Yen, 3653 * 1440 + 12 * 60, Phase::Closed),
    (Group::Yen, 3654 * 1440 + 12 * 60, Phase::Closed),
    (Group::Yen, 4018 * 1440 + 12 * 60, Phase::Closed),
    (Group::Yen, 4019 * 1440 + 12 * 60, Phase::Matching(4019)),
    (Group::Yen, 4383 * 1440 + 12 * 60, Phase::Closed),
    (Group::Yen, 4384 * 1440 + 12 * 60, Phase::Matching(4384)),
    (Group::Yen, 4749 * 1440 + 12 * 60, Phase::Closed),
    (Group::Yen, 4750 * 1440 + 12 * 60, Phase::Matching(4750)),
    (Group::Yen, 5114 * 1440 + 12 * 60, Phase::Closed),
    (Group::Yen, 5115 * 1440 + 12 * 60, Phase::Closed),
    (Group::Yen, 5479 * 1440 + 12 * 60, Phase::Closed),
    (Group::Yen, 5480 * 1440 + 12 * 60, Phase::Closed),
    (Group::Yen, 5844 * 1440 + 12 * 60, Phase::Closed),
    (Group::Yen, 5845 * 1440 + 12 * 60, Phase::Closed),
    (Group::Yen, 6210 * 1440 + 12 * 60, Phase::Closed),
    (Group::Yen, 6211 * 1440 + 12 * 60, Phase::Matching(6211)),
    (Group::Yen, 6575 * 1440 + 12 * 60, Phase::Closed),
    (Group::Yen, 6576 * 1440 + 12 * 60, Phase::Matching(6576)),
    (Group::Yen, 6940 * 1440 + 12 * 60, Phase::Closed),
    (Group::Yen, 6941 * 1440 + 12 * 60, Phase::Matching(6941)),
    // The session of Tuesday 31 December 2024 runs to its end.
    (Group::Yen, 366 * 1440 + 6 * 60 + 54, Phase::Matching(365)),
    (Group::Yen, 366 * 1440 + 6 * 60 + 55, Phase::Closed),
    // 2024: the last winter Friday and the first summer Monday, the last summer Friday and the first winter Monday.
    (Group::Yen, 67 * 1440 + 7 * 60 + 44, Phase::Closed),
    (Group::Yen, 67 * 1440 + 7 * 60 + 45, Phase::PreOpen(67)),
    (Group::Yen, 68 * 1440 + 5 * 60 + 59, Phase::Matching(67)),
    (Group::Yen, 68 * 1440 + 6 * 60, Phase::Closed),
    (Group::Yen, 71 * 1440 + 5 * 60 + 54, Phase::Matching(70)),
    (Group::Yen, 71 * 1440 + 5 * 60 + 55, Phase::Closed),
    (Group::Yen, 71 * 1440 + 6 * 60 + 45, Phase::PreOpen(71)),
    (Group::Yen, 305 * 1440 + 6 * 60 + 44, Phase::Closed),
    (Group::Yen, 305 * 1440 + 6 * 60 + 45, Phase::PreOpen(305)),
    (Group::Yen, 306 * 1440 + 4 * 60 + 59, Phase::Matching(305)),
    (Group::Yen, 306 * 1440 + 5 * 60, Phase::Closed),
    (Group::Yen, 309 * 1440 + 6 * 60 + 54, Phase::Matching(308)),
    (Group::Yen, 309 * 1440 + 6 * 60 + 55, Phase::Closed),
    (Group::Yen, 309 * 1440 + 7 * 60 + 44, Phase::Closed),
    (Group::Yen, 309 * 1440 + 7 * 60 + 45, Phase::PreOpen(309)),
    // 2026: the last winter Friday and the first summer Monday, the last summer Friday and the first winter Monday.
    (Group::Yen, 795 * 1440 + 7 * 60 + 44, Phase::Closed),
    (Group::Yen, 795 * 1440 + 7 * 60 + 45, Phase::PreOpen(795)),
    (Group::Yen, 796 * 1440 + 5 * 60 + 59, Phase::Matching(795)),
    (Group::Yen, 796 * 1440 + 6 * 60, Phase::Closed),
    (Group::Yen, 799 * 1440 + 5 * 60 + 54, Phase::Matching(798)),
    (Group::Yen, 799 * 1440 + 5 * 60 + 55, Phase::Closed),
    (Group::Yen, 799 * 1440 + 6 * 60 + 45, Phase::PreOpen(799)),
    (Group::Yen, 1033 * 1440 + 6 * 60 + 44, Phase::Closed),
    (Group::Yen, 1033 * 1440 + 6 * 60 + 45, Phase::PreOpen(1033)),
    (Group::Yen, 1034 * 1440 + 4 * 60 + 59, Phase::Matching(1033)),
    (Group::Yen, 1034 * 1440 + 5 * 60, Phase::Closed),
    (Group::Yen, 1037 * 1440 + 6 * 60 + 54, Phase::Matching(1036)),
    (Group::Yen, 1037 * 1440 + 6 * 60 + 55, Phase::Closed),
    (Group::Yen, 1037 * 1440 + 7 * 60 + 44, Phase::Closed),
    (Group::Yen, 1037 * 1440 + 7 * 60 + 45, Phase::PreOpen(1037)),
    // 2027: the last winter Friday and the first summer Monday, the last summer Friday and the first winter Monday.
    (Group::Yen, 1166 * 1440 + 7 * 60 + 44, Phase::Closed),
    (Group::Yen, 1166 * 1440 + 7 * 60 + 45, Phase::PreOpen(1166)),
    (Group::Yen, 1167 * 1440 + 5 * 60 + 59, Phase::Matching(1166)),
    (Group::Yen, 1167 * 1440 + 6 * 60, Phase::Closed),
    (Group::Yen, 1170 * 1440 + 5 * 60 + 54, Phase::Matching(1169)),
    (Group::Yen, 1170 * 1440 + 5 * 60 + 55, Phase::Closed),
    (Group::Yen, 1170 * 1440 + 6 * 60 + 45, Phase::PreOpen(1170)),
    (Group::Yen, 1404 * 1440 + 6 * 60 + 44, Phase::Closed),
    (Group::Yen, 1404 * 1440 + 6 * 60 + 45, Phase::PreOpen(1404)),
    (Group::Yen, 1405 * 1440 + 4 * 60 + 59, Phase::Matching(1404)),
    (Group::Yen, 1405 * 1440 + 5 * 60, Phase::Closed),
    (Group::Yen, 1408 * 1440 + 6 * 60 + 54, Phase::Matching(1407)),
    (Group::Yen, 1408 * 1440 + 6 * 60 + 55, Phase::Closed),
    (Group::Yen, 1408 * 1440 + 7 * 60 + 44, Phase::Closed),
    (Group::Yen, 1408 * 1440 + 7 * 60 + 45, Phase::PreOpen(1408)),
    // From Friday into Saturday, in winter and in summer; Sunday is closed.
    (Group::Yen, 5 * 1440 + 5 * 60 + 59, Phase::Matching(4)),
    (Group::Yen, 5 * 1440 + 6 * 60, Phase::Closed),
    (Group::Cross, 5 * 1440 + 5 * 60 + 29, Phase::Matching(4)),
    (Group::Cross, 5 * 1440 + 5 * 60 + 30, Phase::Closed),
    (Group::Yen, 187 * 1440 + 4 * 60 + 59, Phase::Matching(186)),
    (Group::Yen, 187 * 1440 + 5 * 60, Phase::Closed),
    (Group::Cross, 187 * 1440 + 4 * 60 + 29, Phase::Matching(186)),
    (Group::Cross, 187 * 1440 + 4 * 60 + 30, Phase::Closed),
    (Group::Yen, 187 * 1440 + 12 * 60, Phase::Closed),
    (Group::Yen, 188 * 1440 + 12 * 60, Phase::Closed),
    // The last minute that is covered, and above it.
    (Group::Yen, 9_999_999, Phase::Matching(6944)),
    (Group::Yen, 10_000_000, Phase::Closed),
    (Group::Cross, 4_294_967_295, Phase::Closed),
];

#[test]
fn timetable_says_what_is_known(rt: HostRuntime) {
    for (group, minute, phase) in &KNOWN {
        assert_eq!(rt; Timetable::new(*group).phase(*minute), *phase);
    }
}

// The second stretch overlaps the first, and the last two have numbers that mean no phase.
const STRETCHES: [Stretch; 4] = [
    Stretch {
        from: 10,
        until: 20,
        phase: 2,
        day: 7,
    },
    Stretch {
        from: 5,
        until: 30,
        phase: 1,
        day: 8,
    },
    Stretch {
        from: 40,
        until: 50,
        phase: 3,
        day: 9,
    },
    Stretch {
        from: 50,
        until: 60,
        phase: 0,
        day: 9,
    },
];

#[test]
fn first_stretch_answers(rt: HostRuntime) {
    let listed = Listed::new(&STRETCHES);
    let answers = [
        (4, Phase::Closed),
        (5, Phase::PreOpen(8)),
        (9, Phase::PreOpen(8)),
        (10, Phase::Matching(7)),
        (19, Phase::Matching(7)),
        (20, Phase::PreOpen(8)),
        (29, Phase::PreOpen(8)),
        (30, Phase::Closed),
        (40, Phase::Closed),
        (50, Phase::Closed),
    ];
    for (minute, phase) in &answers {
        assert_eq!(rt; listed.phase(*minute), *phase);
    }
    assert_eq!(rt; Listed::new(&[]).phase(10), Phase::Closed);
}

#[test]
fn closing_closes_one_day(rt: HostRuntime) {
    let listed = Closing::new(Listed::new(&STRETCHES), 7);
    assert_eq!(rt; listed.phase(10), Phase::Closed);
    assert_eq!(rt; listed.phase(20), Phase::PreOpen(8));
    let tuesday = Closing::new(Timetable::new(Group::Yen), 1);
    assert_eq!(rt; tuesday.phase(1905), Phase::Closed);
    assert_eq!(rt; tuesday.phase(3294), Phase::Closed);
    assert_eq!(rt; tuesday.phase(2 * 1440 + 8 * 60), Phase::Matching(2));
}
