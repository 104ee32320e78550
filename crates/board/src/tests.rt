use crate::Board;
use crate::quote::Quote;
use crate::refusal::BoardRefusal;
use crate::sole::Sole;
use crate::suspended::Suspended;
use crate::table::Table;
use std::process::Abort;
use terms::Side;

// One call of a board, with the answer that the rules give.
#[derive(Clone, Copy)]
enum Step {
    Admits(u32, bool),
    Put(Side, Quote, bool),
    Lift(u32),
    Best(Side, Option<Quote>),
    Take(Side, u32, u32, bool),
    Clear,
}

fn quote(maker: u32, price: u32, size: u32, moment: u32) -> Quote {
    Quote {
        maker,
        price,
        size,
        moment,
    }
}

fn story<B: Board>(rt: &impl Abort, board: &mut B, steps: &[Step]) {
    for step in steps {
        match *step {
            Step::Admits(maker, answer) => assert_eq!(rt; board.admits(maker), answer),
            Step::Put(side, quote, answer) => assert_eq!(rt;
                board.put(side, quote).is_ok(),
                answer
            ),
            Step::Lift(maker) => board.lift(maker),
            Step::Best(side, answer) => assert_eq!(rt; board.best(side), answer),
            Step::Take(side, maker, size, answer) => assert_eq!(rt;
                board.take(side, maker, size).is_ok(),
                answer
            ),
            Step::Clear => board.clear(),
        }
    }
}

// The best goes by price, then by moment, then by maker.
#[test]
fn ranks_on_a_table(rt: HostRuntime) {
    let steps = [
        Step::Best(Side::Sell, None),
        Step::Put(Side::Sell, quote(3, 105, 10, 1), true),
        Step::Put(Side::Sell, quote(2, 105, 10, 1), true),
        Step::Put(Side::Sell, quote(1, 105, 10, 2), true),
        Step::Best(Side::Sell, Some(quote(2, 105, 10, 1))),
        Step::Put(Side::Sell, quote(16, 104, 5, 9), true),
        Step::Best(Side::Sell, Some(quote(16, 104, 5, 9))),
        Step::Best(Side::Buy, None),
        Step::Put(Side::Buy, quote(4, 100, 7, 5), true),
        Step::Put(Side::Buy, quote(6, 101, 7, 6), true),
        Step::Put(Side::Buy, quote(5, 101, 7, 6), true),
        Step::Best(Side::Buy, Some(quote(5, 101, 7, 6))),
        Step::Put(Side::Buy, quote(4, 101, 8, 3), true),
        Step::Best(Side::Buy, Some(quote(4, 101, 8, 3))),
        Step::Lift(4),
        Step::Lift(99),
        Step::Best(Side::Buy, Some(quote(5, 101, 7, 6))),
        Step::Clear,
        Step::Best(Side::Buy, None),
        Step::Best(Side::Sell, None),
    ];
    story(&rt, &mut Table::new(), &steps);
}

// Maker 7 alone: what is taken and what is refused, where it is admitted.
fn seven() -> [Step; 18] {
    [
        Step::Admits(7, true),
        Step::Put(Side::Sell, quote(7, 104, 5, 2), true),
        Step::Put(Side::Sell, quote(7, 90, 0, 3), false),
        Step::Put(Side::Sell, quote(0, 90, 1, 3), false),
        Step::Put(Side::Sell, quote(17, 90, 1, 3), false),
        Step::Best(Side::Sell, Some(quote(7, 104, 5, 2))),
        Step::Take(Side::Sell, 7, 6, false),
        Step::Take(Side::Buy, 7, 0, false),
        Step::Take(Side::Sell, 8, 0, false),
        Step::Take(Side::Sell, 7, 0, true),
        Step::Take(Side::Sell, 7, 3, true),
        Step::Best(Side::Sell, Some(quote(7, 104, 2, 2))),
        Step::Lift(8),
        Step::Take(Side::Sell, 7, 2, true),
        Step::Best(Side::Sell, None),
        Step::Put(Side::Buy, quote(7, 1, 1, 4), true),
        Step::Lift(7),
        Step::Best(Side::Buy, None),
    ]
}

// A board that does not admit maker 7, on which no quote stands.
const SHUT: [Step; 5] = [
    Step::Admits(7, false),
    Step::Put(
        Side::Buy,
        Quote {
            maker: 7,
            price: 1,
            size: 1,
            moment: 1,
        },
        false,
    ),
    Step::Take(Side::Buy, 7, 0, false),
    Step::Lift(7),
    Step::Best(Side::Buy, None),
];

#[test]
fn one_maker_on_every_board(rt: HostRuntime) {
    story(&rt, &mut Table::new(), &seven());
    story(&rt, &mut Sole::new(7), &seven());
    story(&rt, &mut Suspended::new(Table::new(), 6), &seven());
    story(&rt, &mut Suspended::new(Sole::new(7), 6), &seven());
    story(&rt, &mut Sole::new(0), &SHUT);
    story(
        &rt,
        &mut Sole::new(17),
        &[Step::Admits(17, false), Step::Admits(0, false)],
    );
    story(&rt, &mut Suspended::new(Sole::new(7), 7), &SHUT);
}

// The suspended maker's quotes are lifted, and the others stand.
#[test]
fn suspension_lifts(rt: HostRuntime) {
    let mut table = Table::new();
    let before = [
        Step::Put(Side::Buy, quote(7, 105, 5, 1), true),
        Step::Put(Side::Buy, quote(8, 104, 5, 1), true),
        Step::Put(Side::Sell, quote(7, 106, 5, 1), true),
    ];
    story(&rt, &mut table, &before);
    let after = [
        Step::Best(Side::Buy, Some(quote(8, 104, 5, 1))),
        Step::Best(Side::Sell, None),
        Step::Put(Side::Sell, quote(7, 106, 5, 2), false),
        Step::Admits(8, true),
        Step::Clear,
        Step::Best(Side::Buy, None),
    ];
    story(&rt, &mut Suspended::new(table, 7), &after);
}

// What is tested first is what the refusal tells.
#[test]
fn refusals_say_why(rt: HostRuntime) {
    let mut table = Table::new();
    let mut sole = Sole::new(7);
    let mut suspended = Suspended::new(Table::new(), 7);
    let small = quote(7, 105, 5, 1);
    let empty = quote(7, 105, 0, 1);
    assert_eq!(rt;
        table.put(Side::Buy, quote(17, 105, 0, 1)),
        Err(BoardRefusal::NotAdmitted)
    );
    assert_eq!(rt; table.put(Side::Buy, empty), Err(BoardRefusal::NoSize));
    assert_eq!(rt; table.put(Side::Buy, small), Ok(()));
    assert_eq!(rt; table.take(Side::Sell, 7, 6), Err(BoardRefusal::NoQuote));
    assert_eq!(rt; table.take(Side::Buy, 7, 6), Err(BoardRefusal::TooLarge));
    assert_eq!(rt; table.take(Side::Buy, 7, 5), Ok(()));
    assert_eq!(rt;
        sole.put(Side::Sell, quote(8, 105, 0, 1)),
        Err(BoardRefusal::NotAdmitted)
    );
    assert_eq!(rt; sole.put(Side::Sell, empty), Err(BoardRefusal::NoSize));
    assert_eq!(rt; sole.put(Side::Sell, small), Ok(()));
    assert_eq!(rt; sole.take(Side::Sell, 8, 6), Err(BoardRefusal::NoQuote));
    assert_eq!(rt; sole.take(Side::Sell, 7, 6), Err(BoardRefusal::TooLarge));
    assert_eq!(rt; suspended.check(&empty), Err(BoardRefusal::NotAdmitted));
    assert_eq!(rt;
        suspended.put(Side::Buy, small),
        Err(BoardRefusal::NotAdmitted)
    );
    assert_eq!(rt; suspended.take(Side::Buy, 7, 0), Err(BoardRefusal::NoQuote));
}
