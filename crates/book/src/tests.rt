// Stories over any book, worked out by hand from the rules.
use crate::book::{Book, empty};
use crate::order::{Kind, Order};
use crate::refusal::BookRefusal;
use crate::sorted::SortedBook;
use std::process::Abort;
use std::test::Fail;
use terms::Side;

const LIMIT: Order = Order {
    number: 1,
    owner: 7,
    kind: Kind::Limit,
    side: Side::Buy,
    price: 15_000,
    trigger: 0,
    left: 5,
    moment: 1,
    mate: 0,
    waiting: false,
};

fn limit(number: u32, side: Side, price: u32, moment: u32) -> Order {
    Order {
        number,
        side,
        price,
        moment,
        ..LIMIT
    }
}

fn trigger(number: u32, side: Side, trigger: u32) -> Order {
    Order {
        number,
        side,
        kind: Kind::TriggerMarket,
        price: 0,
        trigger,
        waiting: true,
        ..LIMIT
    }
}

fn without_size(number: u32) -> Order {
    Order {
        left: 0,
        ..limit(number, Side::Sell, 15_000, 257)
    }
}

// The number of the first in force of a side.
fn first_number<B: Book>(book: &B, side: Side) -> Option<u32> {
    book.first(side).map(|order| order.number)
}

// Takes the first of a side out, whose number is known.
fn check_first<B: Book>(rt: &impl Abort, book: &mut B, side: Side, number: u32) {
    assert_eq!(rt; first_number(book, side), Some(number));
    assert!(rt; book.cut(number, 5).is_ok());
}

fn ranks<B: Book>(rt: &impl Abort, book: &mut B) {
    assert_eq!(rt; first_number(book, Side::Buy), None);
    assert!(rt; book.add(limit(1, Side::Buy, 15_000, 3)).is_ok());
    assert!(rt; book.add(limit(3, Side::Buy, 15_001, 4)).is_ok());
    assert!(rt; book.add(limit(2, Side::Buy, 15_000, 3)).is_ok());
    assert!(rt; book.add(limit(4, Side::Buy, 15_000, 2)).is_ok());
    assert!(rt; book.add(limit(5, Side::Sell, 15_002, 3)).is_ok());
    assert!(rt; book.add(limit(6, Side::Sell, 15_003, 1)).is_ok());
    assert!(rt; book.add(limit(8, Side::Sell, 15_002, 2)).is_ok());
    assert!(rt; book.add(limit(7, Side::Sell, 15_002, 3)).is_ok());
    assert_eq!(rt;
        book.add(limit(6, Side::Buy, 15_003, 1)),
        Err(BookRefusal::NumberLive)
    );
    check_first(rt, book, Side::Buy, 3);
    check_first(rt, book, Side::Buy, 4);
    check_first(rt, book, Side::Buy, 1);
    check_first(rt, book, Side::Buy, 2);
    check_first(rt, book, Side::Sell, 8);
    check_first(rt, book, Side::Sell, 5);
    check_first(rt, book, Side::Sell, 7);
    check_first(rt, book, Side::Sell, 6);
    assert_eq!(rt; book.free(), 256);
}

fn wakes<B: Book>(rt: &impl Abort, book: &mut B) {
    assert!(rt; book.add(limit(1, Side::Sell, 1, 1)).is_ok());
    assert!(rt; book.add(trigger(2, Side::Sell, 14_990)).is_ok());
    assert!(rt; book.add(trigger(3, Side::Buy, 15_010)).is_ok());
    assert!(rt;
        book.add(Order {
            kind: Kind::LossCut,
            price: 0,
            moment: 5,
            ..limit(4, Side::Sell, 0, 5)
        })
        .is_ok()
    );
    assert_eq!(rt; book.lowest_waking(Some(14_991), Some(15_009)), None);
    assert_eq!(rt; book.lowest_waking(Some(14_990), None), Some(2));
    assert_eq!(rt; book.lowest_waking(None, Some(15_010)), Some(3));
    assert_eq!(rt; book.lowest_waking(Some(1), Some(20_000)), Some(2));
    assert_eq!(rt; first_number(book, Side::Buy), None);
    assert!(rt; book.wake(2, 6).is_ok());
    assert_eq!(rt; book.wake(2, 7), Err(BookRefusal::InForce));
    assert_eq!(rt; book.wake(1, 7), Err(BookRefusal::InForce));
    assert_eq!(rt; book.wake(5, 7), Err(BookRefusal::NotLive));
    assert_eq!(rt; book.lowest_waking(Some(1), None), None);
    check_first(rt, book, Side::Sell, 4);
    check_first(rt, book, Side::Sell, 2);
    check_first(rt, book, Side::Sell, 1);
    assert_eq!(rt; book.lowest(), Some(3));
}

fn full<B: Book>(rt: &impl Abort, book: &mut B) -> Result<(), Fail> {
    for number in 1..257 {
        assert!(rt; book.add(limit(number, Side::Buy, 15_000, number)).is_ok());
    }
    assert_eq!(rt; book.free(), 0);
    assert_eq!(rt;
        book.add(limit(257, Side::Sell, 15_000, 257)),
        Err(BookRefusal::Full)
    );
    assert_eq!(rt; book.add(without_size(8)), Err(BookRefusal::Full));
    assert_eq!(rt; book.cut(9, 6), Err(BookRefusal::TooLarge));
    assert_eq!(rt; book.cut(300, 1), Err(BookRefusal::NotLive));
    assert!(rt; book.cut(9, 4).is_ok());
    assert_eq!(rt; book.order(9).ok_or("live")?.left, 1);
    assert_eq!(rt; book.free(), 0);
    assert!(rt; book.cut(9, 1).is_ok());
    assert!(rt; book.order(9).is_none());
    assert_eq!(rt; book.add(without_size(257)), Err(BookRefusal::NoSize));
    assert_eq!(rt; book.add(without_size(8)), Err(BookRefusal::NumberLive));
    assert!(rt; book.add(limit(257, Side::Sell, 15_000, 257)).is_ok());
    empty(book);
    assert_eq!(rt; book.free(), 256);
    Ok(())
}

#[test]
fn ranks_of_sorted_book(rt: HostRuntime) {
    ranks(&rt, &mut SortedBook::new());
}

#[test]
fn waking_in_sorted_book(rt: HostRuntime) {
    wakes(&rt, &mut SortedBook::new());
}

#[test]
fn full_sorted_book(rt: HostRuntime) -> Result<(), Fail> {
    full(&rt, &mut SortedBook::new())
}
