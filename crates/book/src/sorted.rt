// A book that keeps each side in rank order.
ghost use Rattle.std.specs.Prelude.{◌≡◌, ◌<◌, ◌≤◌, Bool, [], length, None, MatchResult};
ghost use Rattle.std.specs.Fn.{FnReturnsAt};
ghost use Rattle.terms.specs.BySide.{on_side};
ghost use Rattle.terms.specs.declared.side.Side.TheVariants.{Buy};
ghost use Rattle.book.specs.Ladders.{Laddered, Stands, poured};
ghost use Rattle.book.specs.declared.order.Order.{Order};
ghost use Rattle.book.specs.declared.refusal.BookRefusal.TheVariants.{NotLive};
ghost use Rattle.book.specs.Orders.{Sound, find, place, cut, woken, first_of, First, lowest_by};
ghost use Rattle.book.specs.Refusals.{unless, cut_refusal, wake_refusal};

use crate::book::Book;
use crate::ladder::{CAPACITY, Ladder, lower_of};
use crate::order::Order;
use crate::refusal::BookRefusal;
use terms::{BySide, Side};

// 256 orders of its own, no allocation.
#[derive(Drop)]
pub struct SortedBook {
    ladders: BySide<Ladder>,
    ghost laddered: { Laddered Buy ladders.buy.orders.items ladders.sell.orders.items },
    ghost sound: { Sound 256 (poured ladders.buy.orders.items ladders.sell.orders.items) },
}

impl SortedBook {
    ghost use Rattle.book.specs.Sorted.{sorted_orders};

    pub fn new() -> Self
        ensures { sorted_orders result ≡ [] }
    {
        SortedBook {
            ladders: BySide {
                buy: Ladder::new(),
                sell: Ladder::new(),
            },
        }
    }

    fn count(&self) -> usize
        ensures count { result ≡ length (sorted_orders self.now) }
        ensures few { result ≤ 256 }
    {
        self.ladders.buy.as_slice().len() + self.ladders.sell.as_slice().len()
    }

    // The place of a live number on its side, with its order.
    fn live(&self, number: u32) -> Result<(usize, Order), BookRefusal>
        ensures { MatchResult result
            (λ p. Stands number (on_side p.1.side self.now.ladders).orders.items p.0 p.1)
            (λ why. (why ≡ NotLive) × (find number (sorted_orders self.now) ≡ None)) }
    {
        match self.ladders.buy.live(number) {
            Ok(found) => Ok(found),
            Err(_) => self.ladders.sell.live(number),
        }
    }

    fn find_order(&self, number: u32) -> Option<Order>
        ensures { result ≡ find number (sorted_orders self.now) }
    {
        let (_, order) = self.live(number).ok()?;
        Some(order)
    }

    // The lowest number of the orders that pass a test.
    fn lowest_where<F: Fn(&Order) -> bool>(&self, test: F) -> Option<u32>
        requires { F.IsAlwaysCallable test }
        ensures { (p : Order → Bool)
            → ((o : Order) (passes : Bool) → FnReturnsAt F.Fn test o passes → passes ≡ p o)
            → result ≡ lowest_by p (sorted_orders self.now) }
    {
        // not one chain: of that only a written answer was found, in which no wrong test is told
        lower_of(
            self.ladders.buy.lowest_where(&test),
            self.ladders.sell.lowest_where(&test),
        )
    }

    fn first_on(&self, side: Side) -> Option<Order>
        ensures answer { result ≡ first_of side (sorted_orders self.now) }
        ensures law { First side (sorted_orders self.now) result }
    {
        self.ladders.on(side).first()
    }

    // Adds an order for which there is room, with a size and a number of its own.
    fn enter(&mut self, order: Order)
        requires room { length (sorted_orders self.old) < 256 }
        requires new { find order.number (sorted_orders self.old) ≡ None }
        requires sized { 0 < order.left }
        ensures { sorted_orders self.new ≡ place order (sorted_orders self.old) }
    {
        self.ladders.on_mut(order.side).enter(order);
    }

    fn cut_order(&mut self, number: u32, size: u32) -> Result<(), BookRefusal>
        ensures answer { result ≡ unless (cut_refusal number size (sorted_orders self.old)) }
        ensures orders { sorted_orders self.new ≡ cut number size (sorted_orders self.old) }
    {
        let (place, order) = self.live(number)?;
        self.ladders.on_mut(order.side).cut(place, order, size)
    }

    fn wake_order(&mut self, number: u32, moment: u32) -> Result<(), BookRefusal>
        ensures answer { result ≡ unless (wake_refusal number (sorted_orders self.old)) }
        ensures orders { sorted_orders self.new ≡ woken number moment (sorted_orders self.old) }
    {
        let (place, order) = self.live(number)?;
        self.ladders.on_mut(order.side).wake(place, order, moment)
    }
}

impl Book for SortedBook {
    ghost use Rattle.book.specs.Sorted.{sorted_orders};

    ghost capacity = { λ _. 256 };

    ghost orders = { sorted_orders };

    ghost sound = { λ b. b.sound };

    fn add(&mut self, order: Order) -> Result<(), BookRefusal> {
        if self.count() >= CAPACITY {
            return Err(BookRefusal::Full);
        }
        if self.find_order(order.number).is_some() {
            return Err(BookRefusal::NumberLive);
        }
        if order.left == 0 {
            return Err(BookRefusal::NoSize);
        }
        self.enter(order);
        Ok(())
    }

    fn free(&self) -> usize {
        CAPACITY - self.count()
    }

    fn order(&self, number: u32) -> Option<Order> {
        self.find_order(number)
    }

    fn lowest(&self) -> Option<u32> {
        self.lowest_where(|_| true)
    }

    fn first(&self, side: Side) -> Option<Order> {
        self.first_on(side)
    }

    fn cut(&mut self, number: u32, size: u32) -> Result<(), BookRefusal> {
        self.cut_order(number, size)
    }

    fn wake(&mut self, number: u32, moment: u32) -> Result<(), BookRefusal> {
        self.wake_order(number, moment)
    }

    fn lowest_waking(&self, sells: Option<u32>, buys: Option<u32>) -> Option<u32> {
        self.lowest_where(|order| order.wakes(sells, buys))
    }
}
