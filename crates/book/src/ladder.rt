// One side's orders in rank order, the first at the end, so that the first in force is at hand and leaves without a shift.
ghost use Rattle.std.specs.Prelude.{◌≡◌, suc, ◌<◌, ◌≤◌, Bool, true, [], ◌++◌, length, take, drop, None, ◌==◌, MatchResult};
ghost use Rattle.std.specs.Fn.{FnReturnsAt};
ghost use Rattle.std.specs.List.{insert, position};
ghost use Rattle.std.specs.Option.{option_to_list};
ghost use Rattle.book.specs.Ladders.{ahead, ranked, distinct, enter, end_in_force, lower_of, lowest_in, Stands, wake_ranked};
ghost use Rattle.book.specs.declared.order.Order.{Order};
ghost use Rattle.book.specs.declared.refusal.BookRefusal.TheVariants.{NotLive};
ghost use Rattle.book.specs.Orders.{find, cut};
ghost use Rattle.book.specs.Refusals.{unless, cut_refusal, wake_refusal};

use crate::order::Order;
use crate::refusal::BookRefusal;
use arrayvec::ArrayVec;
use rank::Ranked;

pub(crate) const CAPACITY: usize = 256;

// No number stands twice in it.
#[derive(Drop)]
pub(crate) struct Ladder {
    orders: ArrayVec<Order, CAPACITY>,
    ghost in_rank: { ranked orders.items ≡ true },
    ghost apart: { distinct orders.items ≡ true },
    ghost few: { length orders.items ≤ 256 },
}

// Whether an order stands nearer the end than another: in force before waiting, else by rank.
fn is_ahead(order: &Order, other: &Order) -> bool
    ensures { result ≡ ahead order.now other.now }
{
    order.waiting < other.waiting || order.waiting == other.waiting && order.precedes(other)
}

// Puts what is left of an order in its place, or takes it out where nothing is left.
fn put_rest(orders: &mut ArrayVec<Order, CAPACITY>, place: usize, rest: Option<Order>)
    requires { place < length orders.old.items }
    ensures { orders.new.items ≡ take place orders.old.items ++ (option_to_list rest ++ drop (suc place) orders.old.items) }
{
    match rest {
        Some(rest) => orders.as_mut_slice()[place] = rest,
        None => {
            orders.remove(place);
        }
    }
}

impl Ladder {
    pub(crate) fn new() -> Self
        ensures { result.orders.items ≡ [] }
    {
        Ladder {
            orders: ArrayVec::new(),
        }
    }

    pub(crate) fn as_slice(&self) -> &[Order]
        ensures { result.now ≡ self.now.orders.items }
    {
        self.orders.as_slice()
    }

    // The place that an order takes by rank.
    fn rank_place(&self, order: &Order) -> usize
        ensures within { result ≤ length self.now.orders.items }
        ensures place { enter order.now self.now.orders.items ≡ insert self.now.orders.items result order.now }
    {
        self.as_slice()
            .partition_point(|other| is_ahead(order, other))
    }

    // Puts an order into its place by rank.
    pub(crate) fn enter(&mut self, order: Order)
        requires room { length self.old.orders.items < 256 }
        requires new { find order.number self.old.orders.items ≡ None }
        ensures { self.new.orders.items ≡ enter order self.old.orders.items }
    {
        let place = self.rank_place(&order);
        self.orders.insert(place, order);
    }

    // The place of a number.
    fn place(&self, number: u32) -> Option<usize>
        ensures { result ≡ position (λ o. o.number == number) self.now.orders.items }
    {
        self.as_slice()
            .iter()
            .position(|order| order.number == number)
    }

    // The place of a live number, with its order.
    pub(crate) fn live(&self, number: u32) -> Result<(usize, Order), BookRefusal>
        ensures { MatchResult result
            (λ p. Stands number self.now.orders.items p.0 p.1)
            (λ why. (why ≡ NotLive) × (find number self.now.orders.items ≡ None)) }
    {
        let place = self.place(number).ok_or(BookRefusal::NotLive)?;
        Ok((place, self.as_slice()[place]))
    }

    // Takes a size off the order at a place, which is gone at 0.
    pub(crate) fn cut(&mut self, place: usize, order: Order, size: u32) -> Result<(), BookRefusal>
        requires { Stands order.number self.old.orders.items place order }
        ensures answer { result ≡ unless (cut_refusal order.number size self.old.orders.items) }
        ensures orders { self.new.orders.items ≡ cut order.number size self.old.orders.items }
    {
        if size > order.left {
            return Err(BookRefusal::TooLarge);
        }
        put_rest(&mut self.orders, place, order.less(size));
        Ok(())
    }

    // Puts the waiting order at a place in force at a moment, in its new place by rank.
    pub(crate) fn wake(
        &mut self,
        place: usize,
        order: Order,
        moment: u32,
    ) -> Result<(), BookRefusal>
        requires { Stands order.number self.old.orders.items place order }
        ensures answer { result ≡ unless (wake_refusal order.number self.old.orders.items) }
        ensures orders { self.new.orders.items ≡ wake_ranked order.number moment self.old.orders.items }
    {
        if !order.waiting {
            return Err(BookRefusal::InForce);
        }
        self.orders.remove(place);
        self.enter(order.woken(moment));
        Ok(())
    }

    // The order at the end, if it is in force: the first by rank.
    pub(crate) fn first(&self) -> Option<Order>
        ensures { result ≡ end_in_force self.now.orders.items }
    {
        self.as_slice()
            .last()
            .copied()
            .filter(|order| !order.waiting)
    }

    // The lowest number of the orders that pass a test.
    pub(crate) fn lowest_where<F: Fn(&Order) -> bool>(&self, test: F) -> Option<u32>
        requires { F.IsAlwaysCallable test }
        ensures { (p : Order → Bool)
            → ((o : Order) (passes : Bool) → FnReturnsAt F.Fn test o passes → passes ≡ p o)
            → result ≡ lowest_in p self.now.orders.items }
    {
        self.as_slice()
            .iter()
            .copied()
            .filter(|order| test(order))
            .map(|order| order.number)
            .min()
    }
}

// The lower of two numbers, each if present.
pub(crate) fn lower_of(a: Option<u32>, b: Option<u32>) -> Option<u32>
    ensures { result ≡ lower_of a b }
{
    match (a, b) {
        (Some(a), Some(b)) => Some(a.min(b)),
        (a, b) => a.or(b),
    }
}
